// Damage to a state: one field of one record, one table or the state itself gets a value that a generator draws, and so does the record's
// id or the table's place.
use base_queue::{CAPACITY, Queue};
use spec_kernel::records::{Condition, Event, Kernel, Message, Semaphore, Thread, Wake};
use spec_kernel::sizes;

#[derive(Clone, Copy)]
pub(crate) enum OfThread {
    Live,
    Priority,
    First,
    Condition,
    Ticks,
    Wake,
    Reply,
}

#[derive(Clone, Copy)]
pub(crate) enum OfSemaphore {
    Live,
    Count,
    Maximum,
    Ticks,
    Period,
}

#[derive(Clone, Copy)]
pub(crate) enum OfEvent {
    Any,
    Mask,
    Values,
}

#[derive(Clone, Copy)]
pub(crate) enum OfMessage {
    Live,
    Owner,
    Sender,
    Kind,
    Size,
    Address,
    Channel,
}

// A table's length, or one of its places.
#[derive(Clone, Copy)]
pub(crate) enum OfTable {
    Length,
    Place,
}

#[derive(Clone, Copy)]
pub(crate) enum Field {
    Thread(OfThread),
    Semaphore(OfSemaphore),
    Event(OfEvent),
    Message(OfMessage),
    Places(OfTable),
    Time(OfTable),
    Posted(OfTable),
    Bits,
    Uptime,
    Unscheduled,
    Critical,
    Runner,
    Flags,
}

// All of them, in the order in which they are tried.
pub(crate) const FIELDS: [Field; 34] = [
    Field::Thread(OfThread::Live),
    Field::Thread(OfThread::Priority),
    Field::Thread(OfThread::First),
    Field::Thread(OfThread::Condition),
    Field::Thread(OfThread::Ticks),
    Field::Thread(OfThread::Wake),
    Field::Thread(OfThread::Reply),
    Field::Semaphore(OfSemaphore::Live),
    Field::Semaphore(OfSemaphore::Count),
    Field::Semaphore(OfSemaphore::Maximum),
    Field::Semaphore(OfSemaphore::Ticks),
    Field::Semaphore(OfSemaphore::Period),
    Field::Event(OfEvent::Any),
    Field::Event(OfEvent::Mask),
    Field::Event(OfEvent::Values),
    Field::Message(OfMessage::Live),
    Field::Message(OfMessage::Owner),
    Field::Message(OfMessage::Sender),
    Field::Message(OfMessage::Kind),
    Field::Message(OfMessage::Size),
    Field::Message(OfMessage::Address),
    Field::Message(OfMessage::Channel),
    Field::Places(OfTable::Length),
    Field::Places(OfTable::Place),
    Field::Time(OfTable::Length),
    Field::Time(OfTable::Place),
    Field::Posted(OfTable::Length),
    Field::Posted(OfTable::Place),
    Field::Bits,
    Field::Uptime,
    Field::Unscheduled,
    Field::Critical,
    Field::Runner,
    Field::Flags,
];

// The generator's next number.
pub(crate) fn thrown(dice: u64) -> u64 {
    let a = dice ^ (dice << 13);
    let b = a ^ (a >> 7);
    b ^ (b << 17)
}

fn byte(value: u32) -> u8 {
    (value % 256) as u8
}

fn half(value: u32) -> u16 {
    (value % 65536) as u16
}

fn condition(value: u32) -> Condition {
    let v = value / 6;
    match value % 6 {
        0 => Condition::Ready,
        1 => Condition::Asleep,
        2 => Condition::ForSemaphore(byte(v)),
        3 => Condition::ForEvent(byte(v)),
        4 => Condition::ForFlag(byte(v)),
        _ => Condition::ForMessage(half(v)),
    }
}

fn strike_thread(t: &mut Thread, field: OfThread, value: u32) {
    match field {
        OfThread::Live => t.live = !t.live,
        OfThread::Priority => t.priority = byte(value),
        OfThread::First => t.first = byte(value),
        OfThread::Condition => t.condition = condition(value),
        OfThread::Ticks => t.ticks = value,
        OfThread::Wake => t.wake = Wake::Met,
        OfThread::Reply => t.reply = byte(value),
    }
}

fn strike_semaphore(s: &mut Semaphore, field: OfSemaphore, value: u32) {
    match field {
        OfSemaphore::Live => s.live = !s.live,
        OfSemaphore::Count => s.count = half(value),
        OfSemaphore::Maximum => s.maximum = half(value),
        OfSemaphore::Ticks => s.ticks = value,
        OfSemaphore::Period => s.period = value,
    }
}

fn strike_event(e: &mut Event, field: OfEvent, value: u32) {
    match field {
        OfEvent::Any => e.any = !e.any,
        OfEvent::Mask => e.mask = value,
        OfEvent::Values => e.values = value,
    }
}

fn strike_message(m: &mut Message, field: OfMessage, value: u32) {
    match field {
        OfMessage::Live => m.live = !m.live,
        OfMessage::Owner => m.owner = byte(value),
        OfMessage::Sender => m.sender = byte(value),
        OfMessage::Kind => m.kind = half(value),
        OfMessage::Size => m.size = value,
        OfMessage::Address => m.address = value,
        OfMessage::Channel => m.channel = byte(value),
    }
}

fn strike_table(q: &mut Queue, field: OfTable, id: usize, value: u32) {
    match field {
        OfTable::Length => q.n = byte(value),
        OfTable::Place => q.at[id % CAPACITY] = byte(value),
    }
}

// The state with one field struck, by the generator's number. Low ids are the likelier ones, since those are live, and small values are as
// likely as large ones.
pub(crate) fn damaged(mut k: Kernel, field: Field, r: u64) -> Kernel {
    let id = ((r >> 20) % 64 >> (r >> 26) % 4) as usize;
    let value = ((r >> 32) % 4294967296) as u32 >> (r >> 27) % 32;
    match field {
        Field::Thread(f) => strike_thread(&mut k.threads[id % sizes::THREADS], f, value),
        Field::Semaphore(f) => strike_semaphore(
            &mut k.semaphores[id % sizes::SEMAPHORES],
            f,
            value,
        ),
        Field::Event(f) => strike_event(&mut k.events[id % sizes::EVENTS], f, value),
        Field::Message(f) => strike_message(&mut k.messages[id % sizes::MESSAGES], f, value),
        Field::Places(f) => strike_table(&mut k.places, f, id, value),
        Field::Time(f) => strike_table(&mut k.time, f, id, value),
        Field::Posted(f) => strike_table(&mut k.posted, f, id, value),
        Field::Bits => k.bits = value,
        Field::Uptime => k.uptime = value,
        Field::Unscheduled => k.unscheduled = byte(value),
        Field::Critical => k.critical = byte(value),
        Field::Runner => k.runner = byte(value),
        Field::Flags => k.flags = half(value),
    }
    k
}
