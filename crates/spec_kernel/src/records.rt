// Document 01's records and the state that holds them.
use crate::sizes;
use base_queue::Queue;

// What a thread does: it is ready, asleep, or waits for a semaphore, an event, a message on the masked channels, or a flag.
#[derive(Clone, Copy)]
pub enum Condition {
    Ready,
    Asleep,
    ForSemaphore(u8),
    ForEvent(u8),
    ForMessage(u16),
    ForFlag(u8),
}

// What a thread waited for when its time was up.
#[derive(Clone, Copy)]
pub enum Object {
    Semaphore,
    Event,
    Message,
    Flag,
}

// Why a thread was woken last.
#[derive(Clone, Copy)]
pub enum Wake {
    None,
    Met,
    TimedOut(Object),
}

#[derive(Clone, Copy)]
pub struct Thread {
    pub live: bool,
    pub priority: u8,
    pub first: u8,
    pub condition: Condition,
    pub ticks: u32,
    pub wake: Wake,
    pub reply: u8,
}

#[derive(Clone, Copy)]
pub struct Semaphore {
    pub live: bool,
    pub count: u16,
    pub maximum: u16,
    pub ticks: u32,
    pub period: u32,
}

// `any` is document 01's mode: true for any, false for all.
#[derive(Clone, Copy)]
pub struct Event {
    pub any: bool,
    pub mask: u32,
    pub values: u32,
}

// `kind` is document 01's type. `channel` is the place and no part of the record: 0 where the owner holds the message. It stands with
// the other single bytes, so that a message takes sixteen.
#[derive(Clone, Copy)]
pub struct Message {
    pub live: bool,
    pub owner: u8,
    pub sender: u8,
    pub channel: u8,
    pub kind: u16,
    pub size: u32,
    pub address: u32,
}

// `flags` has a bit for each flag that is live: that is all of a flag's record.
#[derive(Clone, Copy)]
pub struct Kernel {
    pub threads: [Thread; sizes::THREADS],
    pub semaphores: [Semaphore; sizes::SEMAPHORES],
    pub events: [Event; sizes::EVENTS],
    pub messages: [Message; sizes::MESSAGES],
    pub places: Queue,
    pub time: Queue,
    pub posted: Queue,
    pub bits: u32,
    pub uptime: u32,
    pub unscheduled: u8,
    pub critical: u8,
    pub runner: u8,
    pub flags: u16,
}
