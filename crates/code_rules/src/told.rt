// One pass over each table of records: whether each keeps its rules, and what the tables of places are tested by.
ghost use Rattle.std.specs.Prelude.{◌≡◌};
ghost use Rattle.code_rules.specs.Told.{OfSemaphores, OfEvents, OfThreads, OfMessages};

use base_bits::sets;
use base_queue::CAPACITY;
use code_kernel::places;
use spec_kernel::records::{Event, Message, Semaphore, Thread};
use spec_kernel::sizes;

// `waited` has those that may have waiters.
#[derive(Clone, Copy)]
pub struct Semaphores {
    pub kept: bool,
    pub waited: u64,
}

// Sets of those who have a home and of those who have ticks left; rank and ticks left of each.
#[derive(Clone, Copy)]
pub struct Threads {
    pub kept: bool,
    pub homes: u64,
    pub ticking: u64,
    pub ranks: [u32; CAPACITY],
    pub ticks: [u32; CAPACITY],
}

// The set of those that stand in a channel, and the stream of each.
#[derive(Clone, Copy)]
pub struct Messages {
    pub kept: bool,
    pub queued: u64,
    pub streams: [u32; CAPACITY],
}

// Which semaphores a thread may wait for. A pass goes on past a record that breaks its rules.
pub fn of_semaphores(semaphores: &[Semaphore; sizes::SEMAPHORES]) -> Semaphores
    ensures { OfSemaphores semaphores.now result }
{
    let mut kept = true;
    let mut waited = 0;
    for (i, r) in semaphores.iter().enumerate() {
        kept &= code_rules_records::semaphore_kept(*r);
        waited = sets::joined(waited, i, code_rules_records::may_have_waiters(*r));
    }
    Semaphores { kept, waited }
}

// Which events a thread may wait for: those that aren't TRUE.
pub fn of_events(events: &[Event; sizes::EVENTS], bits: u32) -> u64
    ensures { OfEvents events.now bits result }
{
    let mut untrue = 0;
    for (i, e) in events.iter().enumerate() {
        untrue = sets::joined(untrue, i, !code_kernel::truth::is_true(bits, *e));
    }
    untrue
}

// Who belongs in the table of places and in the time queue. `waited` and `untrue` are what the objects told, and `flags` has the live ones.
pub fn of_threads(
    threads: &[Thread; sizes::THREADS],
    waited: u64,
    untrue: u64,
    flags: u16,
) -> Threads
    ensures { OfThreads threads.now waited untrue flags result }
{
    let mut kept = true;
    let mut homes = 0;
    let mut ticking = 0;
    let mut ranks = [0; CAPACITY];
    let mut ticks = [0; CAPACITY];
    for (i, r) in threads.iter().enumerate() {
        kept &= code_rules_records::thread_kept(waited, untrue, flags, *r);
        homes = sets::joined(homes, i, places::has_home(*r));
        ticking = sets::joined(ticking, i, 0 < r.ticks);
        ranks[i] = places::rank_of(*r);
        ticks[i] = r.ticks;
    }
    Threads {
        kept,
        homes,
        ticking,
        ranks,
        ticks,
    }
}

// Which messages belong in the channels.
pub fn of_messages(
    messages: &[Message; sizes::MESSAGES],
    threads: &[Thread; sizes::THREADS],
) -> Messages
    ensures { OfMessages messages.now threads.now result }
{
    let mut kept = true;
    let mut queued = 0;
    let mut streams = [0; CAPACITY];
    for (i, r) in messages.iter().enumerate() {
        let owner = threads[(r.owner % sizes::THREAD_IDS) as usize];
        kept &= code_rules_records::message_kept(owner, *r);
        queued = sets::joined(queued, i, places::is_queued(*r));
        streams[i] = places::stream_of(*r);
    }
    Messages {
        kept,
        queued,
        streams,
    }
}
