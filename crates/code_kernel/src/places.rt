// Where a record has its place, as numbers that order the tables.
ghost use Rattle.std.specs.Prelude.{◌≡◌};
ghost use Rattle.spec_kernel.specs.Places.{home_of, has_home, rank_of, is_queued, stream_of};

use spec_kernel::records::{Condition, Message, Thread};

// A home is a class and an id in it. The ready lists come first, by priority; then the semaphores' queues, then the
// events', then the flags'.
const CLASS: u16 = 256;

pub const OF_SEMAPHORES: u16 = CLASS;

pub const OF_EVENTS: u16 = 2 * CLASS;

pub const OF_FLAGS: u16 = 3 * CLASS;

// The home of a thread that stands in no list and no queue.
pub const NOWHERE: u16 = 4 * CLASS;

// The list or queue in which a thread of this record has its place.
pub fn home_of(r: Thread) -> u16
    ensures { result ≡ home_of r }
{
    if !r.live {
        return NOWHERE;
    }
    match r.condition {
        Condition::Ready => r.priority as u16,
        Condition::ForSemaphore(i) => OF_SEMAPHORES + (i as u16),
        Condition::ForEvent(i) => OF_EVENTS + (i as u16),
        Condition::ForFlag(i) => OF_FLAGS + (i as u16),
        Condition::Asleep | Condition::ForMessage(_) => NOWHERE,
    }
}

// Whether it has one.
pub fn has_home(r: Thread) -> bool
    ensures { result ≡ has_home r }
{
    home_of(r) != NOWHERE
}

// Its order in the table of places: by home, then by priority.
pub fn rank_of(r: Thread) -> u32
    ensures { result ≡ rank_of r }
{
    (home_of(r) as u32) * 256 + (r.priority as u32)
}

// Whether a message stands in a channel of its owner.
pub fn is_queued(r: Message) -> bool
    ensures { result ≡ is_queued r }
{
    r.live && 0 < r.channel
}

// Its order in the table of posted messages: by owner, then by channel.
pub fn stream_of(r: Message) -> u32
    ensures { result ≡ stream_of r }
{
    (r.owner as u32) * 256 + (r.channel as u32)
}
