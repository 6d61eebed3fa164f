// The records that aren't live, and the fresh state.
ghost use Rattle.std.specs.Prelude.{◌≡◌, get_or};
ghost use Rattle.spec_kernel.specs.Records.{no_thread, no_semaphore, no_message, flag_in, fresh};

use spec_kernel::records::{Condition, Event, Kernel, Message, Semaphore, Thread, Wake};
use spec_kernel::sizes;

// The records that aren't live: all fields are 0.
pub fn no_thread() -> Thread
    ensures { result ≡ no_thread }
{
    Thread {
        live: false,
        priority: 0,
        first: 0,
        condition: Condition::Ready,
        ticks: 0,
        wake: Wake::None,
        reply: 0,
    }
}

pub fn no_semaphore() -> Semaphore
    ensures { result ≡ no_semaphore }
{
    Semaphore {
        live: false,
        count: 0,
        maximum: 0,
        ticks: 0,
        period: 0,
    }
}

pub fn no_message() -> Message
    ensures { result ≡ no_message }
{
    Message {
        live: false,
        owner: 0,
        sender: 0,
        channel: 0,
        kind: 0,
        size: 0,
        address: 0,
    }
}

// The record at i of a table, or past its last one `none`.
pub fn record_at<T: Copy>(records: &[T], i: usize, none: T) -> T
    ensures { result ≡ get_or records.now i none }
{
    if i < records.len() { records[i] } else { none }
}

// Whether a flag is live: that is all of its record. No id too large is.
pub fn is_flag(flags: u16, i: u8) -> bool
    ensures { result ≡ flag_in flags i }
{
    i < sizes::FLAG_IDS && base_bits::bit(flags as u32, i)
}

// The fresh state: nothing is live, nobody runs, and the events, in mode any, have no bit masked.
pub fn fresh() -> Kernel
    ensures { result ≡ fresh }
{
    let event = Event {
        any: true,
        mask: 0,
        values: 0,
    };
    let none = base_queue::empty();
    Kernel {
        threads: [no_thread(); sizes::THREADS],
        semaphores: [no_semaphore(); sizes::SEMAPHORES],
        events: [event; sizes::EVENTS],
        messages: [no_message(); sizes::MESSAGES],
        places: none,
        time: none,
        posted: none,
        bits: 0,
        uptime: 0,
        unscheduled: 0,
        critical: 0,
        runner: 255,
        flags: 0,
    }
}
