// The record of an id; an id too large has one that isn't live.
ghost use Rattle.std.specs.Prelude.{◌≡◌, get_or};
ghost use Rattle.spec_kernel.specs.Records.{no_thread, no_semaphore, no_event, no_message};

use code_kernel::records::{no_message, no_semaphore, no_thread, record_at};
use spec_kernel::records::{Event, Message, Semaphore, Thread};
use spec_kernel::sizes;

// The event of an id too large.
const NO_EVENT: Event = Event {
    any: false,
    mask: 0,
    values: 0,
};

pub fn thread_at(threads: [Thread; sizes::THREADS], t: u16) -> Thread
    ensures { result ≡ get_or threads t no_thread }
{
    record_at(&threads, t as usize, no_thread())
}

pub fn semaphore_at(semaphores: [Semaphore; sizes::SEMAPHORES], i: u8) -> Semaphore
    ensures { result ≡ get_or semaphores i no_semaphore }
{
    record_at(&semaphores, i as usize, no_semaphore())
}

pub fn event_at(events: [Event; sizes::EVENTS], i: u8) -> Event
    ensures { result ≡ get_or events i no_event }
{
    record_at(&events, i as usize, NO_EVENT)
}

pub fn message_at(messages: [Message; sizes::MESSAGES], m: u8) -> Message
    ensures { result ≡ get_or messages m no_message }
{
    record_at(&messages, m as usize, no_message())
}
