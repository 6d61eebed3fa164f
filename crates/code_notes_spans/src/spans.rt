// Which ids a call can touch, of each table.
ghost use Rattle.std.specs.Prelude.{◌≡◌};
ghost use Rattle.code_notes_spans.specs.Spans.{alone, span_of, thread_span, semaphore_span, event_span, message_span};
ghost use Rattle.code_notes_spans.specs.Meant.{meant};

use code_calls::kinds::kind_of;
use spec_calls::call::Call;
use spec_calls::kinds::Which;
use spec_kernel::sizes;

// So many ids from a first one on.
#[derive(Clone, Copy)]
pub struct Span {
    pub first: u16,
    pub count: u8,
}

const NOBODY: Span = Span { first: 0, count: 0 };

// One id; nobody where the table has no such id.
fn alone(size: u8, x: u16) -> Span
    ensures { meant result ≡ alone size x }
{
    if x < u16::from(size) {
        Span { first: x, count: 1 }
    } else {
        NOBODY
    }
}

// The ids of a class, by its column of the row of the call's kind.
#[tactic(auto, unfolding(crate::specs::Spans::span_of))]
fn span_of(size: u8, which: Which, c: Call, runner: u8, value: u8, waiter: u8) -> Span
    ensures { meant result ≡ span_of size which c runner value waiter }
{
    match which {
        Which::Any => Span {
            first: 0,
            count: size,
        },
        Which::A => alone(size, u16::from(c.a)),
        Which::B => alone(size, c.b),
        Which::Runner => alone(size, u16::from(runner)),
        Which::Waiter => alone(size, u16::from(waiter)),
        Which::New | Which::Taken => alone(size, u16::from(value)),
        Which::Nobody | Which::Bit => NOBODY,
    }
}

// A new thread has the id that the call answers; `waiter` is the first that waits for semaphore a.
#[tactic(auto, unfolding(crate::specs::Spans::thread_span))]
pub fn thread_span(c: Call, runner: u8, value: u8, waiter: u8) -> Span
    ensures { meant result ≡ thread_span c runner value waiter }
{
    span_of(
        sizes::THREAD_IDS,
        kind_of(c).thread,
        c,
        runner,
        value,
        waiter,
    )
}

#[tactic(auto, unfolding(crate::specs::Spans::semaphore_span))]
pub fn semaphore_span(c: Call, value: u8) -> Span
    ensures { meant result ≡ semaphore_span c value }
{
    span_of(
        sizes::SEMAPHORE_IDS,
        kind_of(c).semaphore,
        c,
        255,
        value,
        255,
    )
}

#[tactic(auto, unfolding(crate::specs::Spans::event_span))]
pub fn event_span(c: Call) -> Span
    ensures { meant result ≡ event_span c }
{
    span_of(sizes::EVENT_IDS, kind_of(c).event, c, 255, 255, 255)
}

// A new message and one that is handed over have the id that the call answers.
#[tactic(auto, unfolding(crate::specs::Spans::message_span))]
pub fn message_span(c: Call, value: u8) -> Span
    ensures { meant result ≡ message_span c value }
{
    span_of(sizes::MESSAGE_IDS, kind_of(c).message, c, 255, value, 255)
}
