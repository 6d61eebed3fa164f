// Whether two states are the same.
#![tactic(auto)]

ghost use Rattle.std.specs.Prelude.{◌≡◌, true, ◌↔◌, Bool};
ghost use Rattle.spec_rules.specs.Tests.{all_of, if_asked};
ghost use Rattle.spec_notes.specs.Touched.{same_thread, same_semaphore, same_event, same_message};
ghost use Rattle.spec_notes.specs.Same.{same_all, same_queue, same_numbers, same_kernel, same_asked};
ghost use Rattle.code_notes_same.specs.OfRecords.{of_records, of_others};

use base_queue::Queue;
use code_notes_events::event_rows;
use code_notes_messages::message_rows;
use code_notes_semaphores::semaphore_rows;
use code_notes_thread_rows::thread_rows;
use spec_kernel::records::{Event, Kernel, Message, Semaphore, Thread};
use spec_rules::tests::Asked;

// A record, of which a state has a table.
trait Record: Copy {
    ghost test: { Self → Self → Bool };

    fn same(&self, other: &Self) -> bool
        ensures { result ≡ test self.now other.now };
}

impl Record for Thread {
    ghost test = { same_thread };

    fn same(&self, other: &Self) -> bool {
        thread_rows::same(*self, *other)
    }
}

impl Record for Semaphore {
    ghost test = { same_semaphore };

    fn same(&self, other: &Self) -> bool {
        semaphore_rows::same(*self, *other)
    }
}

impl Record for Event {
    ghost test = { same_event };

    fn same(&self, other: &Self) -> bool {
        event_rows::same(*self, *other)
    }
}

impl Record for Message {
    ghost test = { same_message };

    fn same(&self, other: &Self) -> bool {
        message_rows::same(*self, *other)
    }
}

fn same_table<T: Record>(a: &[T], b: &[T]) -> bool
    ensures { result ≡ same_all T.test a.now b.now }
{
    a.len() == b.len() && a.iter().zip(b).all(|(x, y)| x.same(y))
}

fn same_queue(a: &Queue, b: &Queue) -> bool
    ensures { result ≡ same_queue a.now b.now }
{
    a.n == b.n && a.at == b.at
}

// Bits, uptime, levels, runner and flags.
fn same_numbers(a: &Kernel, b: &Kernel) -> bool
    ensures { result ≡ same_numbers a.now b.now }
{
    a.bits == b.bits
        && a.uptime == b.uptime
        && a.unscheduled == b.unscheduled
        && a.critical == b.critical
        && a.runner == b.runner
        && a.flags == b.flags
}

// The four kinds of records, where they are asked for.
fn same_records(a: &Kernel, b: &Kernel, asked: Asked) -> bool
    ensures { result ≡ all_of (of_records asked a.now b.now) }
{
    (!asked.threads || same_table(&a.threads, &b.threads))
        && (!asked.semaphores || same_table(&a.semaphores, &b.semaphores))
        && (!asked.events || same_table(&a.events, &b.events))
        && (!asked.messages || same_table(&a.messages, &b.messages))
}

// The places of those tables, and the numbers.
fn same_others(a: &Kernel, b: &Kernel, asked: Asked) -> bool
    ensures { result ≡ all_of (of_others asked a.now b.now) }
{
    (!asked.threads || same_queue(&a.places, &b.places))
        && (!asked.threads || same_queue(&a.time, &b.time))
        && (!asked.messages || same_queue(&a.posted, &b.posted))
        && same_numbers(a, b)
}

// Whether two states are the same, but for the tables that aren't asked for, and their places.
pub fn same_asked(a: Kernel, b: Kernel, asked: Asked) -> bool
    ensures { result ≡ same_asked asked a b }
{
    same_records(&a, &b, asked) && same_others(&a, &b, asked)
}

// Whether two states are one, whatever they hold.
pub fn same_kernel(a: Kernel, b: Kernel) -> bool
    ensures { (result ≡ same_kernel a b) × ((result ≡ true) ↔ (a ≡ b)) }
{
    let all = Asked {
        threads: true,
        semaphores: true,
        events: true,
        messages: true,
        flags: true,
    };
    same_asked(a, b, all)
}
