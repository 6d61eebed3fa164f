// The parts of a note: the call record, six sections each behind its length, and the whole length. The call itself puts them together.
ghost use Rattle.std.specs.Prelude.{◌≡◌, ◌++◌, ◌+◌, min};
ghost use Rattle.base_bytes.specs.Bytes.{le};
ghost use Rattle.base_bytes.specs.Pens.{pen, puts};
ghost use Rattle.spec_moves.specs.Standing.{threads_of, posts_of};
ghost use Rattle.spec_notes.specs.Predicted.{predicted_flags};
ghost use Rattle.spec_notes.specs.Sections.{scheduler_section, thread_entries, semaphore_entries, bit_noted, event_entries};
ghost use Rattle.spec_notes.specs.Sections.{flags_noted, message_entries};
ghost use Rattle.spec_notes.specs.Notes.{section, longest_note};
ghost use Rattle.code_notes_spans.specs.Spans.{in_span, thread_span, semaphore_span, event_span, message_span};

use base_bytes::pens;
use code_notes_events::{event_notes, event_rows};
use code_notes_flags::flag_notes;
use code_notes_frame::frames::LEAST;
use code_notes_messages::{message_notes, message_rows};
use code_notes_scheduler::scheduler_notes::Levels;
use code_notes_scheduler::{scheduler_notes, scheduler_rows};
use code_notes_semaphores::{semaphore_notes, semaphore_rows};
use code_notes_spans::spans;
use code_notes_thread_rows::thread_rows;
use code_notes_threads::thread_notes;
use spec_calls::call::Call;
use spec_kernel::records::Kernel;
use spec_kernel::sizes;
use spec_moves::parts::{Posts, Threads};

// The most bytes of each section.
const LEVEL_BYTES: usize = scheduler_rows::LONGEST;

pub const THREAD_BYTES: usize = sizes::THREADS * thread_rows::LONGEST;

pub const SEMAPHORE_BYTES: usize = sizes::SEMAPHORES * semaphore_rows::LONGEST;

// One of them for the bits.
const EVENT_BYTES: usize = 1 + sizes::EVENTS * event_rows::LONGEST;

const FLAG_BYTES: usize = flag_notes::LONGEST;

pub const MESSAGE_BYTES: usize = sizes::MESSAGES * message_rows::LONGEST;

// No note is longer.
pub const MOST: usize = LEAST
    + LEVEL_BYTES
    + THREAD_BYTES
    + SEMAPHORE_BYTES
    + EVENT_BYTES
    + FLAG_BYTES
    + MESSAGE_BYTES;

// Two bytes of length, then the bytes.
pub fn put_section(log: &mut [u8], at: usize, part: &[u8]) -> usize
    ensures { pen log.new result ≡ puts (pen log.old at) (section part.now) }
{
    let p = pens::put_number(log, at, 2, (part.len() % 65536) as u32);
    pens::put_all(log, p, part)
}

// The call record, and the scheduler's section.
pub fn put_start(log: &mut [u8], bytes: [u8; 16], c: Call, k: Kernel, k2: Kernel) -> usize
    ensures { pen log.new result
        ≡ puts (puts (pen log.old 0) bytes) (section (scheduler_section k c k2)) }
{
    let old = Levels {
        unscheduled: k.unscheduled,
        critical: k.critical,
        runner: k.runner,
    };
    let new = Levels {
        unscheduled: k2.unscheduled,
        critical: k2.critical,
        runner: k2.runner,
    };
    let first = pens::put_all(log, 0, &bytes);
    let mut scratch = [0u8; LEVEL_BYTES];
    let n = scheduler_notes::put_scheduler(&mut scratch, 0, c, old, new);
    put_section(log, first, &scratch[..n])
}

// `waiter` is the first that waits for semaphore or flag a. Where a call can touch no id of a table, the table isn't taken out of the
// states: that would copy it.
pub fn put_thread_part(
    log: &mut [u8],
    at: usize,
    c: Call,
    k: Kernel,
    k2: Kernel,
    value: u8,
    waiter: u8,
) -> usize
    ensures { pen log.new result
        ≡ puts (pen log.old at)
        (section (in_span (thread_span c k.runner value waiter) (thread_entries c k.runner (threads_of k) k2.threads))) }
{
    let s = spans::thread_span(c, k.runner, value, waiter);
    if s.count == 0 {
        return pens::put_number(log, at, 2, 0);
    }
    // A variable first: the check doesn't cover a field's array that goes straight into a literal.
    let records = k.threads;
    let old = Threads {
        records,
        places: k.places,
        time: k.time,
    };
    let new = k2.threads;
    let mut scratch = [0u8; THREAD_BYTES];
    let n = thread_notes::put_threads(&mut scratch, 0, c, k.runner, old, new, s.first, s.count);
    put_section(log, at, &scratch[..n])
}

pub fn put_semaphore_part(
    log: &mut [u8],
    at: usize,
    c: Call,
    k: Kernel,
    k2: Kernel,
    value: u8,
) -> usize
    ensures { pen log.new result
        ≡ puts (pen log.old at)
        (section (in_span (semaphore_span c value) (semaphore_entries c k.semaphores k2.semaphores))) }
{
    let s = spans::semaphore_span(c, value);
    if s.count == 0 {
        return pens::put_number(log, at, 2, 0);
    }
    let first = s.first as u8;
    let old = k.semaphores;
    let new = k2.semaphores;
    let mut scratch = [0u8; SEMAPHORE_BYTES];
    let n = semaphore_notes::put_semaphores(&mut scratch, 0, c, old, new, first, s.count);
    put_section(log, at, &scratch[..n])
}

pub fn put_event_part(log: &mut [u8], at: usize, c: Call, k: Kernel, k2: Kernel) -> usize
    ensures { pen log.new result
        ≡ puts (pen log.old at)
        (section (bit_noted k.bits k2.bits ++ in_span (event_span c) (event_entries k.events k2.events))) }
{
    let s = spans::event_span(c);
    let first = s.first as u8;
    let old = k.events;
    let new = k2.events;
    let mut scratch = [0u8; EVENT_BYTES];
    let p = event_notes::put_bits(&mut scratch, 0, k.bits, k2.bits);
    let n = event_notes::put_events(&mut scratch, p, old, new, first, s.count);
    put_section(log, at, &scratch[..n])
}

pub fn put_flag_part(log: &mut [u8], at: usize, c: Call, old: u16, new: u16) -> usize
    ensures { pen log.new result
        ≡ puts (pen log.old at) (section (flags_noted old (predicted_flags c new))) }
{
    let mut scratch = [0u8; FLAG_BYTES];
    let n = flag_notes::put_flags(&mut scratch, 0, c, old, new);
    put_section(log, at, &scratch[..n])
}

pub fn put_message_part(
    log: &mut [u8],
    at: usize,
    c: Call,
    k: Kernel,
    k2: Kernel,
    value: u8,
) -> usize
    ensures { pen log.new result
        ≡ puts (pen log.old at)
        (section (in_span (message_span c value) (message_entries c k2.runner (posts_of k) k2.messages))) }
{
    let s = spans::message_span(c, value);
    if s.count == 0 {
        return pens::put_number(log, at, 2, 0);
    }
    let first = s.first as u8;
    // A variable first, as in `put_thread_part`.
    let records = k.messages;
    let old = Posts {
        records,
        posted: k.posted,
    };
    let new = k2.messages;
    let mut scratch = [0u8; MESSAGE_BYTES];
    let n = message_notes::put_messages(&mut scratch, 0, c, k2.runner, old, new, first, s.count);
    put_section(log, at, &scratch[..n])
}

// The whole length, behind all that is in front of it.
pub fn put_end(log: &mut [u8], at: usize) -> usize
    ensures { pen log.new result ≡ puts (pen log.old at) (le 2 (min at longest_note + 2)) }
{
    pens::put_number(log, at, 2, at.min(MOST) as u32 + 2)
}
