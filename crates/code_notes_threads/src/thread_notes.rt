// The threads' section: who is touched by a call, and the entry of each.
ghost use Rattle.std.specs.Prelude.{◌≡◌, get_or};
ghost use Rattle.base_bytes.specs.Pens.{pen, puts};
ghost use Rattle.spec_kernel.specs.Records.{no_thread};
ghost use Rattle.spec_notes.specs.Touched.{moves_in_place, changed_thread};
ghost use Rattle.spec_notes.specs.Sections.{thread_noted, thread_entries};
ghost use Rattle.code_notes_threads.specs.ThreadEntries.{entry_in};

use base_queue::Queue;
use base_rows::entries::put_entry;
use code_kernel::records::no_thread;
use code_notes_entries::old_places::old_place;
use code_notes_thread_rows::thread_rows;
use spec_calls::call::Call;
use spec_kernel::records::Thread;
use spec_kernel::sizes::THREADS;
use spec_moves::parts::Threads;

// A yield, and a priority that is set or reset, move a thread though its record may stay.
fn moves_in_place(runner: u8, c: Call, t: u8) -> bool
    ensures { result ≡ moves_in_place runner c t }
{
    match c.kind {
        6 => t == runner,
        4 | 5 => t == c.a,
        _ => false,
    }
}

// Whether the call did more to thread t than ageing explains; `runner` is who ran before it.
fn is_touched(t: u8, runner: u8, c: Call, old: Thread, new: Thread) -> bool
    ensures { result ≡ changed_thread t runner c old new }
{
    !thread_rows::same(old, thread_rows::younger(c, new)) || moves_in_place(runner, c, t)
}

// The entry of thread t: its id, and what isn't as predicted of its code, its record and its two old places.
fn put_thread(
    log: &mut [u8],
    at: usize,
    t: u8,
    c: Call,
    old: Thread,
    place: u8,
    due: u8,
    new: Thread,
) -> usize
    ensures { pen log.new result ≡ puts (pen log.old at) (thread_noted t c old place due new) }
{
    let code = thread_rows::code_of(old);
    let row = thread_rows::row_of(old, place, due);
    let guess = thread_rows::predicted(c, new, code);
    let told = thread_rows::predicted_code(c, new);
    put_entry(
        log,
        at,
        t,
        code,
        told,
        thread_rows::widths_of(code),
        row.fields,
        guess.fields,
    )
}

// The entry of an id with its two records, where the call touched it. An id above 255 is nobody's.
#[tactic(auto, unfolding(base_bytes::specs::Pens::puts, crate::specs::ThreadEntries::entry_in))]
fn put_touched(
    log: &mut [u8],
    at: usize,
    c: Call,
    runner: u8,
    places: &Queue,
    time: &Queue,
    before: Thread,
    after: Thread,
    t: u32,
) -> usize
    ensures { pen log.new result ≡ puts (pen log.old at) (entry_in c runner places.now time.now before after t) }
{
    let Ok(id) = u8::try_from(t) else {
        return at;
    };
    if !is_touched(id, runner, c, before, after) {
        return at;
    }
    let place = old_place(*places, id);
    let due = old_place(*time, id);
    put_thread(log, at, id, c, before, place, due, after)
}

// The record of an id; past the last it is no thread's.
fn record_at(records: &[Thread], t: u32) -> Thread
    ensures { result ≡ get_or records.now t no_thread }
{
    match records.get(t as usize) {
        Some(r) => *r,
        None => no_thread(),
    }
}

// The entries of so many ids from the first on. The records are read in place: a call that takes the array copies it for every id.
pub fn put_threads(
    log: &mut [u8],
    at: usize,
    c: Call,
    runner: u8,
    old: Threads,
    new: [Thread; THREADS],
    first: u16,
    count: u8,
) -> usize
    ensures { pen log.new result ≡ puts (pen log.old at) (thread_entries c runner old new first count) }
{
    let start = first as u32;
    let mut p = at;
    for t in start..start + count as u32 {
        let before = record_at(&old.records, t);
        let after = record_at(&new, t);
        p = put_touched(log, p, c, runner, &old.places, &old.time, before, after, t);
    }
    p
}
