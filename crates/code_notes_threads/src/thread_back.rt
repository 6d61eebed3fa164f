// The threads' section, read back: the records before, and who stood at each place of the two tables.
ghost use Rattle.std.specs.Prelude.{◌≡◌, map, get_or, drop};
ghost use Rattle.spec_notes.specs.Touched.{younger_thread};
ghost use Rattle.base_rows.specs.Entries.{size_in};
ghost use Rattle.spec_notes.specs.Rows.{thread_widths};
ghost use Rattle.spec_notes.specs.Back.{code_read, thread_read, threads_before};
ghost use Rattle.code_notes_threads.specs.ReadThreads.{meant_threads, with_marks};

use base_queue::CAPACITY;
use base_rows::entries::{code_in, id_in, row_in, size_in};
use code_kernel_find::by_id;
use code_notes_entries::old_places::store;
use code_notes_thread_rows::thread_rows;
use spec_calls::call::Call;
use spec_kernel::records::Thread;
use spec_kernel::sizes;

// The records so far, who was touched, and who stood at each place of `places` and of the time queue: 255 is nobody.
#[derive(Clone, Copy)]
pub struct Threading {
    pub threads: [Thread; sizes::THREADS],
    pub out: [u8; CAPACITY],
    pub at: [u8; CAPACITY],
    pub due: [u8; CAPACITY],
}

// Every record as it was, where the call did not touch it. A loop, since `map` takes several times as long, and each undo goes through
// here.
fn all_younger(c: Call, new: [Thread; sizes::THREADS]) -> [Thread; sizes::THREADS]
    ensures { result ≡ map (younger_thread c) new }
{
    let mut old = new;
    for t in 0..sizes::THREADS {
        old[t] = thread_rows::younger(c, new[t]);
    }
    old
}

// Thread t has the record r and is touched; it stood at `place` of `places` and at `due` of the time queue.
fn put_record(a: Threading, t: u8, r: Thread, place: u32, due: u32) -> Threading
    ensures { meant_threads result ≡ with_marks t r place due (meant_threads a) }
{
    let mut next = a;
    store(&mut next.threads, t as usize, r);
    store(&mut next.out, t as usize, 1);
    store(&mut next.at, place as usize, t);
    store(&mut next.due, due as usize, t);
    next
}

// The code before of the entry that these bytes begin with.
fn code_back(c: Call, new: [Thread; sizes::THREADS], e: &[u8]) -> u8
    ensures { result ≡ code_read c new (get_or e.now 0 0) (drop 1 e.now) }
{
    let after = by_id::thread_at(new, id_in(e) as u16);
    code_in(e, thread_rows::predicted_code(c, after))
}

// That entry put back.
fn entry_back(c: Call, new: [Thread; sizes::THREADS], e: &[u8], a: Threading) -> Threading
    ensures { meant_threads result ≡ thread_read c new (get_or e.now 0 0) (drop 1 e.now) (meant_threads a) }
{
    let t = id_in(e);
    let code = code_back(c, new, e);
    let after = by_id::thread_at(new, t as u16);
    let guess = thread_rows::predicted(c, after, code);
    let row = row_in(e, thread_rows::widths_of(code), guess.fields);
    let r = thread_rows::from_row(code, row.fields);
    put_record(a, t, r, row.fields[6], row.fields[7])
}

// How many bytes it has; no more than there are.
fn entry_size(c: Call, new: [Thread; sizes::THREADS], e: &[u8]) -> usize
    ensures { result ≡ size_in (thread_widths (code_read c new (get_or e.now 0 0) (drop 1 e.now))) e.now }
{
    size_in(e, thread_rows::widths_of(code_back(c, new, e)))
}

// The threads before, of those after, the call and the section.
pub fn threads_before(c: Call, new: [Thread; sizes::THREADS], s: &[u8]) -> Threading
    ensures { meant_threads result ≡ threads_before c new s.now }
{
    let young = all_younger(c, new);
    let mut a = Threading {
        threads: young,
        out: [0u8; CAPACITY],
        at: [255u8; CAPACITY],
        due: [255u8; CAPACITY],
    };
    let mut p: usize = 0;
    // No `for`: how long an entry is, and so where the next one begins, is known once it is read.
    while p < s.len() {
        let e = &s[p..];
        a = entry_back(c, new, e, a);
        p += entry_size(c, new, e);
    }
    a
}
