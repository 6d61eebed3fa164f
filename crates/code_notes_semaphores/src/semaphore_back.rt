// The semaphores before a call, of those after it and the note's section.
ghost use Rattle.std.specs.Prelude.{◌≡◌, map, get_or, drop};
ghost use Rattle.base_rows.specs.Entries.{row_in};
ghost use Rattle.spec_notes.specs.Rows.{semaphore_from, semaphore_widths};
ghost use Rattle.spec_notes.specs.Touched.{younger_semaphore};
ghost use Rattle.spec_notes.specs.Predicted.{predicted_semaphore};
ghost use Rattle.spec_notes.specs.Back.{semaphores_before};

use crate::semaphore_rows;
use crate::semaphore_rows::WIDTHS;
use base_rows::entries::{id_in, row_in, size_in};
use spec_calls::call::Call;
use spec_kernel::records::Semaphore;
use spec_kernel::sizes::SEMAPHORES;

// A record before, of the record after and the entry that these bytes begin with.
fn record_in(c: Call, r: Semaphore, e: &[u8]) -> Semaphore
    ensures { result ≡ semaphore_from
        (row_in semaphore_widths (predicted_semaphore c r) (get_or e.now 0 0) (drop 1 e.now)) }
{
    let predicted = semaphore_rows::predicted(c, r);
    let row = row_in(e, WIDTHS, predicted.fields);
    semaphore_rows::from_row(row.fields)
}

// Every semaphore as it was where the call did no more than age it. A loop and not `map`, as for threads.
fn younger_all(c: Call, new: [Semaphore; SEMAPHORES]) -> [Semaphore; SEMAPHORES]
    ensures { result ≡ map (younger_semaphore c) new }
{
    let mut old = new;
    for i in 0..SEMAPHORES {
        old[i] = semaphore_rows::younger(c, new[i]);
    }
    old
}

// Entry by entry.
pub fn semaphores_before(c: Call, new: [Semaphore; SEMAPHORES], s: &[u8]) -> [Semaphore; SEMAPHORES]
    ensures { result ≡ semaphores_before c new s.now }
{
    let mut a = younger_all(c, new);
    let mut p: usize = 0;
    // No `for`: how long an entry is, and so where the next one begins, is known once it is read.
    while p < s.len() {
        let e = &s[p..];
        p += size_in(e, WIDTHS);
        let i = id_in(e) as usize;
        if i < SEMAPHORES {
            a[i] = record_in(c, new[i], e);
        }
    }
    a
}
