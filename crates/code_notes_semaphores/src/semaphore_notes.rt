// The entries of semaphores.
ghost use Rattle.std.specs.Prelude.{◌≡◌, cond, []};
ghost use Rattle.base_bytes.specs.Pens.{pen, puts};
ghost use Rattle.spec_notes.specs.Touched.{changed_semaphore};
ghost use Rattle.spec_notes.specs.Sections.{semaphore_noted, semaphore_entries};

use crate::semaphore_rows;
use crate::semaphore_rows::WIDTHS;
use base_rows::entries::put_entry;
use spec_calls::call::Call;
use spec_kernel::records::Semaphore;
use spec_kernel::sizes;

// A semaphore before: its id, and what isn't as predicted of its record.
fn put_semaphore(log: &mut [u8], at: usize, i: u8, c: Call, old: Semaphore, new: Semaphore) -> usize
    ensures { pen log.new result ≡ puts (pen log.old at) (semaphore_noted i c old new) }
{
    let before = semaphore_rows::row_of(old);
    let told = semaphore_rows::predicted(c, new);
    put_entry(log, at, i, 0, 0, WIDTHS, before.fields, told.fields)
}

// The same, where more than ageing changed it.
#[tactic(auto, unfolding(base_bytes::specs::Pens::puts))]
fn put_changed_semaphore(
    log: &mut [u8],
    at: usize,
    i: u8,
    c: Call,
    old: Semaphore,
    new: Semaphore,
) -> usize
    ensures { pen log.new result
        ≡ puts (pen log.old at) (cond (changed_semaphore c old new) (semaphore_noted i c old new) []) }
{
    if semaphore_rows::same(old, semaphore_rows::younger(c, new)) {
        at
    } else {
        put_semaphore(log, at, i, c, old, new)
    }
}

// The changed ones of `count` semaphores from `first` on. Ids past the last have no record that changes.
pub fn put_semaphores(
    log: &mut [u8],
    at: usize,
    c: Call,
    old: [Semaphore; sizes::SEMAPHORES],
    new: [Semaphore; sizes::SEMAPHORES],
    first: u8,
    count: u8,
) -> usize
    ensures { pen log.new result ≡ puts (pen log.old at) (semaphore_entries c old new first count) }
{
    let end = (first as usize + count as usize).min(sizes::SEMAPHORES);
    let mut p = at;
    for i in first as usize..end {
        p = put_changed_semaphore(log, p, i as u8, c, old[i], new[i]);
    }
    p
}
