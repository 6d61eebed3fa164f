// The entries of events, and the byte of a changed event bit.
ghost use Rattle.std.specs.Prelude.{◌≡◌, cond, []};
ghost use Rattle.base_bytes.specs.Pens.{pen, puts};
ghost use Rattle.spec_notes.specs.Touched.{changed_event};
ghost use Rattle.spec_notes.specs.Sections.{event_noted, event_entries, bit_noted};

use crate::event_rows;
use crate::event_rows::WIDTHS;
use base_bytes::pens::put_byte;
use base_rows::entries::put_entry;
use spec_kernel::records::Event;
use spec_kernel::sizes;

// An event before: its id, and what isn't as after the call.
fn put_event(log: &mut [u8], at: usize, i: u8, old: Event, new: Event) -> usize
    ensures { pen log.new result ≡ puts (pen log.old at) (event_noted i old new) }
{
    let before = event_rows::row_of(old);
    let told = event_rows::row_of(new);
    put_entry(log, at, i, 0, 0, WIDTHS, before.fields, told.fields)
}

// The same, where it changed.
#[tactic(auto, unfolding(base_bytes::specs::Pens::puts))]
fn put_changed_event(log: &mut [u8], at: usize, i: u8, old: Event, new: Event) -> usize
    ensures { pen log.new result
        ≡ puts (pen log.old at) (cond (changed_event old new) (event_noted i old new) []) }
{
    if event_rows::same(old, new) {
        at
    } else {
        put_event(log, at, i, old, new)
    }
}

// The changed ones of `count` events from `first` on. Ids past the last have no record that changes.
pub fn put_events(
    log: &mut [u8],
    at: usize,
    old: [Event; sizes::EVENTS],
    new: [Event; sizes::EVENTS],
    first: u8,
    count: u8,
) -> usize
    ensures { pen log.new result ≡ puts (pen log.old at) (event_entries old new first count) }
{
    let end = (first as usize + count as usize).min(sizes::EVENTS);
    let mut p = at;
    for i in first as usize..end {
        p = put_changed_event(log, p, i as u8, old[i], new[i]);
    }
    p
}

// A byte 8 where a bit changed.
#[tactic(auto, unfolding(base_bytes::specs::Pens::puts))]
pub fn put_bits(log: &mut [u8], at: usize, old: u32, new: u32) -> usize
    ensures { pen log.new result ≡ puts (pen log.old at) (bit_noted old new) }
{
    if old == new { at } else { put_byte(log, at, 8) }
}
