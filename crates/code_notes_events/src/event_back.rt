// The events and their bits before a call, of those after it and the note's section.
ghost use Rattle.std.specs.Prelude.{◌≡◌, cond, get_or, drop};
ghost use Rattle.base_rows.specs.Entries.{row_in};
ghost use Rattle.spec_notes.specs.Rows.{event_from, event_widths};
ghost use Rattle.spec_notes.specs.Predicted.{predicted_event};
ghost use Rattle.spec_notes.specs.Back.{bit_changed, bits_before, events_before};

use crate::event_rows;
use crate::event_rows::WIDTHS;
use base_bytes::bytes::byte_at;
use base_rows::entries::{id_in, row_in, size_in};
use spec_calls::call::Call;
use spec_kernel::records::Event;
use spec_kernel::sizes::EVENTS;

// A record before, of the record after and the entry that these bytes begin with.
fn record_in(r: Event, e: &[u8]) -> Event
    ensures { result ≡ event_from
        (row_in event_widths (predicted_event r) (get_or e.now 0 0) (drop 1 e.now)) }
{
    let predicted = event_rows::row_of(r);
    let row = row_in(e, WIDTHS, predicted.fields);
    event_rows::from_row(row.fields)
}

// Where the entries begin: behind the byte that says that a bit changed.
fn first_entry(s: &[u8]) -> usize
    ensures { result ≡ cond (bit_changed s.now) 1 0 }
{
    if byte_at(s, 0) == 8 { 1 } else { 0 }
}

// Entry by entry.
pub fn events_before(new: [Event; EVENTS], s: &[u8]) -> [Event; EVENTS]
    ensures { result ≡ events_before new s.now }
{
    let mut a = new;
    let mut p = first_entry(s);
    // No `for`: how long an entry is, and so where the next one begins, is known once it is read.
    while p < s.len() {
        let e = &s[p..];
        p += size_in(e, WIDTHS);
        let i = id_in(e) as usize;
        if i < EVENTS {
            a[i] = record_in(new[i], e);
        }
    }
    a
}

// Bit a the other way, where the section says so.
#[tactic(auto, unfolding(spec_notes::specs::Back::bits_before))]
pub fn bits_before(c: Call, word: u32, s: &[u8]) -> u32
    ensures { result ≡ bits_before c word s.now }
{
    if byte_at(s, 0) != 8 {
        word
    } else if base_bits::bit(word, c.a) {
        base_bits::without_bit(word, c.a)
    } else {
        base_bits::with_bit(word, c.a)
    }
}
