// An event as a row: mode, mask, values. The call tells nothing of an event before it, so its row after is what is predicted.
ghost use Rattle.std.specs.Prelude.{◌≡◌};
ghost use Rattle.base_rows.specs.Rows.{fitted};
ghost use Rattle.spec_notes.specs.Rows.{event_row, event_widths, event_from};
ghost use Rattle.spec_notes.specs.Touched.{same_event};

use base_rows::rows::Row;
use code_notes_entries::choices::word;
use code_notes_entries::fields::same_rows;
use spec_kernel::records::Event;

// The widths of these fields, in bytes.
pub const WIDTHS: [u8; 8] = [1, 4, 4, 0, 0, 0, 0, 0];

// The longest entry: head, flags and every field.
pub const LONGEST: usize = 11;

pub fn row_of(r: Event) -> Row
    ensures { result.fields ≡ event_row r }
{
    Row {
        fields: [u32::from(r.any), r.mask, r.values, 0, 0, 0, 0, 0],
    }
}

// A field that doesn't fit is cut to its width.
pub fn from_row(row: [u32; 8]) -> Event
    ensures { result ≡ event_from (fitted event_widths row) }
{
    Event {
        any: row[0] % 256 != 0,
        mask: word(row[1]),
        values: word(row[2]),
    }
}

#[tactic(auto, unfolding(spec_notes::specs::Touched::same_event))]
pub fn same(r: Event, s: Event) -> bool
    ensures { result ≡ same_event r s }
{
    same_rows(row_of(r), row_of(s))
}
