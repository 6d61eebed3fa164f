// The messages before a call, of those after it and the note's section, with who stood where among those that are posted.
ghost use Rattle.std.specs.Prelude.{◌≡◌, get_or, drop};
ghost use Rattle.base_rows.specs.Rows.{fitted};
ghost use Rattle.base_rows.specs.Entries.{row_in};
ghost use Rattle.spec_notes.specs.Rows.{message_widths};
ghost use Rattle.spec_notes.specs.Predicted.{predicted_message};
ghost use Rattle.spec_notes.specs.Back.{messages_before};
ghost use Rattle.code_notes_messages.specs.Filed.{filing};

use crate::message_rows;
use crate::message_rows::WIDTHS;
use base_queue::CAPACITY;
use base_rows::entries::{id_in, row_in, size_in};
use base_rows::rows::Row;
use code_kernel_find::by_id;
use code_notes_entries::old_places::store;
use spec_calls::call::Call;
use spec_kernel::records::Message;
use spec_kernel::sizes;

// The records, who was touched, and who stood at each place.
#[derive(Clone, Copy)]
pub struct Filing {
    pub messages: [Message; sizes::MESSAGES],
    pub out: [u8; CAPACITY],
    pub at: [u8; CAPACITY],
}

// The row before, of the record after and the entry that these bytes begin with. It fits its widths.
fn row_before(c: Call, runner: u8, r: Message, e: &[u8]) -> Row
    ensures { (result.fields
        ≡ row_in message_widths (predicted_message c runner r) (get_or e.now 0 0) (drop 1 e.now))
        × (fitted message_widths result.fields ≡ result.fields) }
{
    let predicted = message_rows::predicted(c, runner, r);
    row_in(e, WIDTHS, predicted.fields)
}

// Entry by entry; `runner` is who runs after the call.
pub fn messages_before(c: Call, runner: u8, new: [Message; sizes::MESSAGES], s: &[u8]) -> Filing
    ensures { filing result ≡ messages_before c runner new s.now }
{
    let mut messages = new;
    let mut out = [0u8; CAPACITY];
    let mut at = [255u8; CAPACITY];
    let mut p: usize = 0;
    // No `for`: how long an entry is, and so where the next one begins, is known once it is read.
    while p < s.len() {
        let e = &s[p..];
        p += size_in(e, WIDTHS);
        let m = id_in(e);
        let row = row_before(c, runner, by_id::message_at(new, m), e);
        store(
            &mut messages,
            m as usize,
            message_rows::from_row(row.fields),
        );
        store(&mut out, m as usize, 1);
        store(&mut at, row.fields[7] as usize, m);
    }
    Filing { messages, out, at }
}
