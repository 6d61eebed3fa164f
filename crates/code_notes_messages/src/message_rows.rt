// A message as a row: live, owner, sender, type, size, address, channel, place.
ghost use Rattle.std.specs.Prelude.{◌≡◌, cond};
ghost use Rattle.base_rows.specs.Rows.{fitted};
ghost use Rattle.spec_refusals.specs.Refusals.{is};
ghost use Rattle.spec_notes.specs.Rows.{message_row, message_widths, message_from};
ghost use Rattle.spec_notes.specs.Predicted.{predicted_message};
ghost use Rattle.spec_notes.specs.Touched.{same_message};

use base_rows::rows::Row;
use code_notes_entries::choices::word;
use code_notes_entries::fields::same_rows;
use spec_calls::call::Call;
use spec_kernel::records::Message;

// The widths of these fields, in bytes.
pub const WIDTHS: [u8; 8] = [1, 1, 1, 2, 4, 4, 1, 1];

// The longest entry: head, flags and every field.
pub const LONGEST: usize = 17;

pub fn row_of(r: Message, place: u8) -> Row
    ensures { result.fields ≡ message_row r place }
{
    Row {
        fields: [
            u32::from(r.live),
            r.owner as u32,
            r.sender as u32,
            r.kind as u32,
            r.size,
            r.address,
            r.channel as u32,
            place as u32,
        ],
    }
}

// A field that doesn't fit is cut to its width.
pub fn from_row(row: [u32; 8]) -> Message
    ensures { result ≡ message_from (fitted message_widths row) }
{
    Message {
        live: row[0] % 256 != 0,
        owner: (row[1] % 256) as u8,
        sender: (row[2] % 256) as u8,
        kind: (row[3] % 65536) as u16,
        size: word(row[4]),
        address: word(row[5]),
        channel: (row[6] % 256) as u8,
    }
}

// One that went was the thread's that went, or its destroyer's; one that was posted was its poster's.
fn owner_before(c: Call, runner: u8, r: Message) -> u8
    ensures { result ≡ cond (is c 3) c.a (cond (is c 25) runner (cond (is c 26) r.sender r.owner)) }
{
    match c.kind {
        3 => c.a,
        25 => runner,
        26 => r.sender,
        _ => r.owner,
    }
}

fn sender_before(c: Call, runner: u8, r: Message) -> u8
    ensures { result ≡ cond (is c 3) c.a (cond (is c 25) runner r.sender) }
{
    match c.kind {
        3 => c.a,
        25 => runner,
        _ => r.sender,
    }
}

// What the call, who runs after it, and the record after it tell of the record before.
#[tactic(auto, unfolding(spec_notes::specs::Predicted::predicted_message))]
pub fn predicted(c: Call, runner: u8, r: Message) -> Row
    ensures { result.fields ≡ predicted_message c runner r }
{
    if c.kind == 24 {
        return Row {
            fields: [0, 0, 0, 0, 0, 0, 0, 255],
        };
    }
    Row {
        fields: [
            1,
            owner_before(c, runner, r) as u32,
            sender_before(c, runner, r) as u32,
            r.kind as u32,
            r.size,
            r.address,
            0,
            if c.kind == 27 { 0 } else { 255 },
        ],
    }
}

#[tactic(auto, unfolding(spec_notes::specs::Touched::same_message))]
pub fn same(r: Message, s: Message) -> bool
    ensures { result ≡ same_message r s }
{
    same_rows(row_of(r, 0), row_of(s, 0))
}
