// Rows of eight numbers: what of an old row is not as predicted, as flags and bytes, and the old row read back.
ghost use Rattle.std.specs.Prelude.{◌≡◌, min, cond, drop};
ghost use Rattle.base_bytes.specs.Bytes.{un};
ghost use Rattle.base_bytes.specs.Pens.{pen, puts};
ghost use Rattle.base_rows.specs.Rows.{flag_of, field_of, flags_of, body_of, first_flagged, taken, row_from, used_by, cut};

use base_bytes::bytes::number_at;
use base_bytes::pens::put_number;

#[derive(Clone, Copy)]
pub struct Row {
    pub fields: [u32; 8],
}

// A bit for each field that is not as predicted, the first field's lowest.
pub fn flags_of(old: [u32; 8], predicted: [u32; 8]) -> u8
    ensures { result ≡ flags_of old predicted }
{
    let mut flags: u8 = 0;
    for i in (0..8).rev() {
        flags = flag_of(old[i], predicted[i]) + 2 * flags;
    }
    flags
}

// 0 for a field that is as predicted, else 1.
pub fn flag_of(old: u32, predicted: u32) -> u8
    ensures { result ≡ flag_of old predicted }
{
    u8::from(old != predicted)
}

// The old fields that are not as predicted, each in its width.
pub fn put_body(
    log: &mut [u8],
    at: usize,
    widths: [u8; 8],
    old: [u32; 8],
    predicted: [u32; 8],
) -> usize
    ensures { pen log.new result ≡ puts (pen log.old at) (body_of widths old predicted) }
{
    let mut p = at;
    for i in 0..8 {
        p = put_field(log, p, widths[i], old[i], predicted[i]);
    }
    p
}

// An old field that is not as predicted.
fn put_field(log: &mut [u8], at: usize, w: u8, old: u32, predicted: u32) -> usize
    ensures { pen log.new result ≡ puts (pen log.old at) (field_of w old predicted) }
{
    if old == predicted {
        at
    } else {
        put_number(log, at, usize::from(w), old)
    }
}

// The row read back from a place on: a flagged field from the bytes, another as predicted. No field is wider than four bytes.
pub fn row_at(s: &[u8], at: usize, widths: [u8; 8], flags: u8, predicted: [u32; 8]) -> Row
    ensures { result.fields ≡ row_from (cut widths) flags predicted (drop at s.now) }
{
    let mut fields = predicted;
    let mut p = at.min(s.len());
    let mut left = flags;
    for i in 0..8 {
        fields[i] = field_at(s, p, widths[i], left, predicted[i]);
        p += usize::from(taken_by(widths[i].min(4), left));
        left /= 2;
    }
    Row { fields }
}

// A field read back: from a place where it is flagged, else as predicted.
fn field_at(s: &[u8], at: usize, w: u8, flags: u8, predicted: u32) -> u32
    ensures { result ≡ cond (first_flagged flags) (un (min w 4) (drop at s.now)) predicted }
{
    if flags % 2 == 1 {
        number_at(s, at, usize::from(w))
    } else {
        predicted
    }
}

// How many bytes a field takes: its width where the first flag is set, else none.
pub fn taken_by(w: u8, flags: u8) -> u8
    ensures { result ≡ taken w flags }
{
    if flags % 2 == 1 { w } else { 0 }
}

// How many bytes the flagged fields take.
pub fn used_by(widths: [u8; 8], flags: u8) -> usize
    ensures { result ≡ used_by widths flags }
{
    let mut used = 0;
    let mut left = flags;
    for w in widths {
        used += usize::from(taken_by(w, left));
        left /= 2;
    }
    used
}
