// Entries: a head byte with an id, and what it says follows, a code, flags and flagged fields.
ghost use Rattle.std.specs.Prelude.{◌≡◌, get_or, drop};
ghost use Rattle.base_bytes.specs.Pens.{pen, puts};
ghost use Rattle.base_rows.specs.Rows.{cut};
ghost use Rattle.base_rows.specs.Entries.{flags_and_fields, unless_predicted, code_noted, head_of, entry_of, id_of, flags_from, fields_from};
ghost use Rattle.base_rows.specs.Entries.{code_in, flags_in, row_in, size_in};

use crate::rows::{Row, flag_of, flags_of, put_body, row_at, taken_by, used_by};
use base_bytes::bytes::byte_at;
use base_bytes::pens::put_byte;

// Of an old row what isn't as predicted: its flags, then those fields.
fn put_fields(
    log: &mut [u8],
    at: usize,
    widths: [u8; 8],
    old: [u32; 8],
    predicted: [u32; 8],
) -> usize
    ensures { pen log.new result ≡ puts (pen log.old at) (flags_and_fields widths old predicted) }
{
    let p = put_byte(log, at, flags_of(old, predicted));
    put_body(log, p, widths, old, predicted)
}

// The same, and nothing where all is as predicted.
pub fn put_unless_predicted(
    log: &mut [u8],
    at: usize,
    widths: [u8; 8],
    old: [u32; 8],
    predicted: [u32; 8],
) -> usize
    ensures { pen log.new result ≡ puts (pen log.old at) (unless_predicted widths old predicted) }
{
    if flags_of(old, predicted) == 0 {
        at
    } else {
        put_fields(log, at, widths, old, predicted)
    }
}

// The id, 64 where the code isn't as predicted, and 128 where any flag is set.
fn head_of(id: u8, code: u8, told: u8, flags: u8) -> u8
    ensures { result ≡ head_of id code told flags }
{
    id % 64 + 64 * flag_of(u32::from(code), u32::from(told)) + 128 * flag_of(u32::from(flags), 0)
}

// A code that isn't as predicted.
fn put_code(log: &mut [u8], at: usize, code: u8, told: u8) -> usize
    ensures { pen log.new result ≡ puts (pen log.old at) (code_noted code told) }
{
    if code == told {
        at
    } else {
        put_byte(log, at, code)
    }
}

// The entry of an id, of its code and the predicted one, its old row and the predicted one. An id is below 64.
pub fn put_entry(
    log: &mut [u8],
    at: usize,
    id: u8,
    code: u8,
    told: u8,
    widths: [u8; 8],
    old: [u32; 8],
    predicted: [u32; 8],
) -> usize
    ensures { pen log.new result ≡ puts (pen log.old at) (entry_of widths id code told old predicted) }
{
    let flags = flags_of(old, predicted);
    let p = put_byte(log, at, head_of(id, code, told, flags));
    let q = put_code(log, p, code, told);
    if flags == 0 {
        return q;
    }
    let r = put_byte(log, q, flags);
    put_body(log, r, widths, old, predicted)
}

// Of bytes that begin with an entry, whose head is the first of them: its id.
pub fn id_in(e: &[u8]) -> u8
    ensures { result ≡ id_of (get_or e.now 0 0) }
{
    byte_at(e, 0) % 64
}

// Its code, or the predicted one.
pub fn code_in(e: &[u8], told: u8) -> u8
    ensures { result ≡ code_in told (get_or e.now 0 0) (drop 1 e.now) }
{
    if byte_at(e, 0) / 64 % 2 == 1 {
        byte_at(e, 1)
    } else {
        told
    }
}

// How many bytes stand between its head and its flags.
fn flags_from(head: u8) -> u8
    ensures { result ≡ flags_from head }
{
    taken_by(1, head / 64)
}

// How many bytes stand between its head and its fields.
fn fields_from(head: u8) -> u8
    ensures { result ≡ fields_from head }
{
    flags_from(head) + taken_by(1, head / 128)
}

// Its flags.
fn flags_in(e: &[u8]) -> u8
    ensures { result ≡ flags_in (get_or e.now 0 0) (drop 1 e.now) }
{
    let head = byte_at(e, 0);
    if head / 128 % 2 == 1 {
        byte_at(e, 1 + usize::from(flags_from(head)))
    } else {
        0
    }
}

// Its row: a flagged field from the bytes, another as predicted.
pub fn row_in(e: &[u8], widths: [u8; 8], predicted: [u32; 8]) -> Row
    ensures { result.fields ≡ row_in (cut widths) predicted (get_or e.now 0 0) (drop 1 e.now) }
{
    let at = 1 + usize::from(fields_from(byte_at(e, 0)));
    row_at(e, at, widths, flags_in(e), predicted)
}

// How many bytes it has; no more than there are.
pub fn size_in(e: &[u8], widths: [u8; 8]) -> usize
    ensures { result ≡ size_in widths e.now }
{
    let before = 1 + usize::from(fields_from(byte_at(e, 0)));
    let used = used_by(widths, flags_in(e)).min(e.len());
    (before + used).min(e.len())
}
