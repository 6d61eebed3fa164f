// A semaphore as a row: live, count, maximum, ticks left, period.
ghost use Rattle.std.specs.Prelude.{◌≡◌, ◌-◌};
ghost use Rattle.base_rows.specs.Rows.{fitted};
ghost use Rattle.spec_notes.specs.Rows.{semaphore_row, semaphore_widths, semaphore_from};
ghost use Rattle.spec_notes.specs.Predicted.{count_before, predicted_semaphore};
ghost use Rattle.spec_notes.specs.Touched.{ticks_before_pulse, count_before_pulse, younger_semaphore, same_semaphore};

use base_rows::rows::Row;
use code_notes_entries::choices::word;
use code_notes_entries::fields::same_rows;
use spec_calls::call::Call;
use spec_kernel::records::Semaphore;

// The widths of these fields, in bytes.
pub const WIDTHS: [u8; 8] = [1, 2, 2, 4, 4, 0, 0, 0];

// The longest entry: head, flags and every field.
pub const LONGEST: usize = 15;

pub fn row_of(r: Semaphore) -> Row
    ensures { result.fields ≡ semaphore_row r }
{
    Row {
        fields: [
            u32::from(r.live),
            r.count as u32,
            r.maximum as u32,
            r.ticks,
            r.period,
            0,
            0,
            0,
        ],
    }
}

// A field that doesn't fit is cut to its width.
pub fn from_row(row: [u32; 8]) -> Semaphore
    ensures { result ≡ semaphore_from (fitted semaphore_widths row) }
{
    Semaphore {
        live: row[0] % 256 != 0,
        count: (row[1] % 65536) as u16,
        maximum: (row[2] % 65536) as u16,
        ticks: word(row[3]),
        period: word(row[4]),
    }
}

// One more before a pend that passed, one less before a post that was counted; a tick's post is told already, but for a full one.
fn count_before(c: Call, r: Semaphore) -> u16
    ensures { result ≡ count_before c r }
{
    match c.kind {
        1 if r.count == r.maximum => r.count.saturating_sub(1),
        18 => r.count.saturating_add(1),
        19 | 28 => r.count.saturating_sub(1),
        _ => r.count,
    }
}

// What the call and the record after it tell of the record before.
#[tactic(auto, unfolding(spec_notes::specs::Predicted::predicted_semaphore))]
pub fn predicted(c: Call, r: Semaphore) -> Row
    ensures { result.fields ≡ predicted_semaphore c r }
{
    if c.kind == 14 {
        return Row {
            fields: [0, 0, 0, r.ticks, r.period, 0, 0, 0],
        };
    }
    Row {
        fields: [
            1,
            count_before(c, r) as u32,
            r.maximum as u32,
            if c.kind == 1 { 1 } else { r.ticks },
            r.period,
            0,
            0,
            0,
        ],
    }
}

// The ticks of a periodic semaphore before a tick: one where it was posted, as its period tells, else one more.
fn ticks_before_pulse(r: Semaphore) -> u32
    ensures { result ≡ ticks_before_pulse r }
{
    if r.ticks == r.period {
        1
    } else {
        r.ticks.saturating_add(1)
    }
}

// Its count: one less where a post was counted, unless it is full.
fn count_before_pulse(r: Semaphore) -> u16
    ensures { result ≡ count_before_pulse r }
{
    if r.ticks == r.period && r.count != r.maximum {
        r.count.saturating_sub(1)
    } else {
        r.count
    }
}

// The record before, where the call did no more than age it.
#[tactic(auto, unfolding(spec_notes::specs::Touched::younger_semaphore))]
pub fn younger(c: Call, r: Semaphore) -> Semaphore
    ensures { result ≡ younger_semaphore c r }
{
    if c.kind != 1 || r.period == 0 {
        return r;
    }
    Semaphore {
        count: count_before_pulse(r),
        ticks: ticks_before_pulse(r),
        ..r
    }
}

#[tactic(auto, unfolding(spec_notes::specs::Touched::same_semaphore))]
pub fn same(r: Semaphore, s: Semaphore) -> bool
    ensures { result ≡ same_semaphore r s }
{
    same_rows(row_of(r), row_of(s))
}
