// The scheduler's own values as a row: levels and runner.
ghost use Rattle.std.specs.Prelude.{◌≡◌, ◌+◌, ◌-◌, cond, [], ◌∷◌};
ghost use Rattle.spec_refusals.specs.Refusals.{is_one_of};
ghost use Rattle.spec_notes.specs.Rows.{scheduler_row};
ghost use Rattle.spec_notes.specs.Predicted.{predicted_levels};

use base_rows::rows::Row;
use spec_calls::call::Call;

// The widths of these fields, in bytes.
pub const WIDTHS: [u8; 8] = [1, 1, 1, 0, 0, 0, 0, 0];

// The longest section: flags and every field.
pub const LONGEST: usize = 4;

pub fn row_of(unscheduled: u8, critical: u8, runner: u8) -> Row
    ensures { result.fields ≡ scheduler_row unscheduled critical runner }
{
    Row {
        fields: [
            unscheduled as u32,
            critical as u32,
            runner as u32,
            0,
            0,
            0,
            0,
            0,
        ],
    }
}

// A level before it was pushed or popped. Above 255 it is written out, so it isn't cut to a byte here.
fn level_before(pushed: bool, popped: bool, level: u8) -> u32
    ensures { result ≡ cond pushed (level - 1) (cond popped (level + 1) level) }
{
    let level = u32::from(level);
    if pushed {
        level.saturating_sub(1)
    } else if popped {
        level + 1
    } else {
        level
    }
}

// A pop of the critical level, which the pend of a flag is too.
fn pops_critical(c: Call) -> bool
    ensures { result ≡ is_one_of c (12 ∷ 33 ∷ []) }
{
    matches!(c.kind, 12 | 33)
}

// What the call and the values after it tell of the values before.
pub fn predicted(c: Call, unscheduled: u8, critical: u8, runner: u8) -> Row
    ensures { result.fields ≡ predicted_levels c unscheduled critical runner }
{
    Row {
        fields: [
            level_before(c.kind == 8, c.kind == 9, unscheduled),
            level_before(c.kind == 11, pops_critical(c), critical),
            runner as u32,
            0,
            0,
            0,
            0,
            0,
        ],
    }
}
