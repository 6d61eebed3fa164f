// The entry of the scheduler's own values.
ghost use Rattle.std.specs.Prelude.{◌≡◌};
ghost use Rattle.base_bytes.specs.Pens.{pen, puts};
ghost use Rattle.spec_notes.specs.Sections.{held_runner, levels_noted};

use crate::scheduler_rows;
use crate::scheduler_rows::WIDTHS;
use base_rows::entries::put_unless_predicted;
use spec_calls::call::Call;

// Both levels, and who runs.
#[derive(Clone, Copy)]
pub struct Levels {
    pub unscheduled: u8,
    pub critical: u8,
    pub runner: u8,
}

// With both levels 0 the old runner is the first ready one of the old state: then the new one stands for it.
fn held_runner(old: Levels, after: u8) -> u8
    ensures { result ≡ held_runner old.unscheduled old.critical old.runner after }
{
    if old.unscheduled == 0 && old.critical == 0 {
        after
    } else {
        old.runner
    }
}

// The values before the call, as far as those after it don't tell them.
pub fn put_scheduler(log: &mut [u8], at: usize, c: Call, old: Levels, new: Levels) -> usize
    ensures { pen log.new result
        ≡ puts (pen log.old at)
        (levels_noted c old.unscheduled old.critical old.runner new.unscheduled new.critical new.runner) }
{
    let held = held_runner(old, new.runner);
    let before = scheduler_rows::row_of(old.unscheduled, old.critical, held);
    let told = scheduler_rows::predicted(c, new.unscheduled, new.critical, new.runner);
    put_unless_predicted(log, at, WIDTHS, before.fields, told.fields)
}
