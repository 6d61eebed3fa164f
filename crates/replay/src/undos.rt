// The undo of a log's last note, and of the last n, on any state and any log.
ghost use Rattle.spec_answers.specs.Promises.{Undone, UndoneMany};

use code_answers::refused;
use code_answers_undo::kept;
use spec_answers::{Logged, Reached};
use spec_kernel::records::Kernel;

// The last note of the first `used` bytes undone, on any state and any log.
pub fn undo(k: Kernel, log: &[u8], used: usize) -> Logged
    ensures { Undone k log.now used result }
{
    if !code_rules::keeps_rules(k) {
        return refused(14, 255, k, used);
    }
    kept::undo_kept(k, log, used)
}

// The last n notes undone in one call, one after the other until an undo is refused: the rules are tested once.
pub fn undo_many(k: Kernel, log: &[u8], used: usize, n: usize) -> Reached
    ensures { UndoneMany n k log.now used result }
{
    if !code_rules::keeps_rules(k) {
        return kept::reaching(refused(14, 255, k, used), 0);
    }
    kept::undo_many_kept(k, log, used, n)
}
