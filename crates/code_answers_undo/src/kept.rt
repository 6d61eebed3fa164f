// On a state that is known to keep its rules: a log's last note undone, and the last n. A state that an undo gives keeps them again.
ghost use Rattle.std.specs.Prelude.{◌≡◌};
ghost use Rattle.spec_answers.specs.Logs.{reached, undone_kept, many_by};
ghost use Rattle.spec_answers.specs.Promises.{UndoneUntested};

use crate::undo_note;
use code_answers::refused;
use code_notes_frame::last;
use spec_answers::{Answer, Logged, Reached};
use spec_kernel::records::Kernel;

// The last note of the first `used` bytes undone: a run of undos that starts from a tested state needs no further test.
pub fn undo_kept(k: Kernel, log: &[u8], used: usize) -> Logged
    ensures { UndoneUntested k log.now used result }
{
    if !last::has_last(log, used) {
        return refused(15, k.runner, k, used);
    }
    let before = used - last::last_length(log, used);
    undo_note(k, &log[before..used], before, used)
}

// What many undos in one call give: of the last one l, and so many notes undone.
pub fn reaching(l: Logged, undone: usize) -> Reached
    ensures { result ≡ reached l undone }
{
    Reached {
        kernel: l.kernel,
        answer: l.answer,
        used: l.used,
        undone,
    }
}

// The last n notes undone, one after the other, until an undo is refused.
pub fn undo_many_kept(k: Kernel, log: &[u8], used: usize, n: usize) -> Reached
    ensures { result ≡ many_by undone_kept n k log.now used }
{
    let mut l = Logged {
        kernel: k,
        answer: Answer {
            number: 0,
            value: 255,
            runner: k.runner,
        },
        used,
    };
    for i in 0..n {
        l = undo_kept(l.kernel, log, l.used);
        if l.answer.number != 0 {
            return reaching(l, i);
        }
    }
    reaching(l, n)
}
