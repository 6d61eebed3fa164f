// The public entries, each with what must come back of it.
ghost use Rattle.std.specs.Prelude.{◌≡◌, length};
ghost use Rattle.spec_answers.specs.Logs.{part_called};
ghost use Rattle.try_entries.specs.Entries.{accepted_as, undone_as, undo_tried, refused_as};

use crate::again;
use crate::returned::{came_back, same_answer, without_value};
use crate::tallies::{Outcome, ended};
use replay::{logs, undos};
use spec_answers::{Answer, Logged};
use spec_kernel::records::Kernel;

// The length of the part that a call appends.
pub fn appended(k: Kernel, bytes: [u8; 16], log: &mut [u8], used: usize) -> usize
    ensures { result ≡ length (part_called k bytes log.old used) }
{
    logs::append(k, bytes, log, used).len()
}

// A call that must be refused with this answer: the state and the used length as they were, and nothing is appended.
#[tactic(auto, unfolding(crate::specs::Entries::refused_as))]
pub fn refused(k: Kernel, bytes: [u8; 16], log: &mut [u8], used: usize, a: Answer) -> Outcome
    ensures { result ≡ refused_as k bytes log.old used a }
{
    let l = logs::called(k, bytes, log, used);
    if appended(k, bytes, log, used) != 0 {
        return ended(0, false);
    }
    ended(l.answer.number, came_back(l, a, k, used))
}

// An accepted call on k came back with l: its answer is the one that its note tells, and the undo gives k back.
#[tactic(auto, unfolding(crate::specs::Entries::accepted_as))]
pub fn accepted(l: Logged, log: &[u8], k: Kernel, used: usize) -> bool
    ensures { result ≡ accepted_as l log.now k used }
{
    used <= l.used
        && l.used <= log.len()
        && same_answer(
            l.answer,
            again::noted_answer(&log[used..l.used], l.kernel.runner),
        )
        && came_back(
            undos::undo(l.kernel, log, l.used),
            without_value(0, k.runner),
            k,
            used,
        )
}

// An undo that accepted: what it took off the log is a note that the state which it gave back yields.
#[tactic(auto, unfolding(crate::specs::Entries::undone_as))]
fn undone(u: Logged, k: Kernel, log: &[u8], used: usize) -> bool
    ensures { result ≡ undone_as u k log.now used }
{
    u.used <= used
        && used <= log.len()
        && same_answer(u.answer, without_value(0, u.kernel.runner))
        && again::yields(u.kernel, &log[u.used..used], k)
}

// An undo on a state that keeps its rules, with any log and any used length.
#[tactic(auto, unfolding(crate::specs::Entries::undo_tried))]
pub fn undo(k: Kernel, log: &[u8], used: usize) -> Outcome
    ensures { result ≡ undo_tried k log.now used }
{
    let u = undos::undo(k, log, used);
    let number = u.answer.number;
    if number == 0 {
        ended(0, undone(u, k, log, used))
    } else {
        ended(number, came_back(u, without_value(15, k.runner), k, used))
    }
}
