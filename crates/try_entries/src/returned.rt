// What came back of an entry, held against what must come back.
ghost use Rattle.std.specs.Prelude.{◌≡◌};
ghost use Rattle.spec_answers.specs.Steps.{answer};
ghost use Rattle.try_entries.specs.Returned.{same_answer, came_back};

use spec_answers::{Answer, Logged};
use spec_kernel::records::Kernel;

// An answer without a value.
pub fn without_value(number: u8, runner: u8) -> Answer
    ensures { result ≡ answer number 255 runner }
{
    Answer {
        number,
        value: 255,
        runner,
    }
}

#[tactic(auto, unfolding(crate::specs::Returned::same_answer))]
pub fn same_answer(a: Answer, b: Answer) -> bool
    ensures { result ≡ same_answer a b }
{
    a.number == b.number && a.value == b.value && a.runner == b.runner
}

// Whether this came back: the answer, the state and the used length.
#[tactic(auto, unfolding(crate::specs::Returned::came_back))]
pub fn came_back(l: Logged, a: Answer, k: Kernel, used: usize) -> bool
    ensures { result ≡ came_back l a k used }
{
    same_answer(l.answer, a) && l.used == used && code_notes_same::same_kernel(l.kernel, k)
}
