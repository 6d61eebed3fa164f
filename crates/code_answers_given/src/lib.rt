// The answer to a call that isn't refused, once its note has been tried: accepted, or 13 where the log has no room for it.
#![tactic(auto)]

ghost use Rattle.std.specs.Prelude.{◌≡◌};
ghost use Rattle.code_answers_given.specs.Given.{given};

use spec_answers::Answer;

// `before` ran before the call and `after` runs after it; the log was used up to `used`, and is now up to `end`.
pub fn given(value: u8, before: u8, after: u8, used: usize, end: usize) -> Answer
    ensures { result ≡ given value before after used end }
{
    if end == used {
        return Answer {
            number: 13,
            value: 255,
            runner: before,
        };
    }
    Answer {
        number: 0,
        value,
        runner: after,
    }
}
