// A call with a log, on a state that keeps its rules.
#![tactic(auto)]

ghost use Rattle.std.specs.Prelude.{◌≡◌};
ghost use Rattle.spec_answers.specs.Steps.{answer, next_state};
ghost use Rattle.spec_answers.specs.Logs.{logged};
ghost use Rattle.spec_answers.specs.Promises.{AnsweredUntested};

use code_calls::{call, named};
use code_kernel::runner;
use code_kernel_find::by_id;
use code_notes::note;
use code_notes::note::MOST;
use spec_answers::{Answer, Logged};
use spec_calls::call::Call;
use spec_kernel::records::Kernel;

// A refusal: the state and the used length stay.
pub fn refused(number: u8, runner: u8, k: Kernel, used: usize) -> Logged
    ensures { result ≡ logged (answer number 255 runner) k used }
{
    Logged {
        answer: Answer {
            number,
            value: 255,
            runner,
        },
        kernel: k,
        used,
    }
}

// The state after a call that is not refused: what the call does, then who runs.
fn next_state(k: Kernel, c: Call) -> Kernel
    ensures { result ≡ next_state k c }
{
    let mut next = code_effects::effect(k, c);
    let first = base_queue::first(next.places);
    let r = by_id::thread_at(next.threads, first as u16);
    next.runner = runner::runner_of(next.unscheduled, next.critical, next.runner, first, r);
    next
}

// The call on a state that keeps its rules: a run that starts from a tested state needs no further test. The sections are written from
// here, and not from a function over both states, which would copy them.
pub fn recorded(k: Kernel, bytes: [u8; 16], log: &mut [u8], used: usize) -> Logged
    ensures { AnsweredUntested k bytes log.old used result log.new }
{
    let c = call::call_of(bytes);
    let n = named::named_by(k, c);
    let number = code_refusals::number_of(k.unscheduled, k.critical, k.runner, n, c);
    if number != 0 {
        return refused(number, k.runner, k, used);
    }
    let value = n.found;
    let next = next_state(k, c);
    let mut buffer = [0u8; MOST];
    let first = note::put_start(&mut buffer, bytes, c, k, next);
    let second = note::put_thread_part(&mut buffer, first, c, k, next, value, n.waiter);
    let third = note::put_semaphore_part(&mut buffer, second, c, k, next, value);
    let fourth = note::put_event_part(&mut buffer, third, c, k, next);
    let fifth = note::put_flag_part(&mut buffer, fourth, c, k.flags, next.flags);
    let sixth = note::put_message_part(&mut buffer, fifth, c, k, next, value);
    let size = note::put_end(&mut buffer, sixth);
    let end = base_bytes::logs::write(log, used, &buffer[..size]);
    let answer = code_answers_given::given(value, k.runner, next.runner, used, end);
    if end == used {
        return Logged {
            answer,
            kernel: k,
            used,
        };
    }
    Logged {
        answer,
        kernel: next,
        used: end,
    }
}
