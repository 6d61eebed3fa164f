// Both ways: records from standard input to its end, a line each, with all notes in one log; then every note undone, a line
// each, the uptime, and whether the state is the fresh one again.
#![tactic(auto)]

ghost use Rattle.std.specs.Prelude.{IfOk};
ghost use Rattle.spec_rules.specs.Rules.{Rules};

use base_lines::input::read_full;
use spec_answers::Answer;
use spec_kernel::records::Kernel;
use std::io;

// Where a run stands: its state, how much of the log is used, and the records seen so far.
#[derive(Clone, Copy)]
struct Run {
    kernel: Kernel,
    used: usize,
    serial: u64,
}

// ---- the lines

// The line of a call: serial, number, value, runner, and the length of its note.
fn put_call(out: &mut [u8], at: usize, serial: u64, a: Answer, note: usize) -> usize {
    let numbers = [
        serial,
        a.number as u64,
        a.value as u64,
        a.runner as u64,
        note as u64,
    ];
    base_lines::put_line(out, at, &numbers)
}

// ---- forward

// The whole records of s, and their lines in the lent room; where the lines end. A shorter tail is dropped. The state keeps its rules, and
// so does every state after it, so that no call tests them again. A call never shortens the used part of the log.
fn forward(run: &mut Run, s: &[u8], log: &mut [u8], out: &mut [u8]) -> usize
    requires { Rules run.old.kernel }
    ensures { Rules run.new.kernel }
{
    let mut end = 0;
    for bytes in s.as_chunks::<16>().0 {
        let l = replay::recorded(run.kernel, *bytes, log, run.used);
        let note = l.used.wrapping_sub(run.used);
        run.kernel = l.kernel;
        run.used = l.used;
        run.serial = run.serial.wrapping_add(1);
        end = put_call(out, end, run.serial, l.answer, note);
    }
    end
}

// Standard input to its end, from fresh, in chunks. An error ends the run where it stands.
fn all_forward(rt: &(impl Input + Print), log: &mut [u8; 1048576]) -> io::Result<Run>
    ensures { IfOk result (λ r. Rules r.kernel) }
{
    let mut input = rt.reader();
    let mut chunk = [0u8; 4096];
    let mut out = [0u8; 16384];
    let mut run = Run {
        kernel: replay::fresh(),
        used: 0,
        serial: 0,
    };
    for _ in 0..u64::MAX {
        let n = read_full(&mut input, &mut chunk)?;
        let end = forward(&mut run, &chunk[..n], log, &mut out);
        rt.write_all(base_lines::up_to(&out, end))?;
        if n < 4096 {
            break;
        }
    }
    Ok(run)
}

// ---- backwards

// Every note undone, until an undo is refused, with a line for each (number, runner, and the length of log that is left); the state that
// is left. The state keeps its rules, and so does every state that an undo gives, so that no undo tests those of the state that it is given.
fn backwards(rt: &impl Print, k: Kernel, log: &[u8; 1048576], used: usize) -> io::Result<Kernel>
    requires { Rules k }
{
    let mut l = replay::undo_kept(k, log, used);
    for _ in 0..u64::MAX {
        if l.answer.number != 0 {
            break;
        }
        let Answer { number, runner, .. } = l.answer;
        let left = l.used;
        println!(rt; "back {number} {runner} {left}")?;
        l = replay::undo_kept(l.kernel, log, left);
    }
    Ok(l.kernel)
}

// The last two lines.
fn finished(rt: &impl Print, k: Kernel) -> io::Result<()> {
    let uptime = k.uptime;
    let end = if replay::same_kernel(k, replay::fresh()) {
        "fresh"
    } else {
        "other"
    };
    println!(rt; "uptime {uptime}\n{end}")
}

fn main(rt: HostRuntime) -> io::Result<()> {
    let mut log = [0u8; 1048576];
    let run = all_forward(&rt, &mut log)?;
    finished(&rt, backwards(&rt, run.kernel, &log, run.used)?)
}
