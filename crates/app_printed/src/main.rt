// Document 01's printed replay: records from standard input to its end, a line each, then the uptime.
#![tactic(auto)]

ghost use Rattle.spec_rules.specs.Rules.{Rules};

use base_lines::input::read_full;
use spec_answers::Answer;
use spec_kernel::records::Kernel;
use std::io;

// Where a run stands: its state, and the records seen so far.
#[derive(Clone, Copy)]
struct Run {
    kernel: Kernel,
    serial: u64,
}

// The line of an answer: serial, number, value, runner.
fn put_answer(out: &mut [u8], at: usize, serial: u64, a: Answer) -> usize {
    let numbers = [serial, a.number as u64, a.value as u64, a.runner as u64];
    base_lines::put_line(out, at, &numbers)
}

// The whole records of s, each with an empty log, and their lines in the lent room; where the lines end. A shorter tail is dropped. The
// state keeps its rules, and so does every state after it, so that no call tests them again.
fn replayed(run: &mut Run, s: &[u8], out: &mut [u8]) -> usize
    requires { Rules run.old.kernel }
    ensures { Rules run.new.kernel }
{
    let mut log = [0u8; 4096];
    let mut end = 0;
    // The state in a variable: behind the reference it would be copied once more for each record.
    let mut k = run.kernel;
    for bytes in s.as_chunks::<16>().0 {
        let l = replay::recorded(k, *bytes, &mut log, 0);
        k = l.kernel;
        run.serial = run.serial.wrapping_add(1);
        end = put_answer(out, end, run.serial, l.answer);
    }
    run.kernel = k;
    end
}

fn main(rt: HostRuntime) -> io::Result<()> {
    let mut input = rt.reader();
    let mut chunk = [0u8; 4096];
    let mut out = [0u8; 16384];
    let mut run = Run {
        kernel: replay::fresh(),
        serial: 0,
    };
    for _ in 0..u64::MAX {
        let n = read_full(&mut input, &mut chunk)?;
        let end = replayed(&mut run, &chunk[..n], &mut out);
        rt.write_all(base_lines::up_to(&out, end))?;
        if n < 4096 {
            break;
        }
    }
    let uptime = run.kernel.uptime;
    println!(rt; "uptime {uptime}")
}
