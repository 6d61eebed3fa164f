// A program for timing the way back. The first byte of standard input says which undo: `s` for single public ones, `r` for a run of them
// in one call. Behind it come at most 4,096 records, which are run once from fresh with all notes in one log, and no line for a call; then
// 64 times, each time from that end, every note is undone. It prints how many records there are, and of all rounds the undos, the bytes of
// notes that were left, and how many rounds ended in the fresh state.
#![tactic(auto)]

ghost use Rattle.std.specs.Prelude.{◌≡◌, ◌≤◌};
ghost use Rattle.spec_rules.specs.Rules.{Rules};

use base_lines::input::read_full;
use replay::undos;
use spec_kernel::records::Kernel;
use std::io;

// A state, and how much of the log is used.
#[derive(Clone, Copy)]
struct Run {
    kernel: Kernel,
    used: usize,
}

// The rounds, the undos, the bytes that were left and the rounds that ended in the fresh state, of one round or of all so far.
#[derive(Clone, Copy)]
struct Total {
    rounds: u64,
    undone: u64,
    left: u64,
    fresh: u64,
}

// The whole records of s, from fresh; a shorter tail is dropped.
fn forward(s: &[u8], log: &mut [u8; 1048576]) -> Run
    ensures { Rules result.kernel }
{
    let mut run = Run {
        kernel: replay::fresh(),
        used: 0,
    };
    for bytes in s.as_chunks::<16>().0 {
        let l = replay::recorded(run.kernel, *bytes, log, run.used);
        run.kernel = l.kernel;
        run.used = l.used;
    }
    run
}

// A round that undid so many notes and ended in this state, with so much of the log left.
fn ended(undone: u64, end: Kernel, left: usize) -> Total
    ensures { (result.rounds ≡ 1) × (result.undone ≡ undone) }
{
    Total {
        rounds: 1,
        undone,
        left: left as u64,
        fresh: u64::from(replay::same_kernel(end, replay::fresh())),
    }
}

// Every note undone by a single public undo, until one is refused; there are no more notes than records.
fn one_by_one(mut run: Run, log: &[u8]) -> Total
    ensures { (result.rounds ≡ 1) × (result.undone ≤ 4096) }
{
    for undone in 0..4096 {
        let l = undos::undo(run.kernel, log, run.used);
        if l.answer.number != 0 {
            return ended(undone, run.kernel, run.used);
        }
        run.kernel = l.kernel;
        run.used = l.used;
    }
    ended(4096, run.kernel, run.used)
}

// The same in one call, which tests the state once.
fn at_once(run: Run, log: &[u8]) -> Total
    ensures { result.rounds ≡ 1 }
{
    let r = undos::undo_many(run.kernel, log, run.used, 4096);
    ended(r.undone as u64, r.kernel, r.used)
}

// A round in the way that is asked for.
fn round(single: bool, end: Run, log: &[u8]) -> Total
    ensures { result.rounds ≡ 1 }
{
    if single {
        one_by_one(end, log)
    } else {
        at_once(end, log)
    }
}

// All of them, from the same end and the same log.
fn all_rounds(single: bool, end: Run, log: &[u8; 1048576]) -> Total
    ensures { result.rounds ≡ 64 }
{
    let mut total = Total {
        rounds: 0,
        undone: 0,
        left: 0,
        fresh: 0,
    };
    for turn in 0..64 {
        let r = round(single, end, log);
        total = Total {
            rounds: turn + r.rounds,
            undone: total.undone.wrapping_add(r.undone),
            left: total.left.wrapping_add(r.left),
            fresh: total.fresh.wrapping_add(r.fresh),
        };
    }
    total
}

fn main(rt: HostRuntime) -> io::Result<()> {
    let mut input = rt.reader();
    let mut log = [0u8; 1048576];
    let mut way = [0u8; 1];
    read_full(&mut input, &mut way)?;
    let mut records = [0u8; 65536];
    let n = read_full(&mut input, &mut records)?;
    let run = forward(&records[..n], &mut log);
    let Total {
        rounds,
        undone,
        left,
        fresh,
    } = all_rounds(way[0] == b's', run, &log);
    let whole = n / 16;
    println!(rt; "records {whole} rounds {rounds} undone {undone} left {left} fresh {fresh}")
}
