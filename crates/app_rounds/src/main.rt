// A program for timing: at most 4,096 records from standard input, run 256 times, each time from fresh with an empty log, and
// no line for a call. It prints how many records a round has, and of all rounds the accepted calls and the bytes of their notes.
#![tactic(auto)]

ghost use Rattle.std.specs.Prelude.{◌≡◌};
ghost use Rattle.spec_rules.specs.Rules.{Rules};

use base_lines::input::read_full;
use spec_kernel::records::Kernel;
use std::io;

// The rounds, the accepted calls and the bytes of their notes, of one round or of all so far.
#[derive(Clone, Copy)]
struct Total {
    rounds: u64,
    accepted: u64,
    bytes: u64,
}

// The whole records of s; a shorter tail is dropped. No call tests the state rules: the first state keeps them, and so does every state
// after it.
// The state to start from comes from outside, by two calls: were it made here, the compiler would take it apart, and copy every state
// after it field by field.
fn round(fresh: Kernel, s: &[u8], log: &mut [u8]) -> Total
    requires { Rules fresh }
    ensures { result.rounds ≡ 1 }
{
    let mut k = fresh;
    let mut used = 0;
    let mut accepted: u64 = 0;
    for bytes in s.as_chunks::<16>().0 {
        let l = replay::recorded(k, *bytes, log, used);
        k = l.kernel;
        used = l.used;
        accepted = accepted.wrapping_add(u64::from(l.answer.number == 0));
    }
    Total {
        rounds: 1,
        accepted,
        bytes: used as u64,
    }
}

// The first of them, and the others.
fn all_rounds(s: &[u8], log: &mut [u8; 1048576]) -> Total
    ensures { result.rounds ≡ 256 }
{
    let fresh = replay::fresh();
    let mut total = round(fresh, s, log);
    for turn in 1..256 {
        let r = round(fresh, s, log);
        total = Total {
            rounds: turn + r.rounds,
            accepted: total.accepted.wrapping_add(r.accepted),
            bytes: total.bytes.wrapping_add(r.bytes),
        };
    }
    total
}

fn main(rt: HostRuntime) -> io::Result<()> {
    let mut log = [0u8; 1048576];
    let mut records = [0u8; 65536];
    let n = read_full(&mut rt.reader(), &mut records)?;
    let Total {
        rounds,
        accepted,
        bytes,
    } = all_rounds(&records[..n], &mut log);
    let whole = n / 16;
    println!(rt; "records {whole} rounds {rounds} accepted {accepted} bytes {bytes}")
}
