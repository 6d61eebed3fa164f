// The bytes of notes: records from standard input to its end, with all notes in one log, whose used part is the output.
#![tactic(auto)]

use base_lines::input::read_full;
use std::io;

// A record at a time, from fresh; a shorter tail is dropped. The fresh state keeps its rules, and so does every state after it, so
// that no call tests them again.
fn all_forward(rt: &(impl Input + Print), log: &mut [u8; 1048576]) -> io::Result<()> {
    let mut input = rt.reader();
    let mut bytes = [0u8; 16];
    let mut k = replay::fresh();
    let mut used: usize = 0;
    for _ in 0..u64::MAX {
        if read_full(&mut input, &mut bytes)? < 16 {
            break;
        }
        let l = replay::recorded(k, bytes, log, used);
        k = l.kernel;
        used = l.used;
    }
    rt.write_all(base_lines::up_to(log, used))
}

fn main(rt: HostRuntime) -> io::Result<()> {
    let mut log = [0u8; 1048576];
    all_forward(&rt, &mut log)
}
