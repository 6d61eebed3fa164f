// The lines of a program that tries.
ghost use Rattle.std.specs.Prelude.{◌≡◌, ◌+◌, ◌%◌, ◌^◌, ◌==◌, IfOk};

use crate::tallies::Tally;
use std::io;

// The line of trials on states that keep their rules; the wrong ones so far with its own.
pub fn line(rt: &impl Print, name: &[u8], t: Tally, wrong: u64) -> io::Result<u64>
    ensures { IfOk result (λ n. n ≡ (wrong + t.wrong) % 2 ^ 64) }
{
    let Tally {
        refused,
        accepted,
        ..
    } = t;
    let tried = refused.wrapping_add(accepted);
    rt.write_all(name)?;
    println!(rt; "{tried} refused {refused} accepted {accepted}")?;
    Ok(wrong.wrapping_add(t.wrong))
}

// The same of trials on any states.
pub fn line_of_states(rt: &impl Print, name: &[u8], t: Tally, wrong: u64) -> io::Result<u64>
    ensures { IfOk result (λ n. n ≡ (wrong + t.wrong) % 2 ^ 64) }
{
    let Tally {
        broken,
        refused,
        accepted,
        ..
    } = t;
    let tried = broken.wrapping_add(refused.wrapping_add(accepted));
    rt.write_all(name)?;
    println!(rt; "{tried} broken {broken} refused {refused} accepted {accepted}")?;
    Ok(wrong.wrapping_add(t.wrong))
}

// The last line, and whether nothing was wrong.
pub fn verdict(rt: &impl Print, wrong: u64) -> io::Result<bool>
    ensures { IfOk result (λ right. right ≡ (wrong == 0)) }
{
    println!(rt; "wrong {wrong}")?;
    Ok(wrong == 0)
}
