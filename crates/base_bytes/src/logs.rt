// A note behind the used part of a lent log: written whole, or not at all.
ghost use Rattle.std.specs.Prelude.{◌≡◌};
ghost use Rattle.base_bytes.specs.Logs.{noted, ends};

use crate::pens::put_all;

// The note written behind the first `used` bytes, and where it ends; where it does not fit, nothing.
pub fn write(log: &mut [u8], used: usize, note: &[u8]) -> usize
    ensures { (log.new ≡ noted log.old used note.now)
        × (result ≡ ends log.old used note.now) }
{
    if log.len() < used || log.len() - used < note.len() {
        used
    } else {
        put_all(log, used, note)
    }
}
