// A call on any state, with a lent log: what it writes, and the part that it wrote.
ghost use Rattle.std.specs.Prelude.{◌≡◌, ◌+◌, ◌<◌, length};
ghost use Rattle.spec_answers.specs.Promises.{Answered, Appended};

use code_answers::{recorded, refused};
use spec_answers::Logged;
use spec_kernel::records::Kernel;

// Sixteen bytes on any state whatever, with any log.
pub fn called(k: Kernel, bytes: [u8; 16], log: &mut [u8], used: usize) -> Logged
    ensures { Answered k bytes log.old used result log.new }
{
    if !code_rules::keeps_rules(k) {
        return refused(14, 255, k, used);
    }
    recorded(k, bytes, log, used)
}

// The same, and the part of the log that was written, which begins at `used`; on a refusal an empty part.
pub fn append<'a>(k: Kernel, bytes: [u8; 16], log: &'a mut [u8], used: usize) -> &'a mut [u8]
    ensures { Appended k bytes log.old used result.now
        × (0 < length result.now → result.ref_ptr ≡ (log.entry.ref_ptr.0, used + log.entry.ref_ptr.1)) }
{
    let end = called(k, bytes, log, used).used;
    if end <= used {
        return &mut log[0..0];
    }
    &mut log[used..end]
}
