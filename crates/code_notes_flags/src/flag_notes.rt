// The byte of the flag that a call made.
ghost use Rattle.std.specs.Prelude.{◌≡◌};
ghost use Rattle.base_bytes.specs.Pens.{pen, puts};
ghost use Rattle.spec_notes.specs.Predicted.{predicted_flags};
ghost use Rattle.spec_notes.specs.Sections.{flags_noted};

use base_bytes::pens::put_byte;
use code_kernel_find::free;
use spec_calls::call::Call;
use spec_kernel::sizes;

// The longest section: an id.
pub const LONGEST: usize = 1;

// What the call tells of the flags before it: the one that was destroyed was live.
#[tactic(auto, unfolding(spec_notes::specs::Predicted::predicted_flags))]
pub fn predicted(c: Call, flags: u16) -> u16
    ensures { result ≡ predicted_flags c flags }
{
    if c.kind == 32 && c.a < sizes::FLAG_IDS {
        base_bits::with_bit(flags as u32, c.a) as u16
    } else {
        flags
    }
}

// The flag that was made is the lowest that was free before; nothing is written where the flags are as predicted.
#[tactic(auto, unfolding(base_bytes::specs::Pens::puts))]
pub fn put_flags(log: &mut [u8], at: usize, c: Call, old: u16, new: u16) -> usize
    ensures { pen log.new result ≡ puts (pen log.old at) (flags_noted old (predicted_flags c new)) }
{
    if old == predicted(c, new) {
        at
    } else {
        put_byte(log, at, free::free_flag(old))
    }
}
