// The flags before a call, of those after it and the note's section.
ghost use Rattle.std.specs.Prelude.{◌≡◌};
ghost use Rattle.spec_notes.specs.Back.{flags_before};

use crate::flag_notes::predicted;
use spec_calls::call::Call;

// The flag that the section names wasn't live.
pub fn flags_before(c: Call, flags: u16, s: &[u8]) -> u16
    ensures { result ≡ flags_before c flags s.now }
{
    let told = predicted(c, flags);
    match s.first() {
        Some(id) => base_bits::without_bit(told as u32, *id) as u16,
        None => told,
    }
}
