// Words of 32 bits: a bit read, set and cleared, and a masked comparison. It knows nothing of kernels.
#![tactic(auto)]

ghost use Rattle.std.specs.Prelude.{◌≡◌};
ghost use Rattle.base_bits.specs.Words.{bit_at, with_bit, without_bit, all_match, any_match};

pub mod sets;

// Whether bit i of the word is set; no bit above 31 is.
pub fn bit(word: u32, i: u8) -> bool
    ensures { result ≡ bit_at word i }
{
    sets::has(u64::from(word), i)
}

// The word with bit i set; a bit above 31 leaves it.
pub fn with_bit(word: u32, i: u8) -> u32
    ensures { result ≡ with_bit word i }
{
    if i < 32 { word | (1 << i) } else { word }
}

// The word with bit i clear.
pub fn without_bit(word: u32, i: u8) -> u32
    ensures { result ≡ without_bit word i }
{
    if i < 32 { word & !(1 << i) } else { word }
}

// Whether each masked bit is as its value says.
pub fn all_match(mask: u32, values: u32, bits: u32) -> bool
    ensures { result ≡ all_match mask values bits }
{
    (bits ^ values) & mask == 0
}

// Whether some masked bit is as its value says.
pub fn any_match(mask: u32, values: u32, bits: u32) -> bool
    ensures { result ≡ any_match mask values bits }
{
    (bits ^ values) & mask != mask
}
