// A set of numbers below 64 as a word.
ghost use Rattle.std.specs.Prelude.{◌≡◌};
ghost use Rattle.base_bits.specs.Words.{has_bit};
ghost use Rattle.base_bits.specs.Sets.{joined};

// The numbers are below it.
const WIDTH: u8 = 64;

// Whether x is in the set.
pub fn has(set: u64, x: u8) -> bool
    ensures { result ≡ has_bit set x }
{
    x < WIDTH && (set >> x) % 2 == 1
}

// The set with x in it, where it joins; a number above 63 leaves it.
pub fn joined(set: u64, x: usize, joins: bool) -> u64
    ensures { result ≡ joined set x joins }
{
    if joins && x < WIDTH as usize {
        set | (1 << x)
    } else {
        set
    }
}
