// Bytes and numbers that are read from any place of a slice: past its end there is 0.
ghost use Rattle.std.specs.Prelude.{◌≡◌, min, get_or, drop};
ghost use Rattle.base_bytes.specs.Bytes.{un, begins};

// The byte at a place.
pub fn byte_at(s: &[u8], at: usize) -> u8
    ensures { result ≡ get_or s.now at 0 }
{
    s.get(at).copied().unwrap_or(0)
}

// The number in w bytes from a place on; of more than four bytes, in the first four.
pub fn number_at(s: &[u8], at: usize, w: usize) -> u32
    ensures { result ≡ un (min w 4) (drop at s.now) }
{
    let start = at.min(s.len());
    let mut x: u32 = 0;
    for i in (0..w.min(4)).rev() {
        x = 256 * x + u32::from(byte_at(s, start + i));
    }
    x
}

// Whether these bytes stand at a place.
pub fn same_bytes(s: &[u8], at: usize, bytes: &[u8]) -> bool
    ensures { result ≡ begins bytes.now (drop at s.now) }
{
    s[at.min(s.len())..].starts_with(bytes)
}

// The lesser of the two.
pub fn least(a: usize, b: usize) -> usize
    ensures { result ≡ min a b }
{
    a.min(b)
}
