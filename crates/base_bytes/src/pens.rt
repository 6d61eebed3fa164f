// A pen on a lent log: each function writes at a place, and answers the next place. A full log drops bytes.
ghost use Rattle.std.specs.Prelude.{◌≡◌};
ghost use Rattle.base_bytes.specs.Bytes.{le};
ghost use Rattle.base_bytes.specs.Pens.{pen, put, puts};

// One byte.
pub fn put_byte(log: &mut [u8], at: usize, b: u8) -> usize
    ensures { pen log.new result ≡ put (pen log.old at) b }
{
    if at < log.len() {
        log[at] = b;
        at + 1
    } else {
        at
    }
}

// The w lowest bytes of x, lowest first.
pub fn put_number(log: &mut [u8], at: usize, w: usize, x: u32) -> usize
    ensures { pen log.new result ≡ puts (pen log.old at) (le w x) }
{
    let mut p = at;
    let mut rest = x;
    for _ in 0..w {
        p = put_byte(log, p, (rest % 256) as u8);
        rest /= 256;
    }
    p
}

// Bytes as they stand, as many as there is room for.
pub fn put_all(log: &mut [u8], at: usize, bytes: &[u8]) -> usize
    ensures { pen log.new result ≡ puts (pen log.old at) bytes.now }
{
    if log.len() <= at {
        return at;
    }
    let n = bytes.len().min(log.len() - at);
    log[at..at + n].copy_from_slice(&bytes[..n]);
    at + n
}
