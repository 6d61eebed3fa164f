// What the programs share: lines of decimal numbers in a lent buffer, and input that fills one.
#![tactic(auto)]

pub mod input;

ghost use Rattle.std.specs.Prelude.{◌≡◌, ◌≤◌, cond, [], ◌∷◌, ◌++◌, take, drop};
ghost use Rattle.base_bytes.specs.Pens.{pen, puts};
ghost use Rattle.base_lines.specs.Lines.{decimal, line, spelt_behind};

use base_bytes::pens;

// The decimal digits of n, at the end of the room for them; where they begin.
fn put_digits(n: u64, digits: &mut [u8; 20]) -> usize
    ensures fits { result ≤ 20 }
    ensures digits { drop result digits.new ≡ decimal n }
    ensures whole { spelt_behind 0 (drop result digits.new) ≡ n }
{
    let mut rest = n;
    for i in (0..20).rev() {
        digits[i] = b'0' + (rest % 10) as u8;
        if rest < 10 {
            return i;
        }
        rest /= 10;
    }
    0
}

// The decimal digits of n, and then the byte that ends them.
fn put_number(out: &mut [u8], at: usize, n: u64, end: u8) -> usize
    ensures { pen out.new result ≡ puts (pen out.old at) (decimal n ++ (end ∷ [])) }
{
    let mut digits = [0u8; 20];
    let first = put_digits(n, &mut digits);
    let p = pens::put_all(out, at, &digits[first..]);
    pens::put_byte(out, p, end)
}

// What ends a number: a newline behind the last of a line, else a blank.
fn end_of(last: bool) -> u8
    ensures { result ≡ cond last 10 32 }
{
    if last { b'\n' } else { b' ' }
}

// The numbers on a line, written at a place; the next place.
pub fn put_line(out: &mut [u8], at: usize, numbers: &[u64]) -> usize
    ensures { pen out.new result ≡ puts (pen out.old at) (line numbers.now) }
{
    let mut p = at;
    for (i, n) in numbers.iter().enumerate() {
        p = put_number(out, p, *n, end_of(i + 1 == numbers.len()));
    }
    p
}

// The bytes in front of `end`.
pub fn up_to(bytes: &[u8], end: usize) -> &[u8]
    ensures { result.now ≡ take end bytes.now }
{
    if end <= bytes.len() {
        &bytes[..end]
    } else {
        bytes
    }
}
