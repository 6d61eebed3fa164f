// A number as far as four bytes go.
ghost use Rattle.std.specs.Prelude.{◌≡◌, ◌%◌};

// What four bytes hold of a word is all of it.
pub fn word(x: u32) -> u32
    ensures { result ≡ x % 4294967296 }
{
    x
}
