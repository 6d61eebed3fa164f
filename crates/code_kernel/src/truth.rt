// When an event is TRUE.
ghost use Rattle.std.specs.Prelude.{◌≡◌};
ghost use Rattle.spec_kernel.specs.Truth.{is_true};

use spec_kernel::records::Event;

pub fn is_true(bits: u32, e: Event) -> bool
    ensures { result ≡ is_true bits e }
{
    if e.any {
        base_bits::any_match(e.mask, e.values, bits)
    } else {
        base_bits::all_match(e.mask, e.values, bits)
    }
}
