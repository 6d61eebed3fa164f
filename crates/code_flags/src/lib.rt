// Device flags: create, destroy, pend and post.
#![tactic(auto)]

ghost use Rattle.std.specs.Prelude.{◌≡◌};
ghost use Rattle.spec_flags.specs.Flags.{create_flag, destroy_flag, pend_flag, post_flag};

use code_kernel::places;
use code_kernel_find::free;
use code_moves::states;
use spec_calls::call::Call;
use spec_kernel::records::{Condition, Kernel};

pub fn create_flag(k: Kernel, c: Call) -> Kernel
    ensures { result ≡ create_flag k c }
{
    let i = free::free_flag(k.flags);
    Kernel {
        flags: base_bits::with_bit(k.flags as u32, i) as u16,
        ..k
    }
}

pub fn destroy_flag(k: Kernel, c: Call) -> Kernel
    ensures { result ≡ destroy_flag k c }
{
    Kernel {
        flags: base_bits::without_bit(k.flags as u32, c.a) as u16,
        ..k
    }
}

// The critical region ends before the caller blocks: no thread waits inside one.
pub fn pend_flag(k: Kernel, c: Call) -> Kernel
    ensures { result ≡ pend_flag k c }
{
    let out = code_regions::pop_critical(k, c);
    code_threads::block(out, Condition::ForFlag(c.a), c.c)
}

pub fn post_flag(k: Kernel, c: Call) -> Kernel
    ensures { result ≡ post_flag k c }
{
    let h = places::OF_FLAGS + (c.a as u16);
    states::with_threads(k, code_threads::woken_in(states::threads_of(k), h))
}
