// What the row of a call's kind says of the call. It is looked up once for all of them.
ghost use Rattle.std.specs.Prelude.{◌≡◌};
ghost use Rattle.spec_calls.specs.Kinds.{is_known, unused_are_zero, from_interrupt, from_thread};

use code_calls::kinds::Ruled;
use spec_calls::call::Call;
use spec_calls::kinds::{Caller, LAST_KIND};

#[tactic(auto, unfolding(spec_calls::specs::Kinds::is_known))]
pub fn is_known(c: Call) -> bool
    ensures { result ≡ is_known c }
{
    0 < c.kind && c.kind <= LAST_KIND
}

// Whether each field that the kind doesn't use is 0.
#[tactic(auto, unfolding(spec_calls::specs::Kinds::unused_are_zero))]
pub(crate) fn unused_are_zero(r: Ruled) -> bool
    ensures { result ≡ unused_are_zero r.call }
{
    let used = r.row.used;
    let c = r.call;
    (used % 2 == 1 || c.a == 0)
        && (used / 2 % 2 == 1 || c.b == 0)
        && (used / 4 % 2 == 1 || c.c == 0)
        && (used / 8 % 2 == 1 || c.d == 0)
        && c.e == 0
}

#[tactic(auto, unfolding(spec_calls::specs::Kinds::from_interrupt))]
pub(crate) fn from_interrupt(r: Ruled) -> bool
    ensures { result ≡ from_interrupt r.call }
{
    r.row.caller == Caller::Interrupt
}

#[tactic(auto, unfolding(spec_calls::specs::Kinds::from_thread))]
pub(crate) fn from_thread(r: Ruled) -> bool
    ensures { result ≡ from_thread r.call }
{
    r.row.caller == Caller::Thread
}
