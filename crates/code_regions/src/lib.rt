// The two levels: push, pop and pop all.
#![tactic(auto)]

ghost use Rattle.std.specs.Prelude.{◌≡◌};
ghost use Rattle.spec_regions.specs.Regions.{push_unscheduled, pop_unscheduled, pop_all_unscheduled, push_critical, pop_critical, pop_all_critical};

use spec_calls::call::Call;
use spec_kernel::records::Kernel;

pub fn push_unscheduled(k: Kernel, c: Call) -> Kernel
    ensures { result ≡ push_unscheduled k c }
{
    Kernel {
        unscheduled: k.unscheduled.saturating_add(1),
        ..k
    }
}

pub fn pop_unscheduled(k: Kernel, c: Call) -> Kernel
    ensures { result ≡ pop_unscheduled k c }
{
    Kernel {
        unscheduled: k.unscheduled.saturating_sub(1),
        ..k
    }
}

pub fn pop_all_unscheduled(k: Kernel, c: Call) -> Kernel
    ensures { result ≡ pop_all_unscheduled k c }
{
    Kernel {
        unscheduled: 0,
        ..k
    }
}

pub fn push_critical(k: Kernel, c: Call) -> Kernel
    ensures { result ≡ push_critical k c }
{
    Kernel {
        critical: k.critical.saturating_add(1),
        ..k
    }
}

pub fn pop_critical(k: Kernel, c: Call) -> Kernel
    ensures { result ≡ pop_critical k c }
{
    Kernel {
        critical: k.critical.saturating_sub(1),
        ..k
    }
}

pub fn pop_all_critical(k: Kernel, c: Call) -> Kernel
    ensures { result ≡ pop_all_critical k c }
{
    Kernel { critical: 0, ..k }
}
