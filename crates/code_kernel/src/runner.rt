// Who runs when no region is held.
ghost use Rattle.std.specs.Prelude.{◌≡◌, cond, ltb};
ghost use Rattle.spec_kernel.specs.Conditions.{of_semaphores};
ghost use Rattle.spec_kernel.specs.Places.{home, home_of};
ghost use Rattle.spec_kernel.specs.Runner.{chosen};
ghost use Rattle.code_kernel.specs.RunnerOf.{runner_of};

use crate::places;
use crate::records::{no_thread, record_at};
use spec_kernel::records::{Kernel, Thread};

// The first place, where it is in a ready list; else nobody.
pub fn chosen(k: Kernel) -> u8
    ensures { result ≡ chosen k }
{
    let first = base_queue::first(k.places);
    if_ready(first, record_at(&k.threads, first as usize, no_thread()))
}

// Who runs, from the levels, who ran, the first place and its record.
pub fn runner_of(unscheduled: u8, critical: u8, runner: u8, first: u8, its: Thread) -> u8
    ensures { result ≡ runner_of unscheduled critical runner first its }
{
    if unscheduled != 0 || critical != 0 {
        runner
    } else {
        if_ready(first, its)
    }
}

// The first place, where its record is in a ready list.
fn if_ready(first: u8, its: Thread) -> u8
    ensures { result ≡ cond (ltb (home_of its) (home of_semaphores 0)) first 255 }
{
    if places::home_of(its) < places::OF_SEMAPHORES {
        first
    } else {
        255
    }
}
