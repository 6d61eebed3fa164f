// The part of the state that a post touches. It goes in and out where the ticks post, so that the rest of the state isn't copied.
ghost use Rattle.std.specs.Prelude.{◌≡◌};
ghost use Rattle.code_semaphores.specs.Waiting.{waiting_of, with_waiting, storing};

use code_moves::states;
use spec_kernel::records::{Kernel, Semaphore};
use spec_kernel::sizes;
use spec_moves::parts::Threads;

#[derive(Clone, Copy)]
pub struct Waiting {
    pub threads: Threads,
    pub semaphores: [Semaphore; sizes::SEMAPHORES],
}

pub fn waiting_of(k: Kernel) -> Waiting
    ensures { result ≡ waiting_of k }
{
    // In a variable first: the borrow checker covers no array field that goes straight into a literal.
    let semaphores = k.semaphores;
    Waiting {
        threads: states::threads_of(k),
        semaphores,
    }
}

// The state with that part put anew.
pub fn with_waiting(k: Kernel, w: Waiting) -> Kernel
    ensures { result ≡ with_waiting w k }
{
    // In a variable first, as above.
    let semaphores = w.semaphores;
    Kernel {
        semaphores,
        ..states::with_threads(k, w.threads)
    }
}

// Semaphore i gets the record r.
pub fn stored(w: Waiting, i: u8, r: Semaphore) -> Waiting
    ensures { result ≡ storing i r w }
{
    let mut next = w;
    if i < sizes::SEMAPHORE_IDS {
        next.semaphores[i as usize] = r;
    }
    next
}
