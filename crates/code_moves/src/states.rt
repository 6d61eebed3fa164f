// The two moves over the whole state, and the scheduler.
ghost use Rattle.std.specs.Prelude.{◌≡◌};
ghost use Rattle.spec_moves.specs.States.{with_threads, move_thread, move_message, scheduled};
ghost use Rattle.spec_moves.specs.Standing.{threads_of};

use code_kernel::runner::chosen;
use spec_kernel::records::{Kernel, Message, Thread};
use spec_kernel::sizes::MESSAGE_IDS;
use spec_moves::parts::Threads;

// The part that threads move in.
pub fn threads_of(k: Kernel) -> Threads
    ensures { result ≡ threads_of k }
{
    // In a variable first: the borrow checker covers no array field that goes straight into a literal.
    let records = k.threads;
    Threads {
        records,
        places: k.places,
        time: k.time,
    }
}

// The state with that part put anew.
pub fn with_threads(k: Kernel, p: Threads) -> Kernel
    ensures { result ≡ with_threads p k }
{
    // In a variable first, as above.
    let threads = p.records;
    Kernel {
        threads,
        places: p.places,
        time: p.time,
        ..k
    }
}

// Thread `id` gets the record r and takes its places.
pub fn placed(k: Kernel, id: u8, r: Thread) -> Kernel
    ensures { result ≡ move_thread id r k }
{
    with_threads(k, crate::relocated(threads_of(k), id, r))
}

// Message `id` gets the record r and takes its place.
pub fn filed(k: Kernel, id: u8, r: Message) -> Kernel
    ensures { result ≡ move_message id r k }
{
    if MESSAGE_IDS <= id {
        return k;
    }
    let i = id as usize;
    let mut next = k;
    next.messages[i] = r;
    next.posted = crate::rejoined_posts(k.messages, k.posted, id, r);
    next
}

// Outside every region the scheduler says who runs.
pub fn scheduled(k: Kernel) -> Kernel
    ensures { result ≡ scheduled k }
{
    if k.unscheduled != 0 || k.critical != 0 {
        return k;
    }
    Kernel {
        runner: chosen(k),
        ..k
    }
}
