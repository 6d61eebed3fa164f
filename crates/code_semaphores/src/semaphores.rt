// Semaphores: create, destroy, periodic, pend and post.
ghost use Rattle.std.specs.Prelude.{◌≡◌, cond};
ghost use Rattle.spec_moves.specs.States.{with_semaphore};
ghost use Rattle.code_semaphores.specs.Waiting.{Does};
ghost use Rattle.spec_semaphores.specs.Semaphores.{with_count, with_ticks, create_semaphore, destroy_semaphore, make_periodic};
ghost use Rattle.spec_semaphores.specs.Semaphores.{remove_periodic, pend_semaphore, raised, post, post_semaphore};

use crate::waiting;
use crate::waiting::Waiting;
use code_kernel::places::OF_SEMAPHORES;
use code_kernel::records::no_semaphore;
use code_kernel_find::{by_id, firsts, free};
use code_moves::states;
use spec_calls::call::Call;
use spec_kernel::records::{Condition, Kernel, Semaphore, Wake};
use spec_kernel::sizes::SEMAPHORE_IDS;

pub fn with_semaphore(k: Kernel, i: u8, r: Semaphore) -> Kernel
    ensures { result ≡ with_semaphore i r k }
{
    let mut next = k;
    if i < SEMAPHORE_IDS {
        next.semaphores[i as usize] = r;
    }
    next
}

fn with_count(r: Semaphore, n: u16) -> Semaphore
    ensures { result ≡ with_count n r }
{
    Semaphore { count: n, ..r }
}

pub fn with_ticks(r: Semaphore, ticks: u32, period: u32) -> Semaphore
    ensures { result ≡ with_ticks ticks period r }
{
    Semaphore { ticks, period, ..r }
}

pub fn create_semaphore(k: Kernel, c: Call) -> Kernel
    ensures { result ≡ create_semaphore k c }
{
    let i = free::free_semaphore(k.semaphores);
    let r = Semaphore {
        live: true,
        count: c.b,
        maximum: (c.c % 65536) as u16,
        ticks: 0,
        period: 0,
    };
    with_semaphore(k, i, r)
}

pub fn destroy_semaphore(k: Kernel, c: Call) -> Kernel
    ensures { result ≡ destroy_semaphore k c }
{
    with_semaphore(k, c.a, no_semaphore())
}

pub fn make_periodic(k: Kernel, c: Call) -> Kernel
    ensures { result ≡ make_periodic k c }
{
    let r = by_id::semaphore_at(k.semaphores, c.a);
    with_semaphore(k, c.a, with_ticks(r, c.c, c.d))
}

pub fn remove_periodic(k: Kernel, c: Call) -> Kernel
    ensures { result ≡ remove_periodic k c }
{
    let r = by_id::semaphore_at(k.semaphores, c.a);
    with_semaphore(k, c.a, with_ticks(r, 0, 0))
}

pub fn pend_semaphore(k: Kernel, c: Call) -> Kernel
    ensures { result ≡ pend_semaphore k c }
{
    let r = by_id::semaphore_at(k.semaphores, c.a);
    if 0 < r.count {
        with_semaphore(k, c.a, with_count(r, r.count - 1))
    } else {
        code_threads::block(k, Condition::ForSemaphore(c.a), c.c)
    }
}

// The record after a post: the count stays where a waiter wakes; else it goes up by one, but not past the maximum.
fn counted(r: Semaphore, wakes: bool) -> Semaphore
    ensures { result ≡ cond wakes r (raised r) }
{
    if !wakes && r.count < r.maximum {
        with_count(r, r.count + 1)
    } else {
        r
    }
}

// The first waiter wakes; without waiters the count goes up.
pub fn post(w: Waiting, i: u8) -> Waiting
    ensures { Does (post i) w result }
{
    let p = w.threads;
    let first = firsts::first_at_home(p.records, p.places, OF_SEMAPHORES + (i as u16));
    let wakes = first != 255;
    let next = waiting::stored(w, i, counted(by_id::semaphore_at(w.semaphores, i), wakes));
    if first == 255 {
        return next;
    }
    Waiting {
        threads: code_threads::woken(p, first, Wake::Met),
        ..next
    }
}

pub fn post_semaphore(k: Kernel, c: Call) -> Kernel
    ensures { result ≡ post_semaphore k c }
{
    waiting::with_waiting(k, post(waiting::waiting_of(k), c.a))
}
