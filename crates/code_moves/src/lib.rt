// The two moves, over the parts that they touch and over the whole state, and the scheduler.
#![tactic(auto)]

pub mod states;

ghost use Rattle.std.specs.Prelude.{◌≡◌, ℕ, Bool, ltb};
ghost use Rattle.std.specs.Fn.{FnReturnsAt};
ghost use Rattle.base_queue.specs.Queues.{items};
ghost use Rattle.base_queue.specs.Tables.{place_behind};
ghost use Rattle.spec_kernel.specs.Places.{has_home, is_queued};
ghost use Rattle.spec_moves.specs.Moves.{rejoined, ranks_after, wakes_after, post_after, relocate};

use base_queue::Queue;
use code_kernel::places::{has_home, is_queued, rank_of, stream_of};
use code_kernel::records::{no_message, no_thread, record_at};
use spec_kernel::records::{Message, Thread};
use spec_kernel::sizes;
use spec_moves::parts::Threads;

// How many stand before the first that comes after: there one joins, behind its equals.
fn place_behind<F: Fn(&u8) -> bool>(q: &Queue, after: F) -> usize
    requires { F.IsAlwaysCallable after }
    ensures { (test : ℕ → Bool) → ((x : ℕ) (b : Bool) → FnReturnsAt F.Fn after x b → b ≡ test x)
        → result ≡ place_behind test (items q.now) }
{
    let members = q.members();
    members.iter().position(after).unwrap_or(members.len())
}

// The queue with `id` before the first that comes after it, or gone where it doesn't stay.
fn rejoined<F: Fn(&u8) -> bool>(q: Queue, id: u8, stays: bool, after: F) -> Queue
    requires { F.IsAlwaysCallable after }
    ensures { (test : ℕ → Bool) → ((x : ℕ) (b : Bool) → FnReturnsAt F.Fn after x b → b ≡ test x)
        → result ≡ rejoined stays test id q }
{
    let out = base_queue::without(q, id);
    if !stays {
        return out;
    }
    let i = place_behind(&out, after);
    base_queue::with_at(out, i, id)
}

// The places with thread `id` behind its equals in the list or queue of record r, or gone where r has none.
fn rejoined_places(records: &[Thread], q: Queue, id: u8, r: Thread) -> Queue
    ensures { result ≡ rejoined (has_home r) (ranks_after records.now r) id q }
{
    let rank = rank_of(r);
    rejoined(
        q,
        id,
        has_home(r),
        |&u| rank < rank_of(record_at(records, u as usize, no_thread())),
    )
}

// The time queue with thread `id` behind those that wake with it or before it, or gone where r has no ticks left.
fn rejoined_time(records: &[Thread], q: Queue, id: u8, r: Thread) -> Queue
    ensures { result ≡ rejoined (ltb 0 r.ticks) (wakes_after records.now r) id q }
{
    rejoined(
        q,
        id,
        0 < r.ticks,
        |&u| r.ticks < record_at(records, u as usize, no_thread()).ticks,
    )
}

// The posted messages with message `id` last in the channel of record r, or gone where r is held.
pub fn rejoined_posts(records: [Message; sizes::MESSAGES], q: Queue, id: u8, r: Message) -> Queue
    ensures { result ≡ rejoined (is_queued r) (post_after records r) id q }
{
    let stream = stream_of(r);
    rejoined(
        q,
        id,
        is_queued(r),
        |&m| stream < stream_of(record_at(&records, m as usize, no_message())),
    )
}

// Thread `id` gets the record r and takes its places.
pub fn relocated(p: Threads, id: u8, r: Thread) -> Threads
    ensures { result ≡ relocate id r p }
{
    if sizes::THREAD_IDS <= id {
        return p;
    }
    let i = id as usize;
    let old = p.records[i];
    let mut next = p;
    next.records[i] = r;
    next.places = rejoined_places(&p.records, p.places, id, r);
    if old.ticks != r.ticks {
        next.time = rejoined_time(&p.records, p.time, id, r);
    }
    next
}
