// A tick: time-outs and sleepers, then the periodic semaphores.
#![tactic(auto)]

ghost use Rattle.std.specs.Prelude.{◌≡◌, map};
ghost use Rattle.spec_moves.specs.States.{each};
ghost use Rattle.code_semaphores.specs.Waiting.{Does};
ghost use Rattle.spec_kernel.specs.Sizes.{semaphore_count};
ghost use Rattle.spec_time.specs.Time.{later, reason_at, time_up, due, aged, time_passes, pulse, pulse_from, tick};

use code_kernel::records::{no_thread, record_at};
use code_kernel_find::by_id;
use code_moves::states;
use code_semaphores::waiting::Waiting;
use code_semaphores::{semaphores, waiting};
use spec_calls::call::Call;
use spec_kernel::records::{Condition, Kernel, Object, Thread, Wake};
use spec_kernel::sizes;
use spec_moves::parts::Threads;

fn reason_at(c: Condition) -> Wake
    ensures { result ≡ reason_at c }
{
    match c {
        Condition::Ready | Condition::Asleep => Wake::Met,
        Condition::ForSemaphore(_) => Wake::TimedOut(Object::Semaphore),
        Condition::ForEvent(_) => Wake::TimedOut(Object::Event),
        Condition::ForMessage(_) => Wake::TimedOut(Object::Message),
        Condition::ForFlag(_) => Wake::TimedOut(Object::Flag),
    }
}

// Thread t's time is up.
fn time_up(p: Threads, t: u8) -> Threads
    ensures { result ≡ time_up t p }
{
    let r = by_id::thread_at(p.records, t as u16);
    code_threads::woken(p, t, reason_at(r.condition))
}

// Those whose last tick this is wake, in time queue order.
fn due_woken(p: Threads) -> Threads
    ensures { result ≡ each time_up (due p) p }
{
    let mut next = p;
    for &t in p.time.members() {
        if record_at(&p.records, t as usize, no_thread()).ticks == 1 {
            next = time_up(next, t);
        }
    }
    next
}

fn aged(r: Thread) -> Thread
    ensures { result ≡ aged r }
{
    Thread {
        ticks: r.ticks.saturating_sub(1),
        ..r
    }
}

// Every thread with ticks left loses one. A loop, since `map` takes several times as long, and each tick goes through here.
fn aged_records(threads: [Thread; sizes::THREADS]) -> [Thread; sizes::THREADS]
    ensures { result ≡ map aged threads }
{
    let mut next = threads;
    for t in 0..sizes::THREADS {
        next[t] = aged(threads[t]);
    }
    next
}

fn time_passes(p: Threads) -> Threads
    ensures { result ≡ time_passes p }
{
    let woken = due_woken(p);
    let records = aged_records(woken.records);
    Threads { records, ..woken }
}

// Semaphore i, where it is periodic, has a tick less; with its last one it is posted and its period begins again.
fn pulse(w: Waiting, i: u8) -> Waiting
    ensures { Does (pulse i) w result }
{
    let r = by_id::semaphore_at(w.semaphores, i);
    if r.period == 0 {
        return w;
    }
    if r.ticks == 1 {
        let next = semaphores::post(w, i);
        let s = by_id::semaphore_at(next.semaphores, i);
        return waiting::stored(next, i, semaphores::with_ticks(s, r.period, r.period));
    }
    waiting::stored(
        w,
        i,
        semaphores::with_ticks(r, r.ticks.saturating_sub(1), r.period),
    )
}

// The periodic semaphores in id order.
fn pulses(w: Waiting) -> Waiting
    ensures { Does (pulse_from 0 semaphore_count) w result }
{
    let mut next = w;
    for i in 0..sizes::SEMAPHORE_IDS {
        if next.semaphores[i as usize].period != 0 {
            next = pulse(next, i);
        }
    }
    next
}

// A full uptime goes back to 0.
fn later(uptime: u32) -> u32
    ensures { result ≡ later uptime }
{
    uptime.wrapping_add(1)
}

pub fn tick(k: Kernel, c: Call) -> Kernel
    ensures { result ≡ tick k c }
{
    // In a variable first: the borrow checker covers no array field that goes straight into a literal.
    let semaphores = k.semaphores;
    let w = Waiting {
        threads: time_passes(states::threads_of(k)),
        semaphores,
    };
    Kernel {
        uptime: later(k.uptime),
        ..waiting::with_waiting(k, pulses(w))
    }
}
