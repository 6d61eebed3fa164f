// Threads' lives: create, destroy, block, wake, yield, sleep, and priorities.
#![tactic(auto)]

ghost use Rattle.std.specs.Prelude.{◌≡◌, map, not, get_or};
ghost use Rattle.base_queue.specs.Lists.{keep};
ghost use Rattle.base_queue.specs.Queues.{items, pack};
ghost use Rattle.spec_kernel.specs.Records.{no_message};
ghost use Rattle.spec_moves.specs.Moves.{relocate, thread_in};
ghost use Rattle.spec_threads.specs.Threads.{born, blocked, awake, with_priority, block, woken_in, create_thread, owns};
ghost use Rattle.spec_threads.specs.Threads.{freed_from, free_messages, destroy_thread, set_priority, reset_priority, yielded, sleep};

use base_queue::{CAPACITY, Queue};
use code_kernel::places::home_of;
use code_kernel::records::{no_message, no_thread, record_at};
use code_kernel_find::{by_id, free};
use code_moves::states;
use spec_calls::call::Call;
use spec_kernel::records::{Condition, Kernel, Message, Thread, Wake};
use spec_kernel::sizes;
use spec_moves::parts::Threads;

// A new thread's record.
fn born(priority: u8) -> Thread
    ensures { result ≡ born priority }
{
    Thread {
        live: true,
        priority,
        first: priority,
        condition: Condition::Ready,
        ticks: 0,
        wake: Wake::None,
        reply: 255,
    }
}

// The record of a thread that blocks or sleeps.
fn blocked(r: Thread, condition: Condition, timeout: u32) -> Thread
    ensures { result ≡ blocked condition timeout r }
{
    Thread {
        condition,
        ticks: timeout,
        wake: Wake::None,
        reply: 255,
        ..r
    }
}

// The record of a thread that wakes.
pub fn awake(r: Thread, why: Wake, reply: u8) -> Thread
    ensures { result ≡ awake why reply r }
{
    Thread {
        condition: Condition::Ready,
        ticks: 0,
        wake: why,
        reply,
        ..r
    }
}

fn with_priority(r: Thread, priority: u8) -> Thread
    ensures { result ≡ with_priority priority r }
{
    Thread { priority, ..r }
}

// The running thread blocks.
pub fn block(k: Kernel, condition: Condition, timeout: u32) -> Kernel
    ensures { result ≡ block condition timeout k }
{
    let r = by_id::thread_at(k.threads, k.runner as u16);
    states::placed(k, k.runner, blocked(r, condition, timeout))
}

// Thread t wakes for the reason `why`.
pub fn woken(p: Threads, t: u8, why: Wake) -> Threads
    ensures { result ≡ relocate t (awake why (thread_in p t).reply (thread_in p t)) p }
{
    let r = by_id::thread_at(p.records, t as u16);
    code_moves::relocated(p, t, awake(r, why, r.reply))
}

// Everybody whose home is h wakes, in the order of the table: the one place that empties a queue.
pub fn woken_in(p: Threads, h: u16) -> Threads
    ensures { result ≡ woken_in h p }
{
    let mut next = p;
    for &t in p.places.members() {
        if home_of(record_at(&p.records, t as usize, no_thread())) == h {
            next = woken(next, t, Wake::Met);
        }
    }
    next
}

pub fn create_thread(k: Kernel, c: Call) -> Kernel
    ensures { result ≡ create_thread k c }
{
    states::placed(k, free::free_thread(k.threads), born(c.a))
}

fn owns(t: u8, r: Message) -> bool
    ensures { result ≡ owns t r }
{
    r.live && r.owner == t
}

// The message, or none where thread t owns it.
fn freed_from(t: u8, r: Message) -> Message
    ensures { result ≡ freed_from t r }
{
    if owns(t, r) { no_message() } else { r }
}

// The next two go over a table, and are functions of their own in the program too, as `lowest_free` of code_kernel_find is.
// Every message that thread t owns is freed,
#[inline(never)]
fn freed_records(messages: [Message; sizes::MESSAGES], t: u8) -> [Message; sizes::MESSAGES]
    ensures { result ≡ map (freed_from t) messages }
{
    messages.map(|r| freed_from(t, r))
}

// and leaves its channel.
#[inline(never)]
fn freed_posts(messages: [Message; sizes::MESSAGES], posted: Queue, t: u8) -> Queue
    ensures { result ≡ pack (keep (λ m. not (owns t (get_or messages m no_message))) (items posted)) }
{
    let mut rest = base_queue::empty();
    for &m in posted.members() {
        if !owns(t, record_at(&messages, m as usize, no_message())) {
            rest.push(m);
        }
    }
    rest
}

fn free_messages(k: Kernel, t: u8) -> Kernel
    ensures { result ≡ free_messages t k }
{
    let messages = freed_records(k.messages, t);
    let posted = freed_posts(k.messages, k.posted, t);
    Kernel {
        messages,
        posted,
        ..k
    }
}

pub fn destroy_thread(k: Kernel, c: Call) -> Kernel
    ensures { result ≡ destroy_thread k c }
{
    states::placed(free_messages(k, c.a), c.a, no_thread())
}

pub fn set_priority(k: Kernel, c: Call) -> Kernel
    ensures { result ≡ set_priority k c }
{
    let r = by_id::thread_at(k.threads, c.a as u16);
    states::placed(k, c.a, with_priority(r, (c.b % 256) as u8))
}

pub fn reset_priority(k: Kernel, c: Call) -> Kernel
    ensures { result ≡ reset_priority k c }
{
    let r = by_id::thread_at(k.threads, c.a as u16);
    states::placed(k, c.a, with_priority(r, r.first))
}

pub fn yielded(k: Kernel, c: Call) -> Kernel
    ensures { result ≡ yielded k c }
{
    let r = by_id::thread_at(k.threads, k.runner as u16);
    states::placed(k, k.runner, r)
}

pub fn sleep(k: Kernel, c: Call) -> Kernel
    ensures { result ≡ sleep k c }
{
    block(k, Condition::Asleep, c.c)
}
