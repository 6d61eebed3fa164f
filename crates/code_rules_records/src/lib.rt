// The state rules of each record by itself, as a test.
#![tactic(auto)]

ghost use Rattle.std.specs.Prelude.{◌≡◌, ◌&&◌, eqb};
ghost use Rattle.spec_rules.specs.Tests.{no_wake, is_no_thread, is_no_semaphore, is_no_message};
ghost use Rattle.spec_rules.specs.Tests.{live_semaphore_kept, semaphore_kept};
ghost use Rattle.code_rules_records.specs.Others.{condition_by, live_thread_by, thread_by, live_message_by, message_by};

use base_bits::sets;
use code_kernel::records::is_flag;
use spec_kernel::records::{Condition, Message, Semaphore, Thread, Wake};
use spec_kernel::sizes;

fn no_wake(w: Wake) -> bool
    ensures { result ≡ no_wake w }
{
    matches!(w, Wake::None)
}

// Every field is 0; a ready condition and no wake reason are 0 too.
fn is_no_thread(r: Thread) -> bool
    ensures { result ≡ is_no_thread r }
{
    r.priority == 0
        && r.first == 0
        && code_kernel::conditions::ready_for(r.condition)
        && r.ticks == 0
        && no_wake(r.wake)
        && r.reply == 0
}

fn is_no_semaphore(r: Semaphore) -> bool
    ensures { result ≡ is_no_semaphore r }
{
    r.count == 0 && r.maximum == 0 && r.ticks == 0 && r.period == 0
}

fn is_no_message(r: Message) -> bool
    ensures { result ≡ is_no_message r }
{
    r.owner == 0 && r.sender == 0 && r.kind == 0 && r.size == 0 && r.address == 0 && r.channel == 0
}

// Whether a semaphore may have waiters: it is live and its count is 0.
pub fn may_have_waiters(r: Semaphore) -> bool
    ensures { result ≡ (r.live && eqb r.count 0) }
{
    r.live && r.count == 0
}

// `waited` has the semaphores, and `untrue` the events, that may have waiters; `flags` those that are live.
fn condition_kept(waited: u64, untrue: u64, flags: u16, ticks: u32, c: Condition) -> bool
    ensures { result ≡ condition_by waited untrue flags ticks c }
{
    match c {
        Condition::Ready => ticks == 0,
        Condition::Asleep => 0 < ticks,
        Condition::ForSemaphore(i) => sets::has(waited, i),
        Condition::ForEvent(i) => sets::has(untrue, i),
        Condition::ForMessage(mask) => 0 < mask && mask <= 32767,
        Condition::ForFlag(i) => is_flag(flags, i),
    }
}

fn live_thread_kept(waited: u64, untrue: u64, flags: u16, r: Thread) -> bool
    ensures { result ≡ live_thread_by waited untrue flags r }
{
    0 < r.priority
        && r.priority <= sizes::PRIORITIES
        && 0 < r.first
        && r.first <= sizes::PRIORITIES
        && (r.reply < sizes::MESSAGE_IDS || r.reply == 255)
        && condition_kept(waited, untrue, flags, r.ticks, r.condition)
}

pub fn thread_kept(waited: u64, untrue: u64, flags: u16, r: Thread) -> bool
    ensures { result ≡ thread_by waited untrue flags r }
{
    if r.live {
        live_thread_kept(waited, untrue, flags, r)
    } else {
        is_no_thread(r)
    }
}

fn live_semaphore_kept(r: Semaphore) -> bool
    ensures { result ≡ live_semaphore_kept r }
{
    0 < r.maximum && r.count <= r.maximum && (r.ticks == 0) == (r.period == 0)
}

pub fn semaphore_kept(r: Semaphore) -> bool
    ensures { result ≡ semaphore_kept r }
{
    if r.live {
        live_semaphore_kept(r)
    } else {
        is_no_semaphore(r)
    }
}

// `owner` is the record of the message's owner, if there is such a thread.
fn live_message_kept(owner: Thread, r: Message) -> bool
    ensures { result ≡ live_message_by owner r }
{
    r.owner < sizes::THREAD_IDS
        && owner.live
        && r.sender < sizes::THREAD_IDS
        && r.channel <= sizes::CHANNELS
        && !code_kernel::conditions::awaits(owner.condition, r.channel)
}

pub fn message_kept(owner: Thread, r: Message) -> bool
    ensures { result ≡ message_by owner r }
{
    if r.live {
        live_message_kept(owner, r)
    } else {
        is_no_message(r)
    }
}
