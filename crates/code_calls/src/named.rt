// What a call names, looked up once.
ghost use Rattle.std.specs.Prelude.{◌≡◌, ◌&&◌, cond};
ghost use Rattle.spec_kernel.specs.Places.{home};
ghost use Rattle.spec_kernel.specs.Records.{no_semaphore, no_message};
ghost use Rattle.spec_kernel.specs.Truth.{is_true};
ghost use Rattle.spec_calls.specs.Kinds.{kind_of, names, id_named, is_which};
ghost use Rattle.spec_refusals.specs.Named.{class_by, waiter_by, value_of, named};

use crate::kinds;
use crate::kinds::Ruled;
use code_kernel::places::{OF_FLAGS, OF_SEMAPHORES};
use code_kernel::records::{is_flag, no_message, no_semaphore};
use code_kernel::truth;
use code_kernel_find::{by_id, firsts, free};
use spec_calls::call::Call;
use spec_calls::kinds::Which;
use spec_kernel::records::{Kernel, Message, Semaphore};
use spec_refusals::named::Named;

// The queue of what may have waiters: of the flag that the call names, else of the semaphore.
fn home_by(r: Ruled) -> u16
    ensures { result ≡ home (class_by r.call) r.call.a }
{
    let class = if kinds::names(r.row.flag) {
        OF_FLAGS
    } else {
        OF_SEMAPHORES
    };
    class + r.call.a as u16
}

// The first that waits for semaphore or flag a, of the kinds that a waiter stops or that wake one, else 255.
#[tactic(auto, unfolding(spec_refusals::specs::Named::waiter_by))]
fn waiter_by(k: Kernel, r: Ruled) -> u8
    ensures { result ≡ waiter_by k r.call }
{
    if r.row.thread == Which::Waiter {
        firsts::first_at_home(k.threads, k.places, home_by(r))
    } else {
        255
    }
}

// The id that a create will give, or the message that a pend takes, else 255.
#[tactic(auto, unfolding(spec_refusals::specs::Named::value_of))]
fn value_of(k: Kernel, r: Ruled) -> u8
    ensures { result ≡ value_of k r.call }
{
    let row = r.row;
    if row.thread == Which::New {
        free::free_thread(k.threads)
    } else if row.semaphore == Which::New {
        free::free_semaphore(k.semaphores)
    } else if row.message == Which::New {
        free::free_message(k.messages)
    } else if row.message == Which::Taken {
        firsts::next_message(k.messages, k.posted, k.runner, r.call.b)
    } else if row.flag == Which::New {
        free::free_flag(k.flags)
    } else {
        255
    }
}

// Whether the thread that it names is live.
#[tactic(auto, unfolding(spec_refusals::specs::Named::named))]
fn thread_by(k: Kernel, r: Ruled) -> bool
    ensures { result ≡ (named k r.call).thread }
{
    kinds::names(r.row.thread)
        && by_id::thread_at(k.threads, kinds::id_named(r.row.thread, r.call)).live
}

#[tactic(auto, unfolding(spec_refusals::specs::Named::named))]
fn semaphore_by(k: Kernel, r: Ruled) -> Semaphore
    ensures { result ≡ (named k r.call).semaphore }
{
    if kinds::names(r.row.semaphore) {
        by_id::semaphore_at(k.semaphores, r.call.a)
    } else {
        no_semaphore()
    }
}

#[tactic(auto, unfolding(spec_refusals::specs::Named::named))]
fn message_by(k: Kernel, r: Ruled) -> Message
    ensures { result ≡ (named k r.call).message }
{
    if kinds::names(r.row.message) {
        by_id::message_at(k.messages, r.call.a)
    } else {
        no_message()
    }
}

// Whether the event that it names is TRUE.
#[tactic(auto, unfolding(spec_refusals::specs::Named::named))]
fn truth_by(k: Kernel, r: Ruled) -> bool
    ensures { result ≡ (named k r.call).truth }
{
    r.row.event == Which::A && truth::is_true(k.bits, by_id::event_at(k.events, r.call.a))
}

#[tactic(auto, unfolding(spec_refusals::specs::Named::named))]
fn flag_by(k: Kernel, r: Ruled) -> bool
    ensures { result ≡ (named k r.call).flag }
{
    kinds::names(r.row.flag) && is_flag(k.flags, r.call.a)
}

#[tactic(auto, unfolding(spec_refusals::specs::Named::named))]
pub fn named_by(k: Kernel, c: Call) -> Named
    ensures { result ≡ named k c }
{
    let r = kinds::with_row(c);
    Named {
        semaphore: semaphore_by(k, r),
        message: message_by(k, r),
        thread: thread_by(k, r),
        truth: truth_by(k, r),
        waiter: waiter_by(k, r),
        found: value_of(k, r),
        flag: flag_by(k, r),
    }
}
