// Events and event bits: load, pend, set and clear.
#![tactic(auto)]

ghost use Rattle.std.specs.Prelude.{◌<◌, ◌≡◌, not, ◌&&◌};
ghost use Rattle.base_queue.specs.Lists.{is_empty};
ghost use Rattle.spec_kernel.specs.Sizes.{event_count};
ghost use Rattle.spec_kernel.specs.Places.{nowhere};
ghost use Rattle.spec_kernel.specs.Truth.{is_true};
ghost use Rattle.spec_events.specs.Events.{work_out_from, worked_out, load_event, pend_event};
ghost use Rattle.spec_moves.specs.Standing.{at_home_in};
ghost use Rattle.code_events.specs.Signals.{signalled};

use code_kernel::places;
use code_kernel::truth::is_true;
use code_kernel_find::{by_id, firsts};
use code_moves::states;
use spec_calls::call::Call;
use spec_kernel::records::{Condition, Event, Kernel};
use spec_kernel::sizes;
use spec_moves::parts::Threads;

// Whether the event of home h is TRUE and anybody waits for it: without that, waking its queue would only copy the threads.
fn wakes(p: Threads, h: u16, bits: u32, e: Event) -> bool
    requires { h < nowhere }
    ensures { result ≡ (is_true bits e && not (is_empty (at_home_in p h))) }
{
    is_true(bits, e) && firsts::first_at_home(p.records, p.places, h) != 255
}

// Each TRUE event wakes all its waiters, in id order.
fn worked_in(p: Threads, events: [Event; sizes::EVENTS], bits: u32) -> Threads
    ensures { result ≡ work_out_from events bits 0 event_count p }
{
    let mut next = p;
    for (i, e) in events.iter().enumerate() {
        let h = places::OF_EVENTS + (i as u16);
        if wakes(next, h, bits, *e) {
            next = code_threads::woken_in(next, h);
        }
    }
    next
}

fn worked_out(k: Kernel) -> Kernel
    ensures { result ≡ worked_out k }
{
    states::with_threads(k, worked_in(states::threads_of(k), k.events, k.bits))
}

// Event a with its new data, before events are worked out.
fn loaded(k: Kernel, c: Call) -> Kernel
    ensures { worked_out result ≡ load_event k c }
{
    let mut next = k;
    if c.a < sizes::EVENT_IDS {
        next.events[c.a as usize] = Event {
            any: c.b == 1,
            mask: c.c,
            values: c.d,
        };
    }
    next
}

// The event loaded, or the bit set or cleared.
fn changed(k: Kernel, c: Call) -> Kernel
    ensures { worked_out result ≡ signalled k c }
{
    match c.kind {
        20 => loaded(k, c),
        22 | 29 => Kernel {
            bits: base_bits::with_bit(k.bits, c.a),
            ..k
        },
        _ => Kernel {
            bits: base_bits::without_bit(k.bits, c.a),
            ..k
        },
    }
}

// The kinds after which events are worked out. One place works them out for all: that spares copies of the state.
pub fn signalled(k: Kernel, c: Call) -> Kernel
    ensures { result ≡ signalled k c }
{
    worked_out(changed(k, c))
}

pub fn pend_event(k: Kernel, c: Call) -> Kernel
    ensures { result ≡ pend_event k c }
{
    if is_true(k.bits, by_id::event_at(k.events, c.a)) {
        k
    } else {
        code_threads::block(k, Condition::ForEvent(c.a), c.c)
    }
}
