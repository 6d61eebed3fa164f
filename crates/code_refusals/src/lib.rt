// The refusals in table order, over what a call names.
#![tactic(auto)]

ghost use Rattle.std.specs.Prelude.{◌≡◌, ◌&&◌, not, leb};
ghost use Rattle.spec_calls.specs.Kinds.{names, is_which};
ghost use Rattle.spec_refusals.specs.Numbers.{number, number_in};
ghost use Rattle.spec_refusals.specs.Refusals.{outside, unknown, interrupts_off, no_caller, is_in_channel, not_owner, not_periodic, bad_number, bad_id, pops_nothing, stops_caller, blocks_in_region, none_free};
ghost use Rattle.spec_refusals.specs.Refusals.{has_waiters, number_from};

use code_calls::kinds::{Ruled, names, with_row};
use code_kernel::places::is_queued;
use spec_calls::call::Call;
use spec_calls::kinds::Which;
use spec_kernel::sizes;
use spec_refusals::named::Named;
use spec_refusals::refusal::Refusal;

mod kinds;

// The lowest priority and the last channel, to compare a field of four bytes with.
const PRIORITY: u32 = sizes::PRIORITIES as u32;

const CHANNEL: u32 = sizes::CHANNELS as u32;

#[tactic(auto, unfolding(spec_refusals::specs::Refusals::unknown))]
fn unknown(r: Ruled) -> bool
    ensures { result ≡ unknown r.call }
{
    !(kinds::is_known(r.call) && kinds::unused_are_zero(r))
}

#[tactic(auto, unfolding(spec_refusals::specs::Refusals::interrupts_off))]
fn interrupts_off(critical: u8, r: Ruled) -> bool
    ensures { result ≡ interrupts_off critical r.call }
{
    kinds::from_interrupt(r) && 0 < critical
}

#[tactic(auto, unfolding(spec_refusals::specs::Refusals::no_caller))]
fn no_caller(runner: u8, r: Ruled) -> bool
    ensures { result ≡ no_caller runner r.call }
{
    kinds::from_thread(r) && runner == 255
}

fn outside(low: u32, high: u32, n: u32) -> bool
    ensures { result ≡ outside low high n }
{
    n < low || high < n
}

#[tactic(auto, unfolding(spec_refusals::specs::Refusals::bad_number))]
fn bad_number(c: Call) -> bool
    ensures { result ≡ bad_number c }
{
    match c.kind {
        2 => outside(1, PRIORITY, c.a as u32),
        4 => outside(1, PRIORITY, c.b as u32),
        7 => c.c == 0,
        14 => outside(1, 65535, c.c) || c.c < c.b as u32,
        16 => c.c == 0 || c.d == 0,
        20 => 1 < c.b,
        26 => outside(1, CHANNEL, c.c),
        27 => outside(1, 32767, c.b as u32),
        _ => false,
    }
}

// Whether the call names one that isn't live.
fn names_dead(which: Which, live: bool) -> bool
    ensures { result ≡ (names which && not live) }
{
    names(which) && !live
}

// Whether it names an event, or an event bit, that there isn't.
fn names_past(which: Which, what: Which, id: u8, count: u8) -> bool
    ensures { result ≡ (is_which which what && leb count id) }
{
    which == what && count <= id
}

#[tactic(auto, unfolding(spec_refusals::specs::Refusals::bad_id))]
fn bad_id(n: Named, r: Ruled) -> bool
    ensures { result ≡ bad_id n r.call }
{
    let row = r.row;
    names_dead(row.thread, n.thread)
        || names_dead(row.semaphore, n.semaphore.live)
        || names_past(row.event, Which::A, r.call.a, sizes::EVENT_IDS)
        || names_past(row.event, Which::Bit, r.call.a, sizes::BITS)
        || names_dead(row.message, n.message.live)
        || names_dead(row.flag, n.flag)
}

#[tactic(auto, unfolding(spec_refusals::specs::Refusals::is_in_channel))]
fn is_in_channel(n: Named, r: Ruled) -> bool
    ensures { result ≡ is_in_channel n r.call }
{
    names(r.row.message) && is_queued(n.message)
}

#[tactic(auto, unfolding(spec_refusals::specs::Refusals::not_owner))]
fn not_owner(runner: u8, n: Named, r: Ruled) -> bool
    ensures { result ≡ not_owner runner n r.call }
{
    names(r.row.message) && n.message.owner != runner
}

#[tactic(auto, unfolding(spec_refusals::specs::Refusals::not_periodic))]
fn not_periodic(n: Named, c: Call) -> bool
    ensures { result ≡ not_periodic n c }
{
    c.kind == 17 && n.semaphore.period == 0
}

// The semaphore or flag to destroy has a first waiter.
#[tactic(auto, unfolding(spec_refusals::specs::Refusals::has_waiters))]
fn has_waiters(n: Named, c: Call) -> bool
    ensures { result ≡ has_waiters n c }
{
    matches!(c.kind, 15 | 32) && n.waiter != 255
}

#[tactic(auto, unfolding(spec_refusals::specs::Refusals::pops_nothing))]
fn pops_nothing(unscheduled: u8, critical: u8, c: Call) -> bool
    ensures { result ≡ pops_nothing unscheduled critical c }
{
    match c.kind {
        9 | 10 => unscheduled == 0,
        12 | 13 => critical == 0,
        _ => false,
    }
}

#[tactic(auto, unfolding(spec_refusals::specs::Refusals::stops_caller))]
fn stops_caller(runner: u8, n: Named, c: Call) -> bool
    ensures { result ≡ stops_caller runner n c }
{
    match c.kind {
        3 => c.a == runner,
        6 | 7 => true,
        18 => n.semaphore.count == 0,
        21 => !n.truth,
        27 => n.found == 255,
        _ => false,
    }
}

// Inside a region, a call that would stop the caller; a flag's pend comes from a single critical one, and from nowhere else.
#[tactic(auto, unfolding(spec_refusals::specs::Refusals::blocks_in_region))]
fn blocks_in_region(unscheduled: u8, critical: u8, runner: u8, n: Named, c: Call) -> bool
    ensures { result ≡ blocks_in_region unscheduled critical runner n c }
{
    if c.kind == 33 {
        !(unscheduled == 0 && critical == 1)
    } else {
        (0 < unscheduled || 0 < critical) && stops_caller(runner, n, c)
    }
}

// No free id, or a push at level 255.
#[tactic(auto, unfolding(spec_refusals::specs::Refusals::none_free))]
fn none_free(unscheduled: u8, critical: u8, n: Named, c: Call) -> bool
    ensures { result ≡ none_free unscheduled critical n c }
{
    match c.kind {
        2 | 14 | 24 | 31 => n.found == 255,
        8 => unscheduled == 255,
        11 => critical == 255,
        _ => false,
    }
}

// The first refusal of the table that applies, by the levels, who runs and what the call names.
#[tactic(auto, unfolding(spec_refusals::specs::Refusals::number_from))]
fn refusal_of(unscheduled: u8, critical: u8, runner: u8, n: Named, c: Call) -> Option<Refusal>
    ensures { number_in result ≡ number_from unscheduled critical runner n c }
{
    let r = with_row(c);
    if unknown(r) {
        Some(Refusal::Unknown)
    } else if interrupts_off(critical, r) {
        Some(Refusal::InterruptsOff)
    } else if no_caller(runner, r) {
        Some(Refusal::NoCaller)
    } else if bad_number(c) {
        Some(Refusal::BadNumber)
    } else if bad_id(n, r) {
        Some(Refusal::BadId)
    } else if is_in_channel(n, r) {
        Some(Refusal::InChannel)
    } else if not_owner(runner, n, r) {
        Some(Refusal::NotOwner)
    } else if has_waiters(n, c) {
        Some(Refusal::HasWaiters)
    } else if not_periodic(n, c) {
        Some(Refusal::NotPeriodic)
    } else if pops_nothing(unscheduled, critical, c) {
        Some(Refusal::PopsNothing)
    } else if blocks_in_region(unscheduled, critical, runner, n, c) {
        Some(Refusal::BlocksInRegion)
    } else if none_free(unscheduled, critical, n, c) {
        Some(Refusal::NoneFree)
    } else {
        None
    }
}

fn number(r: Refusal) -> u8
    ensures { result ≡ number r }
{
    match r {
        Refusal::Unknown => 1,
        Refusal::NoCaller => 2,
        Refusal::InterruptsOff => 3,
        Refusal::BadId => 4,
        Refusal::BadNumber => 5,
        Refusal::BlocksInRegion => 6,
        Refusal::NoneFree => 7,
        Refusal::NotOwner => 8,
        Refusal::InChannel => 9,
        Refusal::HasWaiters => 10,
        Refusal::PopsNothing => 11,
        Refusal::NotPeriodic => 12,
    }
}

// The number of the answer: 0 where the call is accepted.
pub fn number_of(unscheduled: u8, critical: u8, runner: u8, n: Named, c: Call) -> u8
    ensures { result ≡ number_from unscheduled critical runner n c }
{
    match refusal_of(unscheduled, critical, runner, n, c) {
        Some(r) => number(r),
        None => 0,
    }
}
