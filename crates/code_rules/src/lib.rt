// The state rules of the whole state, as a test: one pass over each table of records, then one over each table of places.
#![tactic(auto)]

ghost use Rattle.std.specs.Prelude.{◌≡◌};
ghost use Rattle.spec_rules.specs.Tests.{all_of, runner_kept, keeps_rules, if_asked, conditions_asked, keeps_asked};
ghost use Rattle.base_tables.specs.Taken.{is_table};
ghost use Rattle.code_rules.specs.Groups.{thread_tests, message_tests};

use base_queue::{CAPACITY, Queue};
use code_kernel::{conditions, runner};
use code_kernel_find::by_id;
use spec_kernel::records::Kernel;
use spec_rules::tests::Asked;

mod told;

// A table of places, where it is asked for.
fn table_kept(asked: bool, q: Queue, set: u64, keys: [u32; CAPACITY]) -> bool
    ensures { result ≡ if_asked asked (is_table set keys q) }
{
    !asked || base_tables::is_table(q, set, keys)
}

// Whether threads' conditions may be broken: they look at the objects too.
fn conditions_asked(asked: Asked) -> bool
    ensures { result ≡ conditions_asked asked }
{
    asked.threads || asked.semaphores || asked.events || asked.flags
}

// Semaphores, threads, and the two tables that threads stand in.
fn threads_kept(k: &Kernel, asked: Asked) -> bool
    ensures { result ≡ all_of (thread_tests asked k.now) }
{
    if !conditions_asked(asked) {
        return true;
    }
    let s = told::of_semaphores(&k.semaphores);
    if asked.semaphores && !s.kept {
        return false;
    }
    let t = told::of_threads(
        &k.threads,
        s.waited,
        told::of_events(&k.events, k.bits),
        k.flags,
    );
    t.kept
        && table_kept(asked.threads, k.places, t.homes, t.ranks)
        && table_kept(asked.threads, k.time, t.ticking, t.ticks)
}

// Messages, which look at their owners, and the table of channels.
fn messages_kept(k: &Kernel, asked: Asked) -> bool
    ensures { result ≡ all_of (message_tests asked k.now) }
{
    if !asked.threads && !asked.messages {
        return true;
    }
    let m = told::of_messages(&k.messages, &k.threads);
    m.kept && table_kept(asked.messages, k.posted, m.queued, m.streams)
}

// With no region held the first ready thread runs, else some ready one: the records of these two are looked up.
fn runner_kept(k: &Kernel) -> bool
    ensures { result ≡ runner_kept k.now }
{
    if k.unscheduled == 0 && k.critical == 0 {
        let first = base_queue::first(k.places);
        let its = by_id::thread_at(k.threads, first as u16);
        return k.runner == runner::runner_of(0, 0, 255, first, its);
    }
    conditions::is_ready(by_id::thread_at(k.threads, k.runner as u16))
}

// Whether a state keeps its rules that is made from one that does: a table is tested where it may be another one, or what it looks at.
pub fn keeps_asked(k: Kernel, asked: Asked) -> bool
    ensures { result ≡ keeps_asked asked k }
{
    threads_kept(&k, asked) && messages_kept(&k, asked) && runner_kept(&k)
}

// Whether the state keeps its rules.
pub fn keeps_rules(k: Kernel) -> bool
    ensures { result ≡ keeps_rules k }
{
    let all = Asked {
        threads: true,
        semaphores: true,
        events: true,
        messages: true,
        flags: true,
    };
    keeps_asked(k, all)
}
