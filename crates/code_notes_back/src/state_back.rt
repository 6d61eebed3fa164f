// The state before a call, of the state after it and a note's sections, whatever they hold.
ghost use Rattle.std.specs.Prelude.{◌≡◌, ◌<◌, get_or};
ghost use Rattle.spec_notes.specs.Notes.{section_count};
ghost use Rattle.spec_notes.specs.Frames.{sections_at};
ghost use Rattle.spec_notes.specs.Back.{levels_before, earlier, threads_back, posts_back, before_at};
ghost use Rattle.code_notes_back.specs.Restored.{back_of};

use crate::table_back::put_back_all;
use base_bytes::bytes::byte_at;
use base_rows::rows::{Row, row_at};
use code_moves::states;
use code_notes_events::event_back::{bits_before, events_before};
use code_notes_flags::flag_back::flags_before;
use code_notes_frame::frames;
use code_notes_frame::frames::section_of;
use code_notes_messages::message_back::messages_before;
use code_notes_scheduler::scheduler_rows;
use code_notes_scheduler::scheduler_rows::WIDTHS;
use code_notes_semaphores::semaphore_back::semaphores_before;
use code_notes_threads::thread_back::threads_before;
use spec_calls::call::Call;
use spec_kernel::records::Kernel;
use spec_moves::parts::{Posts, Threads};

// A level that isn't a byte belongs to no state: then the state after is handed back.
#[derive(Clone, Copy)]
pub struct Back {
    pub fits: bool,
    pub kernel: Kernel,
}

// Levels and runner before, as they are read: a level may be one more than a byte holds.
fn levels_before(c: Call, unscheduled: u8, critical: u8, runner: u8, s: &[u8]) -> Row
    ensures { (result.fields ≡ levels_before c unscheduled critical runner s.now) × (get_or result.fields 2 0 < 256) }
{
    let told = scheduler_rows::predicted(c, unscheduled, critical, runner);
    row_at(s, 1, WIDTHS, byte_at(s, 0), told.fields)
}

// Uptime wraps backwards too.
fn earlier(c: Call, uptime: u32) -> u32
    ensures { result ≡ earlier c uptime }
{
    if c.kind == 1 {
        uptime.wrapping_sub(1)
    } else {
        uptime
    }
}

// The part that threads move in.
pub fn threads_back(c: Call, p: Threads, s: &[u8]) -> Threads
    ensures { result ≡ threads_back c p s.now }
{
    let t = threads_before(c, p.records, s);
    let records = t.threads;
    Threads {
        records,
        places: put_back_all(p.places, t.out, t.at),
        time: put_back_all(p.time, t.out, t.due),
    }
}

// The part that messages move in.
pub fn posts_back(c: Call, runner: u8, p: Posts, s: &[u8]) -> Posts
    ensures { result ≡ posts_back c runner p s.now }
{
    let m = messages_before(c, runner, p.records, s);
    let records = m.messages;
    Posts {
        records,
        posted: put_back_all(p.posted, m.out, m.at),
    }
}

// Everything, with levels and runner as they are given.
fn before_at(c: Call, k: Kernel, s: &[u8], u: u8, v: u8, runner: u8) -> Kernel
    ensures { result ≡ before_at c k (sections_at section_count s.now) u v runner }
{
    let records = k.messages;
    let posts = Posts {
        records,
        posted: k.posted,
    };
    let t = threads_back(c, states::threads_of(k), section_of(s, frames::THREADS_AT));
    let m = posts_back(c, k.runner, posts, section_of(s, frames::MESSAGES_AT));
    let bytes = section_of(s, frames::EVENTS_AT);
    let threads = t.records;
    let messages = m.records;
    Kernel {
        threads,
        semaphores: semaphores_before(c, k.semaphores, section_of(s, frames::SEMAPHORES_AT)),
        events: events_before(k.events, bytes),
        messages,
        places: t.places,
        time: t.time,
        posted: m.posted,
        bits: bits_before(c, k.bits, bytes),
        uptime: earlier(c, k.uptime),
        unscheduled: u,
        critical: v,
        runner,
        flags: flags_before(c, k.flags, section_of(s, frames::FLAGS_AT)),
    }
}

// The sections stand in s, one behind the other.
pub fn state_before(c: Call, k: Kernel, s: &[u8]) -> Back
    ensures { result ≡ back_of c k (sections_at section_count s.now) }
{
    let row = levels_before(
        c,
        k.unscheduled,
        k.critical,
        k.runner,
        section_of(s, frames::SCHEDULER_AT),
    );
    let u = row.fields[0];
    let v = row.fields[1];
    if 255 < u || 255 < v {
        return Back {
            fits: false,
            kernel: k,
        };
    }
    let runner = row.fields[2] as u8;
    let old = before_at(c, k, s, u as u8, v as u8, runner);
    Back {
        fits: true,
        kernel: states::scheduled(old),
    }
}
