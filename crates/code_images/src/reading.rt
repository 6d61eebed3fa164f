// A state, read from any bytes: the one whose image they are, or nothing.
ghost use Rattle.std.specs.Prelude.{◌≡◌, cond, drop};
ghost use Rattle.base_bytes.specs.Bytes.{un};
ghost use Rattle.spec_images.specs.Images.{state_in, recalled, read_from};
ghost use Rattle.spec_images.specs.OnImages.{holds_image, state_at};
ghost use Rattle.spec_kernel.specs.Records.{fresh};

use crate::writing::{LONGEST, no_call, put_image};
use base_bytes::bytes::{byte_at, number_at};
use code_kernel::records::fresh;
use code_moves::states;
use code_notes_back::state_back::{posts_back, threads_back};
use code_notes_events::event_back::events_before;
use code_notes_frame::frames;
use code_notes_frame::frames::section_of;
use code_notes_semaphores::semaphore_back::semaphores_before;
use spec_images::Recalled;
use spec_kernel::records::Kernel;
use spec_moves::parts::Posts;

// What stands behind the first n bytes.
fn behind(s: &[u8], n: usize) -> &[u8]
    ensures { result.now ≡ drop n s.now }
{
    &s[n.min(s.len())..]
}

// The flags that a section tells, in its first two bytes.
fn flags_in(s: &[u8]) -> u16
    ensures { result ≡ un 2 s.now }
{
    number_at(s, 0, 2) as u16
}

// The state that the sections tell, whatever they hold.
fn state_in(s: &[u8]) -> Kernel
    ensures { result ≡ state_in s.now }
{
    let all = behind(s, 1);
    let scheduler = section_of(all, frames::SCHEDULER_AT);
    let events = section_of(all, frames::EVENTS_AT);
    let none = fresh();
    let c = no_call();
    let records = none.messages;
    let posts = Posts {
        records,
        posted: none.posted,
    };
    let nobody = states::threads_of(none);
    let t = threads_back(c, nobody, section_of(all, frames::THREADS_AT));
    let m = posts_back(c, 255, posts, section_of(all, frames::MESSAGES_AT));
    let threads = t.records;
    let messages = m.records;
    Kernel {
        threads,
        semaphores: semaphores_before(c, none.semaphores, section_of(all, frames::SEMAPHORES_AT)),
        events: events_before(none.events, behind(events, 4)),
        messages,
        places: t.places,
        time: t.time,
        posted: m.posted,
        bits: number_at(events, 0, 4),
        uptime: number_at(scheduler, 0, 4),
        unscheduled: byte_at(scheduler, 4),
        critical: byte_at(scheduler, 5),
        runner: byte_at(scheduler, 6),
        flags: flags_in(section_of(all, frames::FLAGS_AT)),
    }
}

// 16, and nothing of the bytes.
fn nothing() -> Recalled
    ensures { result ≡ recalled 16 fresh }
{
    Recalled {
        kernel: fresh(),
        number: 16,
    }
}

// The state whose image these bytes are, to the last one: it keeps the rules, and is written again and compared.
pub fn read(s: &[u8]) -> Recalled
    ensures { result ≡ read_from s.now }
{
    let k = state_in(s);
    if !code_rules::keeps_rules(k) {
        return nothing();
    }
    let mut again = [0u8; LONGEST];
    let n = put_image(&mut again, k);
    if &again[..n] != s {
        return nothing();
    }
    Recalled {
        kernel: k,
        number: 0,
    }
}

// The image in the first n bytes; where there are fewer, none.
pub fn read_at(s: &[u8], n: usize) -> Recalled
    ensures { result ≡ cond (holds_image s.now n) (recalled 0 (state_at s.now n)) (recalled 16 fresh) }
{
    if s.len() < n {
        return nothing();
    }
    read(&s[..n])
}
