// The image of a state: the edition, and six sections each behind its length. Entries are those of a note, told against nothing.
ghost use Rattle.std.specs.Prelude.{◌≡◌};
ghost use Rattle.base_bytes.specs.Logs.{noted, ends};
ghost use Rattle.base_bytes.specs.Pens.{pen, puts};
ghost use Rattle.spec_moves.specs.Standing.{threads_of, posts_of};
ghost use Rattle.spec_notes.specs.Notes.{section};
ghost use Rattle.spec_images.specs.Images.{no_call, scheduler_stored, threads_stored, semaphores_stored, events_stored};
ghost use Rattle.spec_images.specs.Images.{flags_stored, messages_stored, image_of};
ghost use Rattle.spec_images.specs.OnImages.{stored_in, lent_then};

use base_bytes::{logs, pens};
use code_kernel::records::fresh;
use code_notes::note::{MESSAGE_BYTES, SEMAPHORE_BYTES, THREAD_BYTES, put_section};
use code_notes_events::{event_notes, event_rows};
use code_notes_frame::frames::SECTIONS;
use code_notes_messages::message_notes;
use code_notes_semaphores::semaphore_notes;
use code_notes_threads::thread_notes;
use spec_calls::call::Call;
use spec_images::Written;
use spec_kernel::records::Kernel;
use spec_kernel::sizes;
use spec_moves::parts::{Posts, Threads};

const EDITION: u8 = 1;

// Uptime, both levels, and who runs.
const SCHEDULER_BYTES: usize = 7;

// Four of them for the bits.
const EVENT_BYTES: usize = 4 + sizes::EVENTS * event_rows::LONGEST;

const FLAG_BYTES: usize = 2;

// No image is longer.
pub const LONGEST: usize = 1
    + 2 * SECTIONS
    + SCHEDULER_BYTES
    + THREAD_BYTES
    + SEMAPHORE_BYTES
    + EVENT_BYTES
    + FLAG_BYTES
    + MESSAGE_BYTES;

// An image is told against no call.
pub fn no_call() -> Call
    ensures { result ≡ no_call }
{
    Call {
        kind: 0,
        a: 0,
        b: 0,
        c: 0,
        d: 0,
        e: 0,
    }
}

fn put_scheduler_part(log: &mut [u8], at: usize, k: Kernel) -> usize
    ensures { pen log.new result ≡ puts (pen log.old at) (section (scheduler_stored k)) }
{
    let mut scratch = [0u8; SCHEDULER_BYTES];
    let p = pens::put_number(&mut scratch, 0, 4, k.uptime);
    let n = pens::put_all(&mut scratch, p, &[k.unscheduled, k.critical, k.runner]);
    put_section(log, at, &scratch[..n])
}

fn put_thread_part(log: &mut [u8], at: usize, k: Kernel) -> usize
    ensures { pen log.new result ≡ puts (pen log.old at) (section (threads_stored k)) }
{
    let records = k.threads;
    let all = Threads {
        records,
        places: k.places,
        time: k.time,
    };
    let none = fresh().threads;
    let mut scratch = [0u8; THREAD_BYTES];
    let n = thread_notes::put_threads(
        &mut scratch,
        0,
        no_call(),
        k.runner,
        all,
        none,
        0,
        sizes::THREAD_IDS,
    );
    put_section(log, at, &scratch[..n])
}

fn put_semaphore_part(log: &mut [u8], at: usize, k: Kernel) -> usize
    ensures { pen log.new result ≡ puts (pen log.old at) (section (semaphores_stored k)) }
{
    let none = fresh().semaphores;
    let mut scratch = [0u8; SEMAPHORE_BYTES];
    let n = semaphore_notes::put_semaphores(
        &mut scratch,
        0,
        no_call(),
        k.semaphores,
        none,
        0,
        sizes::SEMAPHORE_IDS,
    );
    put_section(log, at, &scratch[..n])
}

// The bits come first; an event that is as in the fresh state has no entry.
fn put_event_part(log: &mut [u8], at: usize, k: Kernel) -> usize
    ensures { pen log.new result ≡ puts (pen log.old at) (section (events_stored k)) }
{
    let none = fresh().events;
    let mut scratch = [0u8; EVENT_BYTES];
    let p = pens::put_number(&mut scratch, 0, 4, k.bits);
    let n = event_notes::put_events(&mut scratch, p, k.events, none, 0, sizes::EVENT_IDS);
    put_section(log, at, &scratch[..n])
}

fn put_flag_part(log: &mut [u8], at: usize, flags: u16) -> usize
    ensures { pen log.new result ≡ puts (pen log.old at) (section (flags_stored flags)) }
{
    let mut scratch = [0u8; FLAG_BYTES];
    let n = pens::put_number(&mut scratch, 0, 2, flags as u32);
    put_section(log, at, &scratch[..n])
}

fn put_message_part(log: &mut [u8], at: usize, k: Kernel) -> usize
    ensures { pen log.new result ≡ puts (pen log.old at) (section (messages_stored k)) }
{
    let records = k.messages;
    let all = Posts {
        records,
        posted: k.posted,
    };
    let none = fresh().messages;
    let mut scratch = [0u8; MESSAGE_BYTES];
    let n = message_notes::put_messages(
        &mut scratch,
        0,
        no_call(),
        255,
        all,
        none,
        0,
        sizes::MESSAGE_IDS,
    );
    put_section(log, at, &scratch[..n])
}

// The image from the first lent byte on, as far as there is room.
pub fn put_image(room: &mut [u8], k: Kernel) -> usize
    ensures { pen room.new result ≡ puts (pen room.old 0) (image_of k) }
{
    let start = pens::put_byte(room, 0, EDITION);
    let first = put_scheduler_part(room, start, k);
    let second = put_thread_part(room, first, k);
    let third = put_semaphore_part(room, second, k);
    let fourth = put_event_part(room, third, k);
    let fifth = put_flag_part(room, fourth, k.flags);
    put_message_part(room, fifth, k)
}

// The image written into lent room whole, and its length; or, where it has no room, nothing, and 0.
pub fn put_whole(k: Kernel, room: &mut [u8]) -> usize
    ensures { (result ≡ ends room.old 0 (image_of k)) × (room.new ≡ noted room.old 0 (image_of k)) }
{
    let mut scratch = [0u8; LONGEST];
    let n = put_image(&mut scratch, k);
    logs::write(room, 0, &scratch[..n])
}

// A state written into lent room: 14 for one that breaks a rule, 13 where its image has no room.
pub fn write(k: Kernel, room: &mut [u8]) -> Written
    ensures { (result ≡ stored_in k room.old) × (room.new ≡ lent_then k room.old) }
{
    if !code_rules::keeps_rules(k) {
        return Written {
            number: 14,
            length: 0,
        };
    }
    let n = put_whole(k, room);
    if n == 0 {
        return Written {
            number: 13,
            length: 0,
        };
    }
    Written {
        number: 0,
        length: n,
    }
}
