// The call that a note tells of: made again with an empty log of its own.
ghost use Rattle.std.specs.Prelude.{◌≡◌, replicate};
ghost use Rattle.base_queue.specs.Lists.{first_of};
ghost use Rattle.spec_answers.specs.Steps.{answer};
ghost use Rattle.spec_answers.specs.Logs.{called_with};
ghost use Rattle.try_entries.specs.Entries.{value_in, yields_note};

use crate::returned::came_back;
use base_bytes::bytes::{byte_at, same_bytes};
use code_notes_frame::frames::Decoded;
use code_notes_frame::{frames, last};
use replay::logs;
use spec_answers::{Answer, Logged};
use spec_kernel::records::Kernel;

// The call with an empty log, which has room for any note.
pub fn apart(k: Kernel, bytes: [u8; 16]) -> Logged
    ensures { result ≡ called_with k bytes (replicate 4096 0) 0 }
{
    let mut own = [0u8; 4096];
    logs::called(k, bytes, &mut own, 0)
}

// The first byte, 255 where there is none.
#[tactic(auto, unfolding(base_queue::specs::Lists::first_of))]
fn first_of(part: &[u8]) -> u8
    ensures { result ≡ first_of part.now }
{
    part.first().copied().unwrap_or(255)
}

// The value of the call that a note tells of: the id of what it created, or of the message that it took, is the first of its section.
fn value_in(note: &[u8]) -> u8
    ensures { result ≡ value_in note.now }
{
    let Decoded::Sections(p) = frames::frames_of(note) else {
        return 255;
    };
    let s = frames::part_of(note, p);
    match byte_at(note, 0) {
        2 => first_of(frames::section_of(s, frames::THREADS_AT)),
        14 => first_of(frames::section_of(s, frames::SEMAPHORES_AT)),
        24 | 27 => first_of(frames::section_of(s, frames::MESSAGES_AT)),
        31 => first_of(frames::section_of(s, frames::FLAGS_AT)),
        _ => 255,
    }
}

// The answer of the accepted call that a note tells of, after which `runner` runs.
pub fn noted_answer(note: &[u8], runner: u8) -> Answer
    ensures { result ≡ answer 0 (value_in note.now) runner }
{
    Answer {
        number: 0,
        value: value_in(note),
        runner,
    }
}

// Whether the note's record on a state yields this end state and this very note, with the answer that the note tells.
#[tactic(auto, unfolding(crate::specs::Entries::yields_note))]
pub fn yields(old: Kernel, note: &[u8], end: Kernel) -> bool
    ensures { result ≡ yields_note old note.now end }
{
    let mut own = [0u8; 4096];
    let l = logs::called(old, last::call_bytes(note), &mut own, 0);
    came_back(l, noted_answer(note, end.runner), end, note.len()) && same_bytes(&own, 0, note)
}
