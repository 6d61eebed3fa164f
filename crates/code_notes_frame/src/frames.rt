// The frame of a note: its sections, one behind the other, or that its bytes make no note.
ghost use Rattle.std.specs.Prelude.{◌≡◌, ◌*◌, ◌≤◌, [], get_or};
ghost use Rattle.spec_notes.specs.Notes.{section_count};
ghost use Rattle.spec_notes.specs.Frames.{sections_at, frames_of};
ghost use Rattle.code_notes_frame.specs.Meant.{part_of, start_from, decoded, meant};

use base_bytes::bytes::{least, number_at};

// The sections, and the place of each among them.
pub const SECTIONS: usize = 6;

pub const SCHEDULER_AT: usize = 0;

pub const THREADS_AT: usize = 1;

pub const SEMAPHORES_AT: usize = 2;

pub const EVENTS_AT: usize = 3;

pub const FLAGS_AT: usize = 4;

pub const MESSAGES_AT: usize = 5;

// No note is shorter: the call record, the sections' lengths, and the whole length.
pub const LEAST: usize = 16 + 2 * SECTIONS + 2;

// A part of the note: where it begins, and where it ends.
#[derive(Clone, Copy)]
pub struct Part {
    pub from: usize,
    pub to: usize,
}

// The sections fill a part of the note; an enum holds no array, so each is found by going over those before it.
#[derive(Clone, Copy)]
pub enum Decoded {
    Nothing,
    Sections(Part),
}

// The sections, each behind its two bytes of length, fill what stands between the call record and the whole length; else nothing.
pub fn frames_of(note: &[u8]) -> Decoded
    ensures { (result ≡ decoded note.now) × (meant result note.now ≡ frames_of note.now) }
{
    if note.len() < LEAST {
        return Decoded::Nothing;
    }
    let all = Part {
        from: 16,
        to: note.len() - 2,
    };
    let s = part_of(note, all);
    // each section ends before the next, so the last one's end says it of all
    if start_of(s, SECTIONS) != s.len() {
        return Decoded::Nothing;
    }
    Decoded::Sections(all)
}

// Where a section begins that stands behind n others, each of which takes 65,537 bytes at most.
fn start_of(s: &[u8], n: usize) -> usize
    requires { n ≤ section_count }
    ensures { (result ≡ start_from s.now n 0) × (result ≤ 65537 * section_count) }
{
    let mut at = 0;
    for _ in 0..n {
        at += 2 + number_at(s, at, 2) as usize;
    }
    at
}

// The section at this place among those that fill s.
pub fn section_of(s: &[u8], i: usize) -> &[u8]
    ensures { result.now ≡ get_or (sections_at section_count s.now) i [] }
{
    if SECTIONS <= i {
        return &s[0..0];
    }
    let at = start_of(s, i);
    let n = number_at(s, at, 2) as usize;
    let from = at + 2;
    let to = from + n;
    part_of(s, Part { from, to })
}

// The bytes of a part, as far as the note has them.
pub fn part_of(note: &[u8], p: Part) -> &[u8]
    ensures { result.now ≡ part_of p note.now }
{
    let from = least(p.from, note.len());
    let to = least(p.to, note.len());
    if to < from {
        return &note[0..0];
    }
    &note[from..to]
}
