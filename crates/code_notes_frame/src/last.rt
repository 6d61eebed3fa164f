// The last note of a log: whether there is one, how long it is, and the call record in front of it.
ghost use Rattle.std.specs.Prelude.{◌≡◌};
ghost use Rattle.spec_notes.specs.Undo.{last_length, has_last};
ghost use Rattle.code_notes_frame.specs.Meant.{record_of};

use crate::frames::LEAST;
use base_bytes::bytes::number_at;

// What the last two of the used bytes say.
pub fn last_length(log: &[u8], used: usize) -> usize
    ensures { result ≡ last_length log.now used }
{
    number_at(log, used.saturating_sub(2), 2) as usize
}

// Whether the used bytes end with a note: as long as the least, and all within them.
pub fn has_last(log: &[u8], used: usize) -> bool
    ensures { result ≡ has_last log.now used }
{
    let n = last_length(log, used);
    2 <= used && used <= log.len() && LEAST <= n && n <= used
}

// The call record in front of a note; zeros where the note is shorter.
pub fn call_bytes(note: &[u8]) -> [u8; 16]
    ensures { result ≡ record_of note.now }
{
    let n = note.len().min(16);
    let mut bytes = [0u8; 16];
    bytes[..n].copy_from_slice(&note[..n]);
    bytes
}
