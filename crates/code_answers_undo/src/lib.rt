// A note undone: put back, the rules tested, the call run again, and the note and the state compared.
#![tactic(auto)]

ghost use Rattle.std.specs.Prelude.{◌≡◌, true, not, cond, ◌||◌, [], get_or};
ghost use Rattle.base_queue.specs.Lists.{is_empty};
ghost use Rattle.spec_refusals.specs.Refusals.{is};
ghost use Rattle.spec_notes.specs.Undoes.{back_from, levels_fit, asked_by, yields_asked, undoes_note_kept};
ghost use Rattle.spec_notes.specs.Notes.{section_count};
ghost use Rattle.spec_notes.specs.Frames.{sections_at};
ghost use Rattle.spec_answers.specs.Steps.{answer};
ghost use Rattle.spec_answers.specs.Logs.{logged};

use code_answers::{recorded, refused};
use code_calls::call;
use code_notes::note::MOST;
use code_notes_back::state_back;
use code_notes_frame::frames::Decoded;
use code_notes_frame::{frames, last};
use spec_answers::{Answer, Logged};
use spec_calls::call::Call;
use spec_kernel::records::Kernel;
use spec_rules::tests::Asked;

pub mod kept;

// Whether the note speaks of the table whose section has this place.
fn speaks_of(s: &[u8], i: usize) -> bool
    ensures { result ≡ not (is_empty (get_or (sections_at section_count s.now) i [])) }
{
    frames::section_of(s, i).len() != 0
}

// Whether it may be another one: so too where the call is of this kind, which changes it and needs no section for that.
fn may_differ(c: Call, kind: u8, s: &[u8], i: usize) -> bool
    ensures { result ≡ (is c kind || not (is_empty (get_or (sections_at section_count s.now) i []))) }
{
    c.kind == kind || speaks_of(s, i)
}

// Which tables may be others than in the end state: those that the note speaks of, those that time ages where it passes, and the flags
// where one is destroyed.
fn asked_by(c: Call, s: &[u8]) -> Asked
    ensures { result ≡ asked_by c (sections_at section_count s.now) }
{
    Asked {
        threads: may_differ(c, 1, s, frames::THREADS_AT),
        semaphores: may_differ(c, 1, s, frames::SEMAPHORES_AT),
        events: speaks_of(s, frames::EVENTS_AT),
        messages: speaks_of(s, frames::MESSAGES_AT),
        flags: may_differ(c, 32, s, frames::FLAGS_AT),
    }
}

// Whether the state, with the call run again, yields the end state and the note, as far as it is asked for.
fn yields_again(old: Kernel, bytes: [u8; 16], end: Kernel, note: &[u8], asked: Asked) -> bool
    ensures { levels_fit old ≡ true → result ≡ yields_asked asked old bytes end note.now }
{
    if !code_rules::keeps_asked(old, asked) {
        return false;
    }
    let mut again = [0u8; MOST];
    let l = recorded(old, bytes, &mut again, 0);
    l.answer.number == 0
        && &again[..l.used] == note
        && code_notes_same::same_asked(l.kernel, end, asked)
}

// The note undone on a state that is known to keep its rules: the earlier state, with what was used of the log before the note, or 15.
pub fn undo_note(k: Kernel, note: &[u8], before: usize, used: usize) -> Logged
    ensures { result ≡ cond (undoes_note_kept k note.now)
        (logged (answer 0 255 (back_from k note.now).runner) (back_from k note.now) before)
        (logged (answer 15 255 k.runner) k used) }
{
    let Decoded::Sections(p) = frames::frames_of(note) else {
        return refused(15, k.runner, k, used);
    };
    let bytes = last::call_bytes(note);
    let c = call::call_of(bytes);
    let s = frames::part_of(note, p);
    let back = state_back::state_before(c, k, s);
    if !back.fits {
        return refused(15, k.runner, k, used);
    }
    let kernel = back.kernel;
    let asked = asked_by(c, s);
    if !yields_again(kernel, bytes, k, note, asked) {
        return refused(15, k.runner, k, used);
    }
    Logged {
        answer: Answer {
            number: 0,
            value: 255,
            runner: kernel.runner,
        },
        kernel,
        used: before,
    }
}
