// Damaged states. The records of standard input run from the fresh state, with one log of 16384 bytes. Before each record every
// field of the state is damaged in turn: the field of one record, one table or the state itself gets a value that a generator draws, and
// so does the record's id or the table's place. The record is then tried on the damaged state through every public entry:
// logs::called, logs::append and undos::undo. Most trials have the log's own used length, some 0, some one beyond its end. Each is
// held against the call where there is room: with an empty log of its own, on a broken state with the used length 0.
//
// What must come back. Where code_rules::keeps_rules says that the damage broke a state rule: from every entry the number 14, value 255,
// runner 255, the damaged state and the used length as they were, from append an empty part, with room and without. Where no rule is
// broken: with the log the same answer and the same state as with a log of its own, or 13 where the used length is beyond the log; a
// refusal with value 255, the runner, the state and the used length as they were; from an accepted call the value that its note tells and
// the next state's runner, and then from an undo number 0, value 255 and the damaged state to the last field; from append a part as long
// as the note. After every trial the log is to the last byte what it was, but for the note of an accepted call between the used lengths
// before and after.
// A trial in which anything else comes back is wrong, and counted once. So is a record of the run that wrote more than its note.
//
// A line for the records of the run and one for the damaged states: how many were tried, and how many of them were broken (14),
// refused for another reason, and accepted. A state has 34 fields (damage::FIELDS): 34 times the number of records is tried. The last line
// has all wrong ones; it must be 0. How many are broken, refused or accepted depends on what was drawn.
#![tactic(auto)]

mod damage;

use base_lines::input::read_full;
use replay::{logs, undos};
use spec_answers::Logged;
use spec_kernel::records::Kernel;
use std::io;
use try_entries::copies::{Logs, copied};
use try_entries::returned::{came_back, without_value};
use try_entries::tallies::Tally;
use try_entries::{again, entries, report, tallies};

// A trial: the record on a damaged state, with so much of the log used.
#[derive(Clone, Copy)]
struct Trial {
    state: Kernel,
    bytes: [u8; 16],
    used: usize,
}

// The end of a trial: the number that came back, the used length after it, and whether all was right.
#[derive(Clone, Copy)]
struct Ending {
    number: u8,
    end: usize,
    right: bool,
}

// The trials on damaged states, and where the generator stands.
#[derive(Clone, Copy)]
struct Harm {
    states: Tally,
    dice: u64,
}

// Where a run stands: its state, how much of the log is used, its own records, and the trials.
#[derive(Clone, Copy)]
struct Run {
    kernel: Kernel,
    used: usize,
    records: Tally,
    harm: Harm,
}

// ---- one trial

// A broken state: every entry that answers says 14 and hands back what it was given, with room and without, and nothing is appended.
fn on_broken(t: &Trial, log: &mut [u8]) -> bool {
    let a = without_value(14, 255);
    came_back(undos::undo(t.state, log, t.used), a, t.state, t.used)
        && entries::refused(t.state, t.bytes, log, 0, a).right
        && entries::refused(t.state, t.bytes, log, t.used, a).right
}

// A call that is refused where there is room gave l: refused as it must be, and with the log the same.
fn on_refused(l: Logged, t: &Trial, log: &mut [u8]) -> bool {
    let a = without_value(l.answer.number, t.state.runner);
    came_back(l, a, t.state, 0) && entries::refused(t.state, t.bytes, log, t.used, a).right
}

// A call that is accepted where there is room gave l: with the log the same answer, the same state and a note as long; its undo gives the
// damaged state back; appended, it hands back the note.
fn on_accepted(l: Logged, t: &Trial, log: &mut [u8], end: usize) -> bool {
    let noted = logs::called(t.state, t.bytes, log, t.used);
    came_back(noted, l.answer, l.kernel, end)
        && entries::accepted(noted, log, t.state, t.used)
        && entries::appended(t.state, t.bytes, log, t.used) == l.used
}

// A state that keeps its rules: where there is room the call gave l. A used length beyond the log leaves none.
fn on_kept(l: Logged, t: &Trial, log: &mut [u8]) -> Ending {
    let number = l.answer.number;
    if number != 0 {
        Ending {
            number,
            end: t.used,
            right: on_refused(l, t, log),
        }
    } else if log.len() < t.used {
        let a = without_value(13, t.state.runner);
        Ending {
            number: 13,
            end: t.used,
            right: entries::refused(t.state, t.bytes, log, t.used, a).right,
        }
    } else {
        let end = t.used.wrapping_add(l.used);
        Ending {
            number: 0,
            end,
            right: on_accepted(l, t, log, end),
        }
    }
}

// The record on a damaged state, through every entry.
fn entered(t: &Trial, log: &mut [u8]) -> Ending {
    if code_rules::keeps_rules(t.state) {
        on_kept(again::apart(t.state, t.bytes), t, log)
    } else {
        Ending {
            number: 14,
            end: t.used,
            right: on_broken(t, log),
        }
    }
}

// ---- the run

// The used length of a trial: mostly the log's own.
fn length_of(r: u64, used: usize) -> usize {
    match r % 16 {
        0 => 0,
        1 => 16385,
        2 => usize::MAX,
        _ => used,
    }
}

// One trial more. A note that it wrote is taken off the log, which then must be what it was.
fn tried(h: Harm, t: &Trial, both: &mut Logs) -> Harm {
    let o = entered(t, &mut both.log);
    let kept = copied(&mut both.log, &both.copy, t.used, o.end);
    Harm {
        states: tallies::counted(h.states, tallies::ended(o.number, o.right && kept)),
        dice: damage::thrown(h.dice),
    }
}

// A trial with each field damaged.
fn trials(mut h: Harm, k: Kernel, bytes: [u8; 16], used: usize, both: &mut Logs) -> Harm {
    for field in damage::FIELDS {
        let t = Trial {
            state: damage::damaged(k, field, h.dice),
            bytes,
            used: length_of(h.dice, used),
        };
        h = tried(h, &t, both);
    }
    h
}

// One record more, with the damage before it; the copy takes over its note, and a record that wrote more is wrong.
fn next(run: Run, bytes: [u8; 16], both: &mut Logs) -> Run {
    let harm = trials(run.harm, run.kernel, bytes, run.used, both);
    let l = logs::called(run.kernel, bytes, &mut both.log, run.used);
    let only = copied(&mut both.copy, &both.log, run.used, l.used);
    Run {
        kernel: l.kernel,
        used: l.used,
        records: tallies::counted(run.records, tallies::ended(l.answer.number, only)),
        harm,
    }
}

// Fresh, and no trial yet.
fn started() -> Run {
    Run {
        kernel: code_kernel::records::fresh(),
        used: 0,
        records: tallies::nothing(),
        harm: Harm {
            states: tallies::nothing(),
            dice: 88172645463325252,
        },
    }
}

// The lines.
fn shown(rt: &impl Print, records: Tally, states: Tally) -> io::Result<()> {
    let some = report::line_of_states(rt, b"records ", records, 0)?;
    let wrong = report::line_of_states(rt, b"states ", states, some)?;
    report::verdict(rt, wrong)?;
    Ok(())
}

// The whole records of s, one after the other; a shorter tail is dropped.
fn replayed(s: &[u8]) -> Run {
    let mut both = Logs {
        log: [165u8; 16384],
        copy: [165u8; 16384],
    };
    let mut run = started();
    for bytes in s.as_chunks::<16>().0 {
        run = next(run, *bytes, &mut both);
    }
    run
}

fn main(rt: HostRuntime) -> io::Result<()> {
    let mut records = [0u8; 65536];
    let n = read_full(&mut rt.reader(), &mut records)?;
    let run = replayed(&records[..n]);
    shown(&rt, run.records, run.harm.states)
}
