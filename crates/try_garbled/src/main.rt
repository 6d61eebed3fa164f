// Damaged logs. The records of standard input run from the fresh state, with one log of 16384 bytes. Around each record the log is
// damaged in turn, and the public entries are called with the undamaged state. A trial is one damaged log, or the record itself.
//
//   full      before the record: the log ends at each byte of the room that the note needs, and logs::called and append are tried. Both
//             must refuse: number 13, value 255, the runner, the state and the used length as they were, an empty part.
//   records   the record itself. Where it is refused, all is as it was, with value 255. Where it is accepted, its value is the one that
//             its note tells, its runner the next state's, and the undo must give back value 255, the state with its runner, and the
//             used length before it. Either way the log is to the last byte what it was, but for the note.
//   cut       after it: the log and its used length end at each byte of the note, its first one too (the note is missing as a whole).
//   short     the log ends there, but not its used length.
//   flipped   each bit of the note is flipped.
//   beyond    used lengths 16385 and 2^64 - 1, and the used length with an empty log.
//
// What must come back from an undo of a damaged log: either a refusal (number 15, value 255, the runner, the state and the used length
// as they were), or number 0, value 255, a state, its runner and a length of log, such that logs::called with this state and with the
// record in front of the note behind that length accepts, answers with the value that the note tells and with the end state's runner,
// gives the end state again, and writes that note to the last byte. The value that a note tells is the id of what the call created or of
// the message that it took, else 255. A used length beyond the log must be refused. A trial in which anything else comes back is wrong.
//
// A line for each kind: how many were tried, refused and accepted. Each byte that the run writes to the log is once a byte of the
// last note, so that full, cut and short are tried as many times as the run writes bytes (`used`), flipped eight times that, and beyond
// three times for each record. Every full, short and beyond is refused. How many of the others are accepted is not known from
// outside: a flipped byte may be an old value that some other state had, and where the last note is missing, the one before it may be
// undone from the later state. The last line has all wrong ones; it must be 0.
#![tactic(auto)]

use base_bytes::bytes::byte_at;
use base_bytes::pens;
use base_lines::input::read_full;
use replay::logs;
use spec_answers::Logged;
use spec_kernel::records::Kernel;
use std::io;
use try_entries::copies::{Logs, copied};
use try_entries::returned::{came_back, without_value};
use try_entries::tallies::{Outcome, Tally, checked, counted, ended, nothing};
use try_entries::{again, entries, report};

// The trials of all kinds.
#[derive(Clone, Copy)]
struct Harm {
    full: Tally,
    records: Tally,
    cut: Tally,
    short: Tally,
    flipped: Tally,
    beyond: Tally,
}

// Where a run stands.
#[derive(Clone, Copy)]
struct Run {
    kernel: Kernel,
    used: usize,
    harm: Harm,
}

// Where the last note stands in the log.
#[derive(Clone, Copy)]
struct Note {
    from: usize,
    to: usize,
}

// ---- one kind of damage

// The log ends at each place where the note would stand. What a refused call wrote, the record's own note would hide, so it is looked
// for at the end.
fn fulls(mut t: Tally, k: Kernel, bytes: [u8; 16], both: &mut Logs, at: Note) -> Tally {
    let a = without_value(13, k.runner);
    for m in at.from..at.to {
        let Some(part) = both.log.get_mut(..m) else {
            return checked(t, false);
        };
        t = counted(t, entries::refused(k, bytes, part, at.from, a));
    }
    checked(t, both.log == both.copy)
}

// The undo with the log that ends at m.
fn on_part(k: Kernel, log: &[u8], m: usize, used: usize) -> Outcome {
    match log.get(..m) {
        Some(part) => entries::undo(k, part, used),
        None => ended(255, false),
    }
}

// The log ends at each place of the note, and is used to its end, or to `used` where that is more.
fn parts(t: Tally, k: Kernel, log: &[u8], at: Note, used: usize) -> Tally {
    (at.from..at.to).fold(t, |t, m| counted(t, on_part(k, log, m, m.max(used))))
}

// These bits of a byte of the log flipped, and flipped back.
fn on_flip(k: Kernel, log: &mut [u8], at: usize, bits: u8, used: usize) -> Outcome {
    let old = byte_at(log, at);
    pens::put_byte(log, at, old ^ bits);
    let o = entries::undo(k, log, used);
    pens::put_byte(log, at, old);
    o
}

// Each bit of the note.
fn flips(mut t: Tally, k: Kernel, log: &mut [u8], at: Note) -> Tally {
    for place in at.from..at.to {
        for bit in 0..8u32 {
            t = counted(t, on_flip(k, log, place, 1 << bit, at.to));
        }
    }
    t
}

// Used lengths beyond the log.
fn beyonds(t: Tally, k: Kernel, log: &[u8], used: usize) -> Tally {
    let a = counted(t, entries::undo(k, log, 16385));
    let b = counted(a, entries::undo(k, log, usize::MAX));
    counted(b, entries::undo(k, b"", used))
}

// ---- the run

// The record's own call came back with l: an accepted one is undone, a refused one left all as it was.
fn on_record(k: Kernel, l: Logged, log: &[u8], from: usize) -> Outcome {
    let number = l.answer.number;
    let right = if number == 0 {
        entries::accepted(l, log, k, from)
    } else {
        came_back(l, without_value(number, k.runner), k, from)
    };
    ended(number, right)
}

// The damage after a record that left this state and this note.
fn after(mut h: Harm, k: Kernel, log: &mut [u8], at: Note) -> Harm {
    h.cut = parts(h.cut, k, log, at, 0);
    h.short = parts(h.short, k, log, at, at.to);
    h.beyond = beyonds(h.beyond, k, log, at.to);
    h.flipped = flips(h.flipped, k, log, at);
    h
}

// One record more, with the damage before and after it; the copy takes over its note. The room that its note needs is the length of its note
// in a log of its own, none where it is refused.
fn next(run: Run, bytes: [u8; 16], both: &mut Logs) -> Run {
    let k = run.kernel;
    let from = run.used;
    let room = Note {
        from,
        to: from.wrapping_add(again::apart(k, bytes).used),
    };
    let mut h = run.harm;
    h.full = fulls(h.full, k, bytes, both, room);
    let l = logs::called(k, bytes, &mut both.log, from);
    let only = copied(&mut both.copy, &both.log, from, l.used);
    let o = on_record(k, l, &both.log, from);
    h.records = counted(checked(h.records, only), o);
    let note = Note { from, to: l.used };
    Run {
        kernel: l.kernel,
        used: l.used,
        harm: after(h, l.kernel, &mut both.log, note),
    }
}

// Fresh, and no trial yet.
fn started() -> Run {
    Run {
        kernel: code_kernel::records::fresh(),
        used: 0,
        harm: Harm {
            full: nothing(),
            records: nothing(),
            cut: nothing(),
            short: nothing(),
            flipped: nothing(),
            beyond: nothing(),
        },
    }
}

// ---- the lines

// All lines.
fn shown(rt: &impl Print, h: Harm, used: usize) -> io::Result<()> {
    let a = report::line(rt, b"full ", h.full, 0)?;
    let b = report::line(rt, b"records ", h.records, a)?;
    let c = report::line(rt, b"cut ", h.cut, b)?;
    let d = report::line(rt, b"short ", h.short, c)?;
    let e = report::line(rt, b"flipped ", h.flipped, d)?;
    let wrong = report::line(rt, b"beyond ", h.beyond, e)?;
    println!(rt; "used {used}")?;
    report::verdict(rt, wrong)?;
    Ok(())
}

// The whole records of s, one after the other; a shorter tail is dropped.
fn replayed(s: &[u8]) -> Run {
    let mut both = Logs {
        log: [165u8; 16384],
        copy: [165u8; 16384],
    };
    let mut run = started();
    for bytes in s.as_chunks::<16>().0 {
        run = next(run, *bytes, &mut both);
    }
    run
}

fn main(rt: HostRuntime) -> io::Result<()> {
    let mut records = [0u8; 65536];
    let n = read_full(&mut rt.reader(), &mut records)?;
    let run = replayed(&records[..n]);
    shown(&rt, run.harm, run.used)
}
