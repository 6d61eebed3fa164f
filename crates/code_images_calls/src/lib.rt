// A call and an undo on an image that stands in lent room. Both are done on the state that is read from it, and what is new is written
// only once all of it is known to fit.
#![tactic(auto)]

ghost use Rattle.std.specs.Prelude.{◌≡◌, cond, leb, length, ◌+◌};
ghost use Rattle.spec_answers.specs.Steps.{answer};
ghost use Rattle.spec_answers.specs.Logs.{recorded, log_after, undone_kept};
ghost use Rattle.spec_images.specs.OnImages.{fits, stored, keeping, keeping_in, damaged, called_on, lent_called, log_called_on};
ghost use Rattle.spec_images.specs.OnImages.{undone_on, lent_undone};

use base_bytes::logs;
use code_answers::recorded;
use code_answers_undo::kept::undo_kept;
use code_images::{reading, writing};
use code_notes::note::MOST;
use spec_answers::Answer;
use spec_images::Stored;
use spec_kernel::records::Kernel;

// This answer; image and used length are those that are given.
fn left(answer: Answer, length: usize, used: usize) -> Stored
    ensures { result ≡ stored answer length used }
{
    Stored {
        answer,
        length,
        used,
    }
}

// 16: there is no image.
fn damaged(length: usize, used: usize) -> Stored
    ensures { result ≡ damaged length used }
{
    let none = Answer {
        number: 16,
        value: 255,
        runner: 255,
    };
    left(none, length, used)
}

// 13: a note or a new image has no room.
fn no_room(runner: u8, length: usize, used: usize) -> Stored
    ensures { result ≡ stored (answer 13 255 runner) length used }
{
    let none = Answer {
        number: 13,
        value: 255,
        runner,
    };
    left(none, length, used)
}

// Whether so many bytes fit behind the used part of a log.
fn has_room(log: &[u8], used: usize, size: usize) -> bool
    ensures { result ≡ leb (used + size) (length log.now) }
{
    used <= log.len() && size <= log.len() - used
}

// The call on the state whose image is in the room. Its note is made beside the log, which is written last, when the image has found room.
fn call_on_state(
    k: Kernel,
    room: &mut [u8],
    length: usize,
    bytes: [u8; 16],
    log: &mut [u8],
    used: usize,
) -> Stored
    ensures { (result ≡ keeping (recorded k bytes log.old used) k room.old length used)
        × (room.new ≡ keeping_in (recorded k bytes log.old used) room.old)
        × (log.new ≡ cond (fits (recorded k bytes log.old used).kernel room.old)
        (log_after k bytes log.old used) log.old) }
{
    let mut note = [0u8; MOST];
    let l = recorded(k, bytes, &mut note, 0);
    if l.answer.number != 0 {
        return left(l.answer, length, used);
    }
    let size = l.used;
    if !has_room(log, used, size) {
        return no_room(k.runner, length, used);
    }
    let n = writing::put_whole(l.kernel, room);
    if n == 0 {
        return no_room(k.runner, length, used);
    }
    let end = logs::write(log, used, &note[..size]);
    left(l.answer, n, end)
}

// A call on the image in the first `length` bytes of the room, whatever they hold.
pub fn called_on(
    room: &mut [u8],
    length: usize,
    bytes: [u8; 16],
    log: &mut [u8],
    used: usize,
) -> Stored
    ensures { (result ≡ called_on room.old length bytes log.old used)
        × (room.new ≡ lent_called room.old length bytes log.old used)
        × (log.new ≡ log_called_on room.old length bytes log.old used) }
{
    let old = reading::read_at(room, length);
    if old.number != 0 {
        return damaged(length, used);
    }
    call_on_state(old.kernel, room, length, bytes, log, used)
}

// The undo on the state whose image is in the room.
fn undo_on_state(k: Kernel, room: &mut [u8], length: usize, log: &[u8], used: usize) -> Stored
    ensures { (result ≡ keeping (undone_kept k log.now used) k room.old length used)
        × (room.new ≡ keeping_in (undone_kept k log.now used) room.old) }
{
    let l = undo_kept(k, log, used);
    if l.answer.number != 0 {
        return left(l.answer, length, used);
    }
    let back = writing::put_whole(l.kernel, room);
    if back == 0 {
        return no_room(k.runner, length, used);
    }
    left(l.answer, back, l.used)
}

// The log's last note undone on the image in the first `length` bytes of the room.
pub fn undo_on(room: &mut [u8], length: usize, log: &[u8], used: usize) -> Stored
    ensures { (result ≡ undone_on room.old length log.now used)
        × (room.new ≡ lent_undone room.old length log.now used) }
{
    let end = reading::read_at(room, length);
    if end.number != 0 {
        return damaged(length, used);
    }
    undo_on_state(end.kernel, room, length, log, used)
}
