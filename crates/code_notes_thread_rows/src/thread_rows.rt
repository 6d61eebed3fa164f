// A thread as a code and a row of eight numbers, and back.
ghost use Rattle.std.specs.Prelude.{◌≡◌, not, cond, ◌&&◌, ◌||◌, [], ◌∷◌, eqb, ltb};
ghost use Rattle.spec_refusals.specs.Refusals.{is, is_one_of};
ghost use Rattle.base_rows.specs.Rows.{fitted};
ghost use Rattle.spec_kernel.specs.Conditions.{is_ready};
ghost use Rattle.spec_notes.specs.Rows.{condition_code, thread_code, full_code, condition_data, object_code, wake_code};
ghost use Rattle.spec_notes.specs.Rows.{thread_row, thread_widths, condition_from, wake_from, thread_from};
ghost use Rattle.spec_notes.specs.Touched.{same_thread, one_tick_more, younger_thread};
ghost use Rattle.spec_notes.specs.Predicted.{predicted_code, was_blocked, blocks, data_now, predicted_thread};

use base_rows::rows::Row;
use code_kernel::conditions;
use code_notes_entries::choices::word;
use spec_calls::call::Call;
use spec_kernel::records::{Condition, Object, Thread, Wake};

fn condition_code(c: Condition) -> u8
    ensures { result ≡ condition_code c }
{
    match c {
        Condition::Ready => 1,
        Condition::Asleep => 2,
        Condition::ForSemaphore(_) => 3,
        Condition::ForEvent(_) => 4,
        Condition::ForMessage(_) => 5,
        Condition::ForFlag(_) => 6,
    }
}

// The object's id or the mask.
fn data_of(c: Condition) -> u16
    ensures { result ≡ condition_data c }
{
    match c {
        Condition::Ready | Condition::Asleep => 0,
        Condition::ForSemaphore(i) | Condition::ForEvent(i) | Condition::ForFlag(i) => i as u16,
        Condition::ForMessage(mask) => mask,
    }
}

fn object_code(o: Object) -> u8
    ensures { result ≡ object_code o }
{
    match o {
        Object::Semaphore => 2,
        Object::Event => 3,
        Object::Message => 4,
        Object::Flag => 5,
    }
}

fn wake_code(w: Wake) -> u8
    ensures { result ≡ wake_code w }
{
    match w {
        Wake::None => 0,
        Wake::Met => 1,
        Wake::TimedOut(o) => object_code(o),
    }
}

// 0 for a thread that isn't live, else its condition's code.
pub fn code_of(r: Thread) -> u8
    ensures { result ≡ thread_code r }
{
    if r.live {
        condition_code(r.condition)
    } else {
        0
    }
}

// The same, and of a thread that isn't live too what its condition is.
fn full_code(r: Thread) -> u8
    ensures { result ≡ full_code r }
{
    let code = condition_code(r.condition);
    if r.live { code } else { 6 + code }
}

// The widths of a row's fields, in bytes, of a thread of this code: a mask has two, an object's id one.
pub fn widths_of(code: u8) -> [u8; 8]
    ensures { result ≡ thread_widths code }
{
    let data = if code == MASKED { 2 } else { 1 };
    [1, 1, data, 4, 1, 1, 1, 1]
}

// The code of a thread that waits for a message.
const MASKED: u8 = 5;

// The longest entry: head, code, flags and every field.
pub const LONGEST: usize = 15;

// The code of a touched thread before: at a tick by its wake reason, else by the kind.
#[tactic(auto, unfolding(spec_notes::specs::Predicted::predicted_code))]
pub fn predicted_code(c: Call, r: Thread) -> u8
    ensures { result ≡ predicted_code c r }
{
    match c.kind {
        1 => wake_code(r.wake) + 1,
        2 => 0,
        4 | 5 => code_of(r),
        19 | 28 => 3,
        20 | 22 | 23 | 29 | 30 => 4,
        26 => 5,
        34 => 6,
        _ => 1,
    }
}

pub fn row_of(r: Thread, place: u8, due: u8) -> Row
    ensures { result.fields ≡ thread_row r place due }
{
    Row {
        fields: [
            r.priority as u32,
            r.first as u32,
            data_of(r.condition) as u32,
            r.ticks,
            wake_code(r.wake) as u32,
            r.reply as u32,
            place as u32,
            due as u32,
        ],
    }
}

#[tactic(auto, unfolding(spec_notes::specs::Rows::condition_from))]
fn condition_from(code: u8, what: u16) -> Condition
    ensures { result ≡ condition_from code what }
{
    match code {
        2 => Condition::Asleep,
        3 => Condition::ForSemaphore((what % 256) as u8),
        4 => Condition::ForEvent((what % 256) as u8),
        5 => Condition::ForMessage(what),
        6 => Condition::ForFlag((what % 256) as u8),
        _ => Condition::Ready,
    }
}

#[tactic(auto, unfolding(spec_notes::specs::Rows::wake_from))]
fn wake_from(code: u8) -> Wake
    ensures { result ≡ wake_from code }
{
    match code {
        1 => Wake::Met,
        2 => Wake::TimedOut(Object::Semaphore),
        3 => Wake::TimedOut(Object::Event),
        4 => Wake::TimedOut(Object::Message),
        5 => Wake::TimedOut(Object::Flag),
        _ => Wake::None,
    }
}

// The thread of a code and a row; of each field, as much as its width holds.
pub fn from_row(code: u8, row: [u32; 8]) -> Thread
    ensures { result ≡ thread_from code (fitted (thread_widths code) row) }
{
    Thread {
        live: code != 0,
        priority: (row[0] % 256) as u8,
        first: (row[1] % 256) as u8,
        condition: condition_from(code, (row[2] % 65536) as u16),
        ticks: word(row[3]),
        wake: wake_from((row[4] % 256) as u8),
        reply: (row[5] % 256) as u8,
    }
}

// What the thread waits for now, as far as the field of that code goes.
fn data_now(condition: Condition, code: u8) -> u16
    ensures { result ≡ data_now code condition }
{
    let data = data_of(condition);
    if code == MASKED { data } else { data % 256 }
}

// What a blocked thread waited for: after a post, the semaphore or flag of the call.
fn data_before(c: Call, condition: Condition, code: u8) -> u16
    ensures { result ≡ cond (ltb 2 code) (cond (is_one_of c (19 ∷ 28 ∷ 34 ∷ [])) c.a (data_now code condition)) 0 }
{
    if code <= 2 {
        return 0;
    }
    match c.kind {
        19 | 28 | 34 => c.a as u16,
        _ => data_now(condition, code),
    }
}

// The ticks that a blocked thread had left: at a tick, one.
fn ticks_before(c: Call, ticks: u32, code: u8) -> u32
    ensures { result ≡ cond (was_blocked code) (cond (is c 1) 1 ticks) 0 }
{
    if code <= 1 {
        0
    } else if c.kind == 1 {
        1
    } else {
        ticks
    }
}

// Whether a blocked thread is ready now.
fn was_woken(r: Thread, code: u8) -> bool
    ensures { result ≡ (was_blocked code && is_ready r) }
{
    1 < code && conditions::is_ready(r)
}

// Whether a ready thread sleeps or waits now.
fn has_blocked(r: Thread, code: u8) -> bool
    ensures { result ≡ blocks code r }
{
    code == 1 && !conditions::ready_for(r.condition)
}

// A thread that was woken had no reason; one that blocks had been met.
fn wake_before(woken: bool, blocked: bool, w: Wake) -> u8
    ensures { result ≡ cond woken 0 (cond blocked 1 (wake_code w)) }
{
    if woken {
        0
    } else if blocked {
        1
    } else {
        wake_code(w)
    }
}

// A thread that wasn't live had no priority.
fn priority_before(code: u8, priority: u8) -> u8
    ensures { result ≡ cond (eqb code 0) 0 priority }
{
    if code == 0 { 0 } else { priority }
}

// It had no reply, nor had a thread that is gone.
fn reply_before(woken: bool, r: Thread, code: u8) -> u8
    ensures { result ≡ cond (eqb code 0) 0 (cond (not r.live || woken) 255 r.reply) }
{
    if code == 0 {
        0
    } else if !r.live || woken {
        255
    } else {
        r.reply
    }
}

// A thread that stood in a list stood first, and who waited for a flag that is posted behind the poster.
fn place_before(c: Call, code: u8) -> u8
    ensures { result ≡ cond (is c 34) 1 (cond (eqb code 1 || eqb code 3 || eqb code 4 || eqb code 6) 0 255) }
{
    if c.kind == 34 {
        return 1;
    }
    match code {
        1 | 3 | 4 | 6 => 0,
        _ => 255,
    }
}

// One that slept woke first, and so did one whose time was up.
fn due_before(c: Call, code: u8) -> u8
    ensures { result ≡ cond (eqb code 2 || (is c 1 && was_blocked code)) 0 255 }
{
    if code == 2 || (c.kind == 1 && 1 < code) {
        0
    } else {
        255
    }
}

// What can be told of the row before, of the record after and the code before.
#[tactic(auto, unfolding(spec_notes::specs::Predicted::predicted_thread))]
pub fn predicted(c: Call, r: Thread, code: u8) -> Row
    ensures { result.fields ≡ predicted_thread c r code }
{
    let woken = was_woken(r, code);
    let blocked = has_blocked(r, code);
    Row {
        fields: [
            priority_before(code, r.priority) as u32,
            priority_before(code, r.first) as u32,
            data_before(c, r.condition, code) as u32,
            ticks_before(c, r.ticks, code),
            wake_before(woken, blocked, r.wake) as u32,
            reply_before(woken, r, code) as u32,
            place_before(c, code) as u32,
            due_before(c, code) as u32,
        ],
    }
}

// One tick more at a tick, where any are left.
fn ticks_younger(c: Call, ticks: u32) -> u32
    ensures { result ≡ cond (is c 1 && ltb 0 ticks) (one_tick_more ticks) ticks }
{
    if c.kind == 1 && 0 < ticks {
        ticks.saturating_add(1)
    } else {
        ticks
    }
}

// The record before, of the record after, where the call did not touch it.
#[tactic(auto, unfolding(spec_notes::specs::Touched::younger_thread))]
pub fn younger(c: Call, r: Thread) -> Thread
    ensures { result ≡ younger_thread c r }
{
    Thread {
        ticks: ticks_younger(c, r.ticks),
        ..r
    }
}

// Field by field, and not by rows: at a tick every thread is compared.
#[tactic(auto, unfolding(spec_notes::specs::Touched::same_thread))]
pub fn same(r: Thread, s: Thread) -> bool
    ensures { result ≡ same_thread r s }
{
    full_code(r) == full_code(s)
        && r.priority == s.priority
        && r.first == s.first
        && data_of(r.condition) == data_of(s.condition)
        && r.ticks == s.ticks
        && wake_code(r.wake) == wake_code(s.wake)
        && r.reply == s.reply
}
