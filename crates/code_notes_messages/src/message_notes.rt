// The entries of messages.
ghost use Rattle.std.specs.Prelude.{◌≡◌, cond, []};
ghost use Rattle.base_queue.specs.Tables.{old_place};
ghost use Rattle.base_queue.specs.Queues.{items};
ghost use Rattle.base_bytes.specs.Pens.{pen, puts};
ghost use Rattle.spec_notes.specs.Touched.{changed_message};
ghost use Rattle.spec_notes.specs.Sections.{message_noted, message_entries};

use crate::message_rows;
use crate::message_rows::WIDTHS;
use base_queue::Queue;
use base_rows::entries::put_entry;
use code_notes_entries::old_places::old_place;
use spec_calls::call::Call;
use spec_kernel::records::Message;
use spec_kernel::sizes;
use spec_moves::parts::Posts;

// A message before: its id, and what isn't as predicted of its record and its place; `runner` is who runs after the call.
fn put_message(
    log: &mut [u8],
    at: usize,
    m: u8,
    c: Call,
    runner: u8,
    old: Message,
    place: u8,
    new: Message,
) -> usize
    ensures { pen log.new result ≡ puts (pen log.old at) (message_noted m c runner old place new) }
{
    let before = message_rows::row_of(old, place);
    let told = message_rows::predicted(c, runner, new);
    put_entry(log, at, m, 0, 0, WIDTHS, before.fields, told.fields)
}

// The same, where it changed.
#[tactic(auto, unfolding(base_bytes::specs::Pens::puts))]
fn put_changed_message(
    log: &mut [u8],
    at: usize,
    m: u8,
    c: Call,
    runner: u8,
    old: Message,
    posted: Queue,
    new: Message,
) -> usize
    ensures { pen log.new result
        ≡ puts (pen log.old at)
        (cond (changed_message old new) (message_noted m c runner old (old_place m (items posted)) new) []) }
{
    if message_rows::same(old, new) {
        at
    } else {
        put_message(log, at, m, c, runner, old, old_place(posted, m), new)
    }
}

// The changed ones of `count` messages from `first` on. Ids past the last have no record that changes.
pub fn put_messages(
    log: &mut [u8],
    at: usize,
    c: Call,
    runner: u8,
    old: Posts,
    new: [Message; sizes::MESSAGES],
    first: u8,
    count: u8,
) -> usize
    ensures { pen log.new result ≡ puts (pen log.old at) (message_entries c runner old new first count) }
{
    let end = (first as usize + count as usize).min(sizes::MESSAGES);
    let mut p = at;
    for i in first as usize..end {
        p = put_changed_message(
            log,
            p,
            i as u8,
            c,
            runner,
            old.records[i],
            old.posted,
            new[i],
        );
    }
    p
}
