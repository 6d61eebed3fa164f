// What the test of the state rules says of the states in `stdin`, and what becomes of their images. The first line there makes the busy
// state out of the fresh one; each later line is a name, a bar, and how the busy state is changed. A change is a letter and a number:
//   F        the fresh state again
//   P T C    the places, the time queue, the channels begin anew with this member; then , for the next member,
//            - for all that follow up to this one, L for this length and garbage in the last place
//   t        thread of this id; then l for live, p priority, f first priority, k ticks left, w woken, y reply, its condition
//            R ready, A asleep, S E M G waiting for this semaphore, event, mask, flag, and * for all threads like it
//   s        semaphore of this id; then l for live, c count, x maximum, k ticks left, d period
//   e        event of this id; then x for its mask, y for its values
//   m        message of this id; then l for live, o owner, n sender, z size, h channel, and * for all messages like it
//   b u v r  the event bits, the unscheduled and the critical level, the runner
//   g        the live flags, a bit each
#![tactic(auto)]

ghost use Rattle.std.specs.Prelude.{◌≤◌, length};

use base_lines::input::read_full;
use base_queue::{CAPACITY, Queue};
use replay::images;
use spec_images::Written;
use spec_kernel::records::{Condition, Event, Kernel, Message, Semaphore, Thread, Wake};
use std::io;

// What a line changes: a record with its id, or a table.
#[derive(Clone, Copy)]
enum Choice {
    Nothing,
    Thread(usize),
    Semaphore(usize),
    Event(usize),
    Message(usize),
    Places,
    Time,
    Posted,
}

// ---- numbers

fn byte(n: u32) -> u8 {
    n.min(255) as u8
}

fn half(n: u32) -> u16 {
    n.min(65535) as u16
}

// The number with one more digit, where it fits.
fn with_digit(n: u32, digit: u8) -> u32 {
    n.checked_mul(10)
        .and_then(|tens| tens.checked_add(u32::from(digit)))
        .unwrap_or(n)
}

// ---- a change of one record or table

fn change_condition(r: &mut Thread, c: u8, n: u32) {
    match c {
        b'R' => r.condition = Condition::Ready,
        b'A' => r.condition = Condition::Asleep,
        b'S' => r.condition = Condition::ForSemaphore(byte(n)),
        b'E' => r.condition = Condition::ForEvent(byte(n)),
        b'M' => r.condition = Condition::ForMessage(half(n)),
        b'G' => r.condition = Condition::ForFlag(byte(n)),
        _ => {}
    }
}

fn change_thread(r: &mut Thread, c: u8, n: u32) {
    match c {
        b'l' => r.live = true,
        b'p' => r.priority = byte(n),
        b'f' => r.first = byte(n),
        b'k' => r.ticks = n,
        b'w' => r.wake = Wake::Met,
        b'y' => r.reply = byte(n),
        _ => change_condition(r, c, n),
    }
}

fn change_semaphore(r: &mut Semaphore, c: u8, n: u32) {
    match c {
        b'l' => r.live = true,
        b'c' => r.count = half(n),
        b'x' => r.maximum = half(n),
        b'k' => r.ticks = n,
        b'd' => r.period = n,
        _ => {}
    }
}

fn change_event(r: &mut Event, c: u8, n: u32) {
    match c {
        b'x' => r.mask = n,
        b'y' => r.values = n,
        _ => {}
    }
}

fn change_message(r: &mut Message, c: u8, n: u32) {
    match c {
        b'l' => r.live = true,
        b'o' => r.owner = byte(n),
        b'n' => r.sender = byte(n),
        b'z' => r.size = n,
        b'h' => r.channel = byte(n),
        _ => {}
    }
}

// The ids from the last one on, up to n.
fn through(mut q: Queue, n: u32) -> Queue {
    for id in base_queue::size(q)..CAPACITY {
        if n < id as u32 {
            break;
        }
        q = base_queue::with_at(q, id, id as u8);
    }
    q
}

// Another length, and garbage in the last place.
fn garbled(mut q: Queue, length: u8) -> Queue {
    q.at[CAPACITY - 1] = 1;
    q.n = length;
    q
}

fn changed_table(q: Queue, c: u8, n: u32) -> Queue {
    match c {
        b',' => base_queue::with_at(q, CAPACITY, byte(n)),
        b'-' => through(q, n),
        b'L' => garbled(q, byte(n)),
        b' ' => q,
        _ => base_queue::with_at(base_queue::empty(), 0, byte(n)),
    }
}

// ---- a change of a state

// All records like the one with this id, where there is one.
fn spread<T: Copy>(table: &mut [T], id: usize) {
    if id < table.len() {
        let r = table[id];
        for x in table.iter_mut() {
            *x = r;
        }
    }
}

// The choice that a letter makes; any other letter leaves the old one.
fn chosen(old: Choice, c: u8, n: u32) -> Choice {
    let id = n as usize;
    match c {
        b't' => Choice::Thread(id),
        b's' => Choice::Semaphore(id),
        b'e' => Choice::Event(id),
        b'm' => Choice::Message(id),
        b'P' => Choice::Places,
        b'T' => Choice::Time,
        b'C' => Choice::Posted,
        _ => old,
    }
}

// What is chosen changed; nothing where there is no record with the id.
fn change_at(k: &mut Kernel, at: Choice, c: u8, n: u32) {
    match at {
        Choice::Nothing => {}
        Choice::Thread(id) if c == b'*' => spread(&mut k.threads, id),
        Choice::Message(id) if c == b'*' => spread(&mut k.messages, id),
        Choice::Thread(id) => {
            if let Some(r) = k.threads.get_mut(id) {
                change_thread(r, c, n);
            }
        }
        Choice::Semaphore(id) => {
            if let Some(r) = k.semaphores.get_mut(id) {
                change_semaphore(r, c, n);
            }
        }
        Choice::Event(id) => {
            if let Some(r) = k.events.get_mut(id) {
                change_event(r, c, n);
            }
        }
        Choice::Message(id) => {
            if let Some(r) = k.messages.get_mut(id) {
                change_message(r, c, n);
            }
        }
        Choice::Places => k.places = changed_table(k.places, c, n),
        Choice::Time => k.time = changed_table(k.time, c, n),
        Choice::Posted => k.posted = changed_table(k.posted, c, n),
    }
}

fn change(k: &mut Kernel, at: Choice, c: u8, n: u32) {
    match c {
        b'F' => *k = code_kernel::records::fresh(),
        b'b' => k.bits = n,
        b'u' => k.unscheduled = byte(n),
        b'v' => k.critical = byte(n),
        b'r' => k.runner = byte(n),
        b'g' => k.flags = half(n),
        _ => change_at(k, at, c, n),
    }
}

// The state after the changes of a line: a letter is carried out when its number has ended.
fn made(mut k: Kernel, s: &[u8]) -> Kernel {
    let mut at = Choice::Nothing;
    let mut c = b' ';
    let mut n = 0;
    for b in s {
        match *b {
            digit @ b'0'..=b'9' => n = with_digit(n, digit - b'0'),
            letter => {
                at = chosen(at, c, n);
                change(&mut k, at, c, n);
                c = letter;
                n = 0;
            }
        }
    }
    at = chosen(at, c, n);
    change(&mut k, at, c, n);
    k
}

// ---- the lines

// A line of the output: the state's name, what the test says, and of its image the number that writing it gets, its length, and whether
// reading it gives the state.
fn show(rt: &impl Print, name: &[u8], k: Kernel) -> io::Result<()> {
    let rules = if code_rules::keeps_rules(k) {
        "kept"
    } else {
        "broken"
    };
    let mut room = [0u8; 2048];
    let Written { number, length } = images::write(k, &mut room);
    let read = images::read(base_lines::up_to(&room, length)).kernel;
    let image = if replay::same_kernel(read, k) {
        "same"
    } else {
        "other"
    };
    rt.write_all(name)?;
    println!(rt; " {rules} {number} {length} {image}")
}

// What stands before the first b, and what stands from there on.
fn cut(s: &[u8], b: u8) -> (&[u8], &[u8])
    ensures { length result.1.now ≤ length s.now }
{
    let n = s.iter().position(|x| *x == b).unwrap_or(s.len());
    s.split_at(n)
}

// The first line makes the busy state; of each later one, the name stands before the bar and the state's changes behind it.
fn show_all(rt: &impl Print, s: &[u8]) -> io::Result<()> {
    let (first, mut rest) = cut(s, b'\n');
    let busy = made(code_kernel::records::fresh(), first);
    while let [_, line @ ..] = rest {
        if line.is_empty() {
            break;
        }
        let (name, tail) = cut(line, b'|');
        let (changes, next) = cut(tail, b'\n');
        show(rt, name, made(busy, changes))?;
        rest = next;
    }
    Ok(())
}

fn main(rt: HostRuntime) -> io::Result<()> {
    let mut input = [0u8; 16384];
    let n = read_full(&mut rt.reader(), &mut input)?;
    show_all(&rt, &input[..n])
}
