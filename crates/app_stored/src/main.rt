// Over a stored state: records from standard input to its end, each as a call on the image; then every note undone on it. After each step
// the answer is written (number, value, runner), the image's length in two bytes, and the image.
#![tactic(auto)]

use base_lines::input::read_full;
use replay::images;
use spec_answers::Answer;
use spec_images::Stored;
use std::io;

// Longer than any image.
const ROOM: usize = 2048;

// A step: the answer and the image then.
fn put_step(rt: &impl Print, a: Answer, room: &[u8], length: usize) -> io::Result<()> {
    let [low, high, ..] = length.to_le_bytes();
    rt.write_all(&[a.number, a.value, a.runner, low, high])?;
    rt.write_all(base_lines::up_to(room, length))
}

// A record at a time, from the fresh image; a shorter tail is dropped. Where the run stands then.
fn forward(
    rt: &(impl Input + Print),
    room: &mut [u8; ROOM],
    log: &mut [u8; 1048576],
) -> io::Result<Stored> {
    let mut input = rt.reader();
    let mut bytes = [0u8; 16];
    let mut s = Stored {
        answer: Answer {
            number: 0,
            value: 255,
            runner: 255,
        },
        length: images::write(replay::fresh(), room).length,
        used: 0,
    };
    for _ in 0..u64::MAX {
        if read_full(&mut input, &mut bytes)? < 16 {
            break;
        }
        s = images::called_on(room, s.length, bytes, log, s.used);
        put_step(rt, s.answer, room, s.length)?;
    }
    Ok(s)
}

// Every note undone, until an undo is refused.
fn backwards(
    rt: &impl Print,
    start: Stored,
    room: &mut [u8; ROOM],
    log: &[u8; 1048576],
) -> io::Result<()> {
    let mut s = images::undo_on(room, start.length, log, start.used);
    for _ in 0..u64::MAX {
        if s.answer.number != 0 {
            break;
        }
        put_step(rt, s.answer, room, s.length)?;
        s = images::undo_on(room, s.length, log, s.used);
    }
    Ok(())
}

fn main(rt: HostRuntime) -> io::Result<()> {
    let mut room = [0u8; ROOM];
    let mut log = [0u8; 1048576];
    let s = forward(&rt, &mut room, &mut log)?;
    backwards(&rt, s, &mut room, &log)
}
