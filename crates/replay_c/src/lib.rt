// The entries for C programs, on numbers and byte slices; host/replay.h declares them. An answer is one number, whose bytes are the number,
// the value and the runner, the lowest first.
#![tactic(auto)]

ghost use Rattle.std.specs.Prelude.{◌≡◌, cond, eqb};
ghost use Rattle.spec_images.specs.OnImages.{record_or0};
ghost use Rattle.spec_images.specs.ForC.{packed, FreshForC, RunForC, UndoForC};

use replay::images;
use spec_answers::Answer;

fn packed(a: Answer) -> u32
    ensures { result ≡ packed a }
{
    u32::from_le_bytes([a.number, a.value, a.runner, 0])
}

// A record that isn't sixteen bytes is of no kind, as sixteen zeros are.
fn record_or_0(bytes: &[u8]) -> [u8; 16]
    ensures { result ≡ record_or0 bytes.now }
{
    if bytes.len() == 16 {
        replay::call_bytes(bytes)
    } else {
        [0u8; 16]
    }
}

// The length of an image that was written, or else the one that was there.
fn length_then(number: u8, size: usize, length: usize) -> usize
    ensures { result ≡ cond (eqb number 0) size length }
{
    if number == 0 { size } else { length }
}

// The image of the fresh state.
#[unsafe(no_mangle)]
pub extern "C" fn replay_fresh(image: &mut [u8], length: &mut usize) -> u32
    ensures { FreshForC image.old length.old result image.new length.new }
{
    let w = images::write(replay::fresh(), image);
    *length = length_then(w.number, w.length, *length);
    packed(Answer {
        number: w.number,
        value: 255,
        runner: 255,
    })
}

// A record run over a stored state.
#[unsafe(no_mangle)]
pub extern "C" fn replay_run(
    image: &mut [u8],
    length: &mut usize,
    bytes: &[u8],
    log: &mut [u8],
    used: &mut usize,
) -> u32
    ensures { RunForC image.old length.old bytes.now log.old used.old result
        image.new length.new log.new used.new }
{
    let s = images::called_on(image, *length, record_or_0(bytes), log, *used);
    *length = s.length;
    *used = s.used;
    packed(s.answer)
}

// The last note of the log undone on a stored state.
#[unsafe(no_mangle)]
pub extern "C" fn replay_undo(
    image: &mut [u8],
    length: &mut usize,
    log: &[u8],
    used: &mut usize,
) -> u32
    ensures { UndoForC image.old length.old log.now used.old result
        image.new length.new used.new }
{
    let back = images::undo_on(image, *length, log, *used);
    *length = back.length;
    *used = back.used;
    packed(back.answer)
}
