// A stored state: its image written and read, and a call and an undo on an image that stands in lent room.
ghost use Rattle.spec_images.specs.Promises.{StoredAway, ReadBack, AnsweredOn, UndoneOn};

use spec_images::{Recalled, Stored, Written};
use spec_kernel::records::Kernel;

// Any state written from the first lent byte on: 0 and the image's length, 13 where it has no room, 14 for a state that breaks a rule.
pub fn write(k: Kernel, room: &mut [u8]) -> Written
    ensures { StoredAway k room.old result room.new }
{
    code_images::writing::write(k, room)
}

// Any bytes: 0 and the state whose image they are, or 16 and nothing.
pub fn read(bytes: &[u8]) -> Recalled
    ensures { ReadBack bytes.now result }
{
    code_images::reading::read(bytes)
}

// Sixteen bytes as a call on the image in the first `length` lent bytes, with any log.
pub fn called_on(
    room: &mut [u8],
    length: usize,
    bytes: [u8; 16],
    log: &mut [u8],
    used: usize,
) -> Stored
    ensures { AnsweredOn room.old length bytes log.old used result room.new log.new }
{
    code_images_calls::called_on(room, length, bytes, log, used)
}

// The log's last note undone on the image in the first `length` lent bytes.
pub fn undo_on(room: &mut [u8], length: usize, log: &[u8], used: usize) -> Stored
    ensures { UndoneOn room.old length log.now used result room.new }
{
    code_images_calls::undo_on(room, length, log, used)
}
