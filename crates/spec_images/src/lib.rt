// The stored state: its image, read and written, and a call and an undo on it; the promises, and their theorems.
#![tactic(auto)]

use spec_answers::Answer;
use spec_kernel::records::Kernel;

// What an image holds: 0 and the state; or 16 and nothing: the state is the fresh one. An enum would say it, but an enum holds no array.
#[derive(Clone, Copy)]
pub struct Recalled {
    pub kernel: Kernel,
    pub number: u8,
}

// A state written into lent room: 0, 13 or 14, and the length of the image, 0 where none was written.
#[derive(Clone, Copy)]
pub struct Written {
    pub number: u8,
    pub length: usize,
}

// A call or an undo on a stored image: the answer, the length of the image then, and how much of the log is used then.
#[derive(Clone, Copy)]
pub struct Stored {
    pub answer: Answer,
    pub length: usize,
    pub used: usize,
}
