// What comes back of a call and of an undo, with and without a log; the promises, the sample runs, and their theorems.
#![tactic(auto)]

use spec_kernel::records::Kernel;

// What comes back of a call: a number, a value, and who runs (255 for none).
#[derive(Clone, Copy)]
pub struct Answer {
    pub number: u8,
    pub value: u8,
    pub runner: u8,
}

// The answer, the next state (an undo: the earlier one), and how much of the log is used then. The state comes first: behind three bytes
// the compiler copies it once more.
#[derive(Clone, Copy)]
pub struct Logged {
    pub kernel: Kernel,
    pub answer: Answer,
    pub used: usize,
}

// Many undos in one call: what the last of them gave, and how many notes were undone.
#[derive(Clone, Copy)]
pub struct Reached {
    pub kernel: Kernel,
    pub answer: Answer,
    pub used: usize,
    pub undone: usize,
}
