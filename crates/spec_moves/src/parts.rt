// The parts of the state that the two moves touch.
use base_queue::Queue;
use spec_kernel::records::{Message, Thread};
use spec_kernel::sizes;

// The part of the state that threads move in.
#[derive(Clone, Copy)]
pub struct Threads {
    pub records: [Thread; sizes::THREADS],
    pub places: Queue,
    pub time: Queue,
}

// The part of the state that messages move in.
#[derive(Clone, Copy)]
pub struct Posts {
    pub records: [Message; sizes::MESSAGES],
    pub posted: Queue,
}
