// How many there are of each thing that document 01 numbers: the one place in the code that has these numbers.
pub const THREADS: usize = 32;

pub const SEMAPHORES: usize = 16;

pub const EVENTS: usize = 8;

pub const MESSAGES: usize = 64;

pub const FLAGS: usize = 16;

// The same, to compare an id with.
pub const THREAD_IDS: u8 = THREADS as u8;

pub const SEMAPHORE_IDS: u8 = SEMAPHORES as u8;

pub const EVENT_IDS: u8 = EVENTS as u8;

pub const MESSAGE_IDS: u8 = MESSAGES as u8;

pub const FLAG_IDS: u8 = FLAGS as u8;

// Priorities go from 1 to this, and channels to that.
pub const PRIORITIES: u8 = 30;

pub const CHANNELS: u8 = 15;

// Event bits are counted from 0.
pub const BITS: u8 = 32;
