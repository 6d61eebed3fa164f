// The semaphores' section of a note: rows, written, and read back.
#![tactic(auto)]

pub mod semaphore_back;
pub mod semaphore_notes;
pub mod semaphore_rows;
