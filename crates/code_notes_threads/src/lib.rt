// The threads' section of a note: written, and read back.
#![tactic(auto)]

pub mod thread_back;
pub mod thread_notes;
