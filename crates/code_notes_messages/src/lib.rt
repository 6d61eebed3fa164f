// The messages' section of a note: rows, written, and read back.
#![tactic(auto)]

pub mod message_back;
pub mod message_notes;
pub mod message_rows;
