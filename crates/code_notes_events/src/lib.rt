// The events' section of a note: rows, written, and read back.
#![tactic(auto)]

pub mod event_back;
pub mod event_notes;
pub mod event_rows;
