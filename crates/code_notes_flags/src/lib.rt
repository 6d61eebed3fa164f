// The flags' section of a note: written, and read back.
#![tactic(auto)]

pub mod flag_back;
pub mod flag_notes;
