// The way back, read from the sections of a note: the state before.
#![tactic(auto)]

pub mod state_back;
pub mod table_back;
