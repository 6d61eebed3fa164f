// The scheduler's section of a note: its row, and written.
#![tactic(auto)]

pub mod scheduler_notes;
pub mod scheduler_rows;
