// A stored state: its image, written and read.
#![tactic(auto)]

pub mod reading;
pub mod writing;
