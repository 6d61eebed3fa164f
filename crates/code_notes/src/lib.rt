// The parts of a note, each over the ids that a call of its kind can touch.
#![tactic(auto)]

pub mod note;
