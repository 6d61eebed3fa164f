// Which ids a call can touch, of each table, and the theorem that the note over these ids is the note.
#![tactic(auto)]

pub mod spans;
