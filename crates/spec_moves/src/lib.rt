// The two moves of which every call is made, of a thread and of a message, with the parts of the state that they touch.
#![tactic(auto)]

pub mod parts;
