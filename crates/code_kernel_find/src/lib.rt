// Finding: the record of an id, a free id, the first thread of a list or queue, the next message of a thread.
#![tactic(auto)]

pub mod by_id;
pub mod firsts;
pub mod free;
