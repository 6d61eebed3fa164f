// The frame of a log's last note: whether there is one, its length, its call record, and where its sections stand.
#![tactic(auto)]

pub mod frames;
pub mod last;
