// Semaphores: create, destroy, periodic, pend and post.
#![tactic(auto)]

pub mod semaphores;
pub mod waiting;
