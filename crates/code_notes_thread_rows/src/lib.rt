// A thread's record as a row of numbers, what is predicted of it, and back.
#![tactic(auto)]

pub mod thread_rows;
