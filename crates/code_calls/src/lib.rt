// Sixteen bytes as a call, and what it needs to know of the state, looked up once.
#![tactic(auto)]

pub mod call;
pub mod kinds;
pub mod named;
