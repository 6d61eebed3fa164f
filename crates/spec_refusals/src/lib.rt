// What a call names, and document 01's table of refusals over it: each number with its condition, in table order.
#![tactic(auto)]

pub mod named;
pub mod refusal;
