// Sixteen bytes as a call, and document 01's table of kinds: who may call, which fields have a meaning, and whom a call names.
#![tactic(auto)]

pub mod call;
pub mod kinds;
