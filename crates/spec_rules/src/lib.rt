// The state rules, one definition each, the test that can be computed, and the theorem that the test means the rules.
#![tactic(auto)]

pub mod tests;
