// What one record says, the records that are not live, the fresh state, and who runs.
#![tactic(auto)]

pub mod conditions;
pub mod places;
pub mod records;
pub mod runner;
pub mod truth;
