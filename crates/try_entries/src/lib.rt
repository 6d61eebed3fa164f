// What must come back of each public entry, and the count of it, for the programs that try damaged states and logs.
#![tactic(auto)]

pub mod again;
pub mod copies;
pub mod entries;
pub mod report;
pub mod returned;
pub mod tallies;
