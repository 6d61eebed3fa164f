// Document 01's records and the state that holds them; every list and queue by its name; who runs; free ids.
#![tactic(auto)]

pub mod records;
pub mod sizes;
