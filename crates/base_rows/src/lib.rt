// Rows of numbers as bytes: of an old row only what is not as predicted, and entries of such rows. It knows nothing of kernels.
#![tactic(auto)]

pub mod entries;
pub mod rows;
