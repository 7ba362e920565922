// Files and inputs of the programs: opened and read, and what is said where that fails.
#![tactic(auto)]

pub mod failure;
pub mod reading;
