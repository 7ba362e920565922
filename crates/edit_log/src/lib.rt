// The log of documents 01 and 02: its records and two chains, the walk, and what setup, commit and retire write.
#![tactic(auto)]

pub mod append;
pub mod cell;
pub mod chain;
pub mod free;
pub mod fresh;
pub mod record;
pub mod transaction;
pub mod walk;
