// The one-copy order: in words, and printed.
#![tactic(auto)]

pub mod entries;
pub mod order;
