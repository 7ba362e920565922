// The one-copy order of a transcript's entries, replayed on a single library.
#![tactic(auto)]

pub mod fault;
pub mod order;
pub mod replay;
