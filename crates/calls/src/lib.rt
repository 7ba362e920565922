// The calls of a transcript: each is made on the engine, and what came of it is kept in the journal.
#![tactic(auto)]

pub mod deliver;
pub mod keep;
pub mod lent;
pub mod make;
