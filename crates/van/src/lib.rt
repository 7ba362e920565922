// The outside-broadcast van of document 02, S-6: the writer at the head end and the receiver in the van.
#![tactic(auto)]

pub mod answer;
pub mod message;
pub mod receive;
pub mod transaction;
pub mod write;
