// What came of a line; carts, the state and the whole transcript: in words, and printed.
#![tactic(auto)]

pub mod answered;
pub mod cart;
pub mod known;
pub mod show;
pub mod state;
pub mod summary;
pub mod transcript;
pub mod turn;
