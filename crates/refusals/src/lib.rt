// Why a call is refused and why a line cannot be read: in words, and printed.
#![tactic(auto)]

pub mod mistake;
pub mod print;
pub mod refusal;
