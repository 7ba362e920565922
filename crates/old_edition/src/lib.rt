// Wall files of the thirty-two-character edition, converted to one copy of ours and back: document 02, S-10.
#![tactic(auto)]

pub mod convert;
pub mod file;
pub mod old_cart;
