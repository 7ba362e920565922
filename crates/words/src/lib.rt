// Text on a page of fixed memory: words and numbers, and what came of an accepted call; and a page on standard output.
#![tactic(auto)]

pub mod answer;
pub mod line;
pub mod page;
pub mod request;
pub mod shown;
