// What came of a line, the one-copy order and the end of a transcript, on standard output.
#![tactic(auto)]

pub mod answer;
pub mod end;
pub mod order;
pub mod seen;
pub mod tell;
