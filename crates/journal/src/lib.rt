// What is kept of a transcript from line to line: the accepted commits, those refused with 8 and the answered reads, and how
// each answer changes what is carried on.
#![tactic(auto)]

pub mod history;
pub mod progress;
pub mod status;
