// Lines of a transcript: read as calls, with the bytes of their operations, requests and studios.
#![tactic(auto)]

pub mod build;
pub mod cursor;
pub mod input;
pub mod keyword;
pub mod parse;
pub mod text;
