// What the calls answer. specs/Answer.antt gives the number and values of documents 01 and 02 for each case.
use crate::control::Control;
use carts::refusal::Refusal;

// A read, collect or forward that is not refused: state and found; or it waits, with the session's number (never from forward).
#[derive(Clone, Copy)]
pub enum Reading {
    Answered { state: u32, found: u32 },
    Waits(u32),
}

// Setup: accepted, or refused.
pub type SetupAnswer = Result<(), Refusal>;

// Commit, preview, send, refresh, the van's writer, move, load and retire: the commit's number (of a preview the one that it would
// have), sent, applied, the message's length, the studio, the commits, or the count retired.
pub type CountAnswer = Result<u32, Refusal>;

pub type ReadAnswer = Result<Reading, Refusal>;

// An answer, with control as it is handed back.
#[derive(Clone, Copy)]
pub struct Reply<T> {
    pub answer: Result<T, Refusal>,
    pub control: Control,
}

pub type SetupResult = Reply<()>;

pub type CountResult = Reply<u32>;

pub type ReadResult = Reply<Reading>;
