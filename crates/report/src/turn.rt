// What came of a line of a transcript.
use carts::refusal::Refusal;
use lines::cursor::Mistake;
use replication::answer::{CountAnswer, ReadAnswer, SetupAnswer};
use replication::control::Control;
use van::answer::ReceiveResult;

// The answer of a call and what the call named, of a retire the records that the log uses after it; that a line shows the state, cannot
// be read or is no call; for the van, why no message of an edit was written, or what it made of the message.
#[derive(Clone, Copy)]
pub enum Came {
    Setup {
        answer: SetupAnswer,
        studios: u32,
    },
    Commit {
        answer: CountAnswer,
        session: u32,
        operations: u32,
    },
    Preview {
        answer: CountAnswer,
        session: u32,
        operations: u32,
    },
    // A flag, and no case for each: what is told differs in a word alone.
    SendOrRefresh {
        answer: CountAnswer,
        studio: u32,
        is_sent: bool,
    },
    // A read, a collect or a forward.
    Read {
        answer: ReadAnswer,
        session: u32,
    },
    Show,
    Unreadable {
        mistake: Mistake,
        at: usize,
    },
    Nothing,
    Unwritten {
        refusal: Refusal,
        edit: u32,
    },
    Received {
        result: ReceiveResult,
        edit: u32,
    },
    Move {
        answer: CountAnswer,
        session: u32,
        studio: u32,
    },
    Load(CountAnswer),
    Retire {
        answer: CountAnswer,
        used: u32,
    },
}

// What came of a line, and control after it.
#[derive(Clone, Copy)]
pub struct Turn {
    pub came: Came,
    pub control: Control,
}
