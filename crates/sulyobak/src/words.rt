// An answer as it passes to C: three words, and control. specs/Words.antt gives the words of each answer.
ghost use Rattle.std.specs.Prelude.{◌≡◌};
ghost use Rattle.replication.specs.Answer.{setup_answer, count_answer, read_answer};
ghost use Rattle.old_edition.specs.Convert.{convert_answer};
ghost use Rattle.sulyobak.specs.OldWords.{old_words_of};
ghost use Rattle.sulyobak.specs.Words.{words, words_of};

use carts::refusal::Refusal;
use replication::answer::{CountResult, ReadResult, Reading, SetupResult};
use replication::control::Control;

// The words that C reads: the C interface needs them as numbers.
#[repr(C)]
#[derive(Clone, Copy)]
pub struct Words {
    pub kind: u32,
    pub value: u32,
    pub found: u32,
    pub control: Control,
}

impl Words {
    pub const VERSION: u32 = 9;

    pub const REFUSED: u32 = 0;

    pub const DONE: u32 = 1;

    pub const ANSWERED: u32 = 2;

    pub const WAITS: u32 = 3;

    // Words with no `found`.
    pub fn new(kind: u32, value: u32, control: Control) -> Words
        ensures { result ≡ words kind value 0 control }
    {
        Words {
            kind,
            value,
            found: 0,
            control,
        }
    }
}

// Setup's answer, and the layout test's.
impl From<SetupResult> for Words {
    ghost from_gives = { λ reply given. given ≡ words_of (setup_answer reply.answer) reply.control };

    fn from(reply: SetupResult) -> Words {
        match reply.answer {
            Ok(()) => Words::new(Words::DONE, 0, reply.control),
            Err(row) => Words::new(Words::REFUSED, row.number(), reply.control),
        }
    }
}

// The answer of commit, preview, send, refresh, the van's writer, move, load and retire.
impl From<CountResult> for Words {
    ghost from_gives = { λ reply given. given ≡ words_of (count_answer reply.answer) reply.control };

    fn from(reply: CountResult) -> Words {
        match reply.answer {
            Ok(n) => Words::new(Words::DONE, n, reply.control),
            Err(refusal) => Words::new(Words::REFUSED, refusal.number(), reply.control),
        }
    }
}

// The answer of read, collect and forward.
impl From<ReadResult> for Words {
    ghost from_gives = { λ reply given. given ≡ words_of (read_answer reply.answer) reply.control };

    fn from(reply: ReadResult) -> Words {
        let control = reply.control;
        match reply.answer {
            Ok(Reading::Answered { state, found }) => Words {
                kind: Words::ANSWERED,
                value: state,
                found,
                control,
            },
            Ok(Reading::Waits(n)) => Words::new(Words::WAITS, n, control),
            Err(refusal) => Words::new(Words::REFUSED, refusal.number(), control),
        }
    }
}

// The answer of a conversion, which is passed no control: it is all zero.
impl From<Result<u32, Refusal>> for Words {
    ghost from_gives = { λ answer given. given ≡ old_words_of (convert_answer answer) };

    fn from(answer: Result<u32, Refusal>) -> Words {
        let nothing = Control::new(0, [0; 16], 0, 0);
        match answer {
            Ok(n) => Words::new(Words::DONE, n, nothing),
            Err(refusal) => Words::new(Words::REFUSED, refusal.number(), nothing),
        }
    }
}
