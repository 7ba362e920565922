// The van's answer as it passes to C: three words. specs/VanWords.antt gives the words of each answer.
ghost use Rattle.std.specs.Prelude.{◌≡◌};
ghost use Rattle.van.specs.Answer.{receive_answer};
ghost use Rattle.sulyobak.specs.VanWords.{van_words, van_words_of};

use crate::words::Words;
use van::answer::{ReceiveResult, Received};

#[repr(C)]
#[derive(Clone, Copy)]
pub struct VanWords {
    pub kind: u32,
    pub value: u32,
    pub applied: u32,
}

impl VanWords {
    pub const HELD: u32 = 4;

    pub fn new(kind: u32, value: u32, applied: u32) -> VanWords
        ensures { result ≡ van_words kind value applied }
    {
        VanWords {
            kind,
            value,
            applied,
        }
    }
}

// The answer of the receiver.
impl From<ReceiveResult> for VanWords {
    ghost from_gives = { λ reply given. given ≡ van_words_of (receive_answer reply.answer) reply.applied };

    fn from(reply: ReceiveResult) -> VanWords {
        let applied = reply.applied;
        match reply.answer {
            Ok(Received::Applied(n)) => VanWords::new(Words::DONE, n, applied),
            Ok(Received::Held(n)) => VanWords::new(VanWords::HELD, n, applied),
            Err(refusal) => VanWords::new(Words::REFUSED, refusal.number(), applied),
        }
    }
}
