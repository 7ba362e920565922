// The van beside the system: fresh after a setup, and messages written at the head end and received by it.
ghost use Rattle.std.specs.Prelude.{◌≡◌, List, ℕ, length};
ghost use Rattle.carts.specs.Cart.{copy_size};
ghost use Rattle.replication.specs.Answer.{setup_answer};
ghost use Rattle.van.specs.Receive.{van};
ghost use Rattle.replication.specs.Memory.{memory};
ghost use Rattle.calls.specs.Make.{copy_after, told, made, beside, van_leaves};

use carts::bytes;
use edit_log::record::Record;
use lines::text;
use replication::answer::SetupAnswer;
use replication::control::Control;
use report::turn::{Came, Turn};
use van::message;
use van::receive::receive;
use van::write::write;

// Every message fits: its first bytes and eight operations.
const MESSAGE_SIZE: usize = message::HEAD_SIZE + Record::TRANSACTION_SIZE;

// The van's copy after a setup: empty where it was accepted.
#[tactic(auto, unfolding(crate::specs::Make::copy_after, van::specs::Receive::fresh_van))]
pub fn set_up(answer: SetupAnswer, copy: &mut [u8])
    requires { length copy.old ≡ copy_size }
    ensures { copy.new ≡ copy_after (setup_answer answer) copy.old }
{
    if answer.is_ok() {
        bytes::clear(copy);
    }
}

// The message of an edit is written, and the van receives it. The system's memory is only read; a block beside it, which no message
// touches, is any.
#[tactic(auto, unfolding(carts::specs::Bytes::zeros, crate::specs::Make::delivered, crate::specs::Make::van_leaves))]
pub fn deliver(
    control: Control,
    library: &[u8],
    log: &[u8],
    sessions: &[u8],
    copy: &mut [u8],
    applied: u32,
    edit: u32,
) -> Turn
    ensures { (block : List ℕ) → beside copy.new (made (told result.came) result.control (memory library.now log.now sessions.now) block)
        ≡ van_leaves control (memory library.now log.now sessions.now) (van copy.old applied) edit block }
{
    let mut message = [0u8; MESSAGE_SIZE];
    let written = write(control, library, log, sessions, edit, &mut message);
    let came = match written.answer {
        Err(refusal) => Came::Unwritten { refusal, edit },
        Ok(size) => Came::Received {
            result: receive(copy, applied, text::part_of(&message, 0, size as usize)),
            edit,
        },
    };
    Turn {
        came,
        control: written.control,
    }
}
