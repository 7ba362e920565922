// The writer at the head end: the message of a committed transaction.
ghost use Rattle.std.specs.Prelude.{◌≡◌, not, [], ◌∷◌, ◌++◌};
ghost use Rattle.carts.specs.Bytes.{within};
ghost use Rattle.carts.specs.Refusal.{stop_number};
ghost use Rattle.replication.specs.System.{memory_of};
ghost use Rattle.replication.specs.Answer.{count_answer};
ghost use Rattle.replication.specs.Memory.{memory};
ghost use Rattle.replication.specs.Rows.{row, stopped, memory_rows};
ghost use Rattle.replication.specs.Calls.{after, write};

use crate::{message, transaction};
use carts::bytes;
use carts::cart::Cart;
use carts::refusal::Refusal;
use replication::answer::{CountResult, Reply};
use replication::control::Control;
use replication::system::System;
use replication::{rows, walk};

// Rows 1, 2 and 21, and of row 17 what it says of the number: the row that stops the writer, if any.
fn stopped_by_number(system: &System, number: u32) -> Result<(), Refusal>
    ensures { stop_number result ≡ stopped (memory_rows system.now.control (memory_of system.now)
        ++ (row 21 (within 1 system.now.control.retired number) ∷ row 17 (not (within 1 system.now.control.commits number)) ∷ [])) }
{
    rows::stopped_by_memory(system)?;
    if bytes::is_within(1, system.control.retired, number) {
        return Err(Refusal::RetiredEdit);
    }
    if !bytes::is_within(1, system.control.commits, number) {
        return Err(Refusal::NoMessage);
    }
    Ok(())
}

// Document 02's writer (S-6, with row 21 of S-9): the message of transaction `number` at output's start. Memory is only read.
pub fn write(
    control: Control,
    library: &[u8],
    log: &[u8],
    sessions: &[u8],
    number: u32,
    output: &mut [u8],
) -> CountResult
    ensures { after (count_answer result.answer) result.control (memory library.now log.now sessions.now) output.new
        ≡ write control (memory library.now log.now sessions.now) number output.old }
{
    let system = System {
        control,
        library,
        log,
        sessions,
    };
    if let Err(refusal) = stopped_by_number(&system, number) {
        return Reply {
            answer: Err(refusal),
            control,
        };
    }
    let first = walk::transaction_after(control, log, number - 1);
    let count = transaction::count_operations(log, first);
    let size = message::HEAD_SIZE + Cart::SIZE * (count as usize);
    if output.len() < size {
        return Reply {
            answer: Err(Refusal::NoMessage),
            control,
        };
    }
    message::put_head(output, number, count);
    transaction::put_operations(&mut output[message::HEAD_SIZE..size], log, first);
    Reply {
        answer: Ok(size as u32),
        control,
    }
}
