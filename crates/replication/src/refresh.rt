// Refresh: a studio's copy takes the next transaction.
ghost use Rattle.std.specs.Prelude.{◌≡◌, []};
ghost use Rattle.carts.specs.Refusal.{stop_number};
ghost use Rattle.replication.specs.Answer.{count_answer};
ghost use Rattle.replication.specs.Memory.{memory};
ghost use Rattle.replication.specs.System.{memory_of};
ghost use Rattle.replication.specs.Rows.{refresh_stop};
ghost use Rattle.replication.specs.Calls.{after, refresh};

use crate::answer::{CountResult, Reply};
use crate::control::Control;
use crate::system::System;
use crate::{rows, walk};
use carts::cart::Cart;
use carts::refusal::Refusal;
use edit_log::transaction;

// The row that stops a refresh, if any.
pub fn decide_refresh(system: &System, studio: u32) -> Result<(), Refusal>
    ensures { stop_number result ≡ refresh_stop system.now.control (memory_of system.now) studio }
{
    rows::stopped_by_studio(system, studio)?;
    if system.control.sent_to(studio) == system.control.applied_by(studio) {
        return Err(Refusal::AllApplied);
    }
    Ok(())
}

// Document 01's refresh: the studio's copy is lent on as a part of library memory, to be changed.
pub fn refresh(
    control: Control,
    library: &mut [u8],
    log: &[u8],
    sessions: &[u8],
    studio: u32,
) -> CountResult
    ensures { after (count_answer result.answer) result.control (memory library.new log.now sessions.now) []
        ≡ refresh control (memory library.old log.now sessions.now) studio }
{
    let system = System {
        control,
        library,
        log,
        sessions,
    };
    if let Err(refusal) = decide_refresh(&system, studio) {
        return Reply {
            answer: Err(refusal),
            control,
        };
    }
    let applied = control.applied_by(studio);
    let first = walk::transaction_after(control, log, applied);
    let start = Cart::COPY_SIZE * (studio as usize);
    let end = start + Cart::COPY_SIZE;
    transaction::apply_transaction(&mut library[start..end], log, first);
    let n = applied + 1;
    Reply {
        answer: Ok(n),
        control: control.with_applied(studio, n),
    }
}
