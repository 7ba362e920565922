// Send: one transaction more is sent to a studio.
ghost use Rattle.std.specs.Prelude.{◌≡◌, []};
ghost use Rattle.carts.specs.Refusal.{stop_number};
ghost use Rattle.replication.specs.Answer.{count_answer};
ghost use Rattle.replication.specs.Memory.{memory};
ghost use Rattle.replication.specs.System.{memory_of};
ghost use Rattle.replication.specs.Rows.{send_stop};
ghost use Rattle.replication.specs.Calls.{after, send};

use crate::answer::{CountResult, Reply};
use crate::control::Control;
use crate::rows;
use crate::system::System;
use carts::refusal::Refusal;

// The row that stops a send, if any.
pub fn decide_send(system: &System, studio: u32) -> Result<(), Refusal>
    ensures { stop_number result ≡ send_stop system.now.control (memory_of system.now) studio }
{
    rows::stopped_by_studio(system, studio)?;
    let sent = system.control.sent_to(studio);
    let applied = system.control.applied_by(studio);
    if sent == system.control.commits {
        return Err(Refusal::AllSent);
    }
    if sent - applied == Control::WINDOW {
        return Err(Refusal::WindowFull);
    }
    Ok(())
}

// Document 01's send. Memory is only read.
pub fn send(
    control: Control,
    library: &[u8],
    log: &[u8],
    sessions: &[u8],
    studio: u32,
) -> CountResult
    ensures { after (count_answer result.answer) result.control (memory library.now log.now sessions.now) []
        ≡ send control (memory library.now log.now sessions.now) studio }
{
    let system = System {
        control,
        library,
        log,
        sessions,
    };
    if let Err(refusal) = decide_send(&system, studio) {
        return Reply {
            answer: Err(refusal),
            control,
        };
    }
    let n = control.sent_to(studio) + 1;
    Reply {
        answer: Ok(n),
        control: control.with_sent(studio, n),
    }
}
