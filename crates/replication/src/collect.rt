// Collect: the stored read, answered where the studio's copy has reached the session's number.
ghost use Rattle.std.specs.Prelude.{◌≡◌};
ghost use Rattle.carts.specs.Refusal.{stop_number};
ghost use Rattle.replication.specs.Answer.{read_answer};
ghost use Rattle.replication.specs.Memory.{memory};
ghost use Rattle.replication.specs.System.{memory_of};
ghost use Rattle.replication.specs.Rows.{collect_stop};
ghost use Rattle.replication.specs.Calls.{after, collect};

use crate::answer::{ReadResult, Reply};
use crate::control::Control;
use crate::session::Session;
use crate::system::System;
use crate::{block, rows, session};
use carts::refusal::Refusal;

// The row that stops a collect, if any.
pub fn decide_collect(system: &System, session: u32, room: usize) -> Result<(), Refusal>
    ensures { stop_number result ≡ collect_stop system.now.control (memory_of system.now) session room }
{
    rows::stopped_by_session(system, session)?;
    let own = Session::from_bytes(session::session_at(system.sessions, session));
    if !own.is_waiting() {
        return Err(Refusal::NothingWaits);
    }
    if room < own.needed() {
        return Err(Refusal::ShortOutput);
    }
    Ok(())
}

// Document 01's collect.
pub fn collect(
    control: Control,
    library: &[u8],
    log: &[u8],
    sessions: &mut [u8],
    session: u32,
    output: &mut [u8],
) -> ReadResult
    ensures { after (read_answer result.answer) result.control (memory library.now log.now sessions.new) output.new
        ≡ collect control (memory library.now log.now sessions.old) session output.old }
{
    let room = output.len();
    let system = System {
        control,
        library,
        log,
        sessions,
    };
    if let Err(refusal) = decide_collect(&system, session, room) {
        return Reply {
            answer: Err(refusal),
            control,
        };
    }
    let mut asked = [0u8; Session::SIZE];
    asked.copy_from_slice(session::session_at(sessions, session));
    let nothing = [0u8; Session::SIZE];
    let reading = block::block(
        control, library, sessions, session, &asked, &nothing, output,
    );
    Reply {
        answer: Ok(reading),
        control,
    }
}
