// Move: a session goes to another studio (02, S-7). `move` is a word of the language.
ghost use Rattle.std.specs.Prelude.{◌≡◌, []};
ghost use Rattle.carts.specs.Refusal.{stop_number};
ghost use Rattle.replication.specs.Answer.{count_answer};
ghost use Rattle.replication.specs.Memory.{memory};
ghost use Rattle.replication.specs.System.{memory_of};
ghost use Rattle.replication.specs.Rows.{move_stop};
ghost use Rattle.replication.specs.Calls.{after, move};

use crate::answer::{CountResult, Reply};
use crate::control::Control;
use crate::session::Session;
use crate::system::System;
use crate::{rows, session};
use carts::refusal::Refusal;

// The row that stops a move, if any.
pub fn decide_move(system: &System, session: u32, studio: u32) -> Result<(), Refusal>
    ensures { stop_number result ≡ move_stop system.now.control (memory_of system.now) session studio }
{
    rows::stopped_by_session(system, session)?;
    rows::studio_row(system.control.studios, studio)?;
    let own = Session::from_bytes(session::session_at(system.sessions, session));
    if own.is_waiting() {
        return Err(Refusal::ReadWaits);
    }
    Ok(())
}

// Document 02's move, S-7. Memory is only read.
pub fn move_session(
    control: Control,
    library: &[u8],
    log: &[u8],
    sessions: &[u8],
    session: u32,
    studio: u32,
) -> CountResult
    ensures { after (count_answer result.answer) result.control (memory library.now log.now sessions.now) []
        ≡ move control (memory library.now log.now sessions.now) session studio }
{
    let system = System {
        control,
        library,
        log,
        sessions,
    };
    if let Err(refusal) = decide_move(&system, session, studio) {
        return Reply {
            answer: Err(refusal),
            control,
        };
    }
    Reply {
        answer: Ok(studio),
        control: control.with_studio(session, studio),
    }
}
