// Read: answered from the studio's copy where it has reached the session's number, else stored.
ghost use Rattle.std.specs.Prelude.{◌≡◌};
ghost use Rattle.carts.specs.Refusal.{stop_number};
ghost use Rattle.replication.specs.Answer.{read_answer};
ghost use Rattle.replication.specs.Memory.{memory};
ghost use Rattle.replication.specs.System.{memory_of};
ghost use Rattle.replication.specs.Rows.{read_stop};
ghost use Rattle.replication.specs.Calls.{after, read};

use crate::answer::{ReadResult, Reading, Reply};
use crate::control::Control;
use crate::session::Session;
use crate::system::System;
use crate::{block, rows, session};
use carts::refusal::Refusal;

// The row that stops a read, if any.
pub fn decide_read(
    system: &System,
    session: u32,
    request: &[u8],
    room: usize,
) -> Result<(), Refusal>
    ensures { stop_number result ≡ read_stop system.now.control (memory_of system.now) session request.now room }
{
    rows::stopped_by_session(system, session)?;
    let own = Session::from_bytes(session::session_at(system.sessions, session));
    if own.is_waiting() {
        return Err(Refusal::ReadWaits);
    }
    if !session::is_request(request) {
        return Err(Refusal::RequestForm);
    }
    let asked = Session::from_bytes(request);
    if room < asked.needed() {
        return Err(Refusal::ShortOutput);
    }
    Ok(())
}

// Document 01's read.
pub fn read(
    control: Control,
    library: &[u8],
    log: &[u8],
    sessions: &mut [u8],
    session: u32,
    request: &[u8],
    output: &mut [u8],
) -> ReadResult
    ensures { after (read_answer result.answer) result.control (memory library.now log.now sessions.new) output.new
        ≡ read control (memory library.now log.now sessions.old) session request.now output.old }
{
    let room = output.len();
    let system = System {
        control,
        library,
        log,
        sessions,
    };
    if let Err(refusal) = decide_read(&system, session, request, room) {
        return Reply {
            answer: Err(refusal),
            control,
        };
    }
    let mut own = [0u8; Session::SIZE];
    own.copy_from_slice(session::session_at(sessions, session));
    let reading = block::block(control, library, sessions, session, request, &own, output);
    if let Reading::Waits(number) = reading {
        session::store(sessions, session, request, number);
    }
    Reply {
        answer: Ok(reading),
        control,
    }
}
