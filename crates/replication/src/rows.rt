// Where a call is stopped: the rows on memory, which all calls but setup begin with, and the rows on who calls.
ghost use Rattle.std.specs.Prelude.{◌≡◌, [], ◌∷◌, ◌++◌};
ghost use Rattle.carts.specs.Refusal.{stop_number};
ghost use Rattle.replication.specs.Memory.{memory, lengths_form, studio_of};
ghost use Rattle.replication.specs.System.{memory_of};
ghost use Rattle.replication.specs.Rows.{stopped, memory_rows, session_row, studio_row};

use crate::control::Control;
use crate::layout;
use crate::session::Session;
use crate::system::System;
use carts::bytes;
use carts::refusal::Refusal;
use edit_log::record::Record;

// The three memories have their lengths.
pub fn are_lengths(library: &[u8], log: &[u8], sessions: &[u8]) -> bool
    ensures { result ≡ lengths_form (memory library.now log.now sessions.now) }
{
    (library.len() == Control::LIBRARY_SIZE)
        & (log.len() == Record::LOG_SIZE)
        & (sessions.len() == Session::MEMORY_SIZE)
}

// Rows 1 and 2.
pub fn stopped_by_memory(system: &System) -> Result<(), Refusal>
    ensures { stop_number result ≡ stopped (memory_rows system.now.control (memory_of system.now)) }
{
    if !are_lengths(system.library, system.log, system.sessions) {
        return Err(Refusal::Length);
    }
    if !layout::is_layout(system) {
        return Err(Refusal::Layout);
    }
    Ok(())
}

// Row 3 of a call that names a session.
fn session_row(control: Control, session: u32) -> Result<(), Refusal>
    ensures { stop_number result ≡ stopped (session_row session (studio_of control session) ∷ []) }
{
    if session < 1 {
        return Err(Refusal::NoSuchPlace);
    }
    if Control::SESSIONS < session {
        return Err(Refusal::NoSuchPlace);
    }
    if control.studio_of(session) == 0 {
        return Err(Refusal::NoSuchPlace);
    }
    Ok(())
}

// Row 3 of a call that names a studio.
pub fn studio_row(studios: u32, studio: u32) -> Result<(), Refusal>
    ensures { stop_number result ≡ stopped (studio_row studios studio ∷ []) }
{
    if !bytes::is_within(1, studios, studio) {
        return Err(Refusal::NoSuchPlace);
    }
    Ok(())
}

// Rows 1 to 3 of a call that names a session.
pub fn stopped_by_session(system: &System, session: u32) -> Result<(), Refusal>
    ensures { stop_number result ≡ stopped (memory_rows system.now.control (memory_of system.now)
        ++ (session_row session (studio_of system.now.control session) ∷ [])) }
{
    stopped_by_memory(system)?;
    session_row(system.control, session)
}

// Rows 1 to 3 of a call that names a studio.
pub fn stopped_by_studio(system: &System, studio: u32) -> Result<(), Refusal>
    ensures { stop_number result ≡ stopped (memory_rows system.now.control (memory_of system.now)
        ++ (studio_row system.now.control.studios studio ∷ [])) }
{
    stopped_by_memory(system)?;
    studio_row(system.control.studios, studio)
}
