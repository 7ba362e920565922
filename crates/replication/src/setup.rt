// Setup: a fresh system.
ghost use Rattle.std.specs.Prelude.{◌≡◌, [], length, leb};
ghost use Rattle.carts.specs.Bytes.{every};
ghost use Rattle.carts.specs.Refusal.{stop_number};
ghost use Rattle.replication.specs.Answer.{setup_answer};
ghost use Rattle.replication.specs.Memory.{memory, session_count};
ghost use Rattle.replication.specs.Rows.{setup_stop};
ghost use Rattle.replication.specs.Calls.{after, setup};

use crate::answer::{Reply, SetupResult};
use crate::control::Control;
use crate::rows;
use carts::bytes;
use carts::refusal::Refusal;
use edit_log::fresh;
use edit_log::record::Record;

// Each byte is at most the number of studios.
fn are_studios(places: &[u8], studios: u32) -> bool
    ensures { result ≡ every (λ b. leb b studios) places.now }
{
    let mut ok = true;
    for b in places {
        ok &= u32::from(*b) <= studios;
    }
    ok
}

// The sixteen studio bytes as numbers.
fn numbers_of(places: &[u8]) -> [u32; 16]
    requires { length places.now ≡ session_count }
    ensures { result ≡ places.now }
{
    let mut numbers = [0u32; 16];
    for (i, b) in places.iter().enumerate() {
        numbers[i] = u32::from(*b);
    }
    numbers
}

// The row that stops a setup, if any.
pub fn decide_setup(
    library: &[u8],
    log: &[u8],
    sessions: &[u8],
    studios: u32,
    places: &[u8],
) -> Result<(), Refusal>
    ensures { stop_number result ≡ setup_stop (memory library.now log.now sessions.now) studios places.now }
{
    if !rows::are_lengths(library, log, sessions) {
        return Err(Refusal::Length);
    }
    if !bytes::is_within(1, Control::STUDIOS, studios) {
        return Err(Refusal::SetupForm);
    }
    if places.len() != Control::SESSIONS as usize {
        return Err(Refusal::SetupForm);
    }
    if !are_studios(places, studios) {
        return Err(Refusal::SetupForm);
    }
    Ok(())
}

// Document 01's setup: copies and sessions zero, every record free (S-9), counts zero; a refused one hands back the zero control.
pub fn setup(
    library: &mut [u8],
    log: &mut [u8],
    sessions: &mut [u8],
    studios: u32,
    places: &[u8],
) -> SetupResult
    ensures { after (setup_answer result.answer) result.control (memory library.new log.new sessions.new) []
        ≡ setup (memory library.old log.old sessions.old) studios places.now }
{
    if let Err(refusal) = decide_setup(library, log, sessions, studios, places) {
        return Reply {
            answer: Err(refusal),
            control: Control::new(0, [0; 16], 0, 0),
        };
    }
    bytes::clear(library);
    fresh::make_fresh(log);
    bytes::clear(sessions);
    Reply {
        answer: Ok(()),
        control: Control::new(studios, numbers_of(places), 1, Record::COUNT),
    }
}
