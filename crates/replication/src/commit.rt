// Commit: a transaction acts on the head end's copy and is appended to the log.
ghost use Rattle.std.specs.Prelude.{◌≡◌, [], ◌<◌, ◌≤◌, length};
ghost use Rattle.carts.specs.Refusal.{refusal_number, stop_number};
ghost use Rattle.carts.specs.declared.refusal.Refusal.TheVariants.{WrongState};
ghost use Rattle.replication.specs.Answer.{count_answer};
ghost use Rattle.replication.specs.Memory.{memory, sessions_size, session_count, session_at};
ghost use Rattle.edit_log.specs.Log.{record_count};
ghost use Rattle.carts.specs.Cart.{copy_size};
ghost use Rattle.replication.specs.Request.{request_of, is_waiting};
ghost use Rattle.replication.specs.System.{memory_of};
ghost use Rattle.replication.specs.Rows.{stopped, size_form, operation_rows, commit_stop};
ghost use Rattle.replication.specs.Calls.{after, told_sessions, commit};

use crate::answer::{CountResult, Reply};
use crate::control::Control;
use crate::session::Session;
use crate::system::System;
use crate::{rows, session};
use carts::cart::Cart;
use carts::operation;
use carts::refusal::Refusal;
use edit_log::append;
use edit_log::record::Record;

// The bytes are those of 1 to 8 operations.
fn is_size(operations: &[u8]) -> bool
    ensures { result ≡ size_form operations.now }
{
    let n = operations.len();
    (Cart::SIZE <= n) & (n <= Record::TRANSACTION_SIZE) & (n % Cart::SIZE == 0)
}

// Rows 5, 6, 16, 7 and 8: the row that stops a commit of these operations, if any.
fn stopped_by_operations(
    used: u32,
    commits: u32,
    primary: &[u8],
    operations: &[u8],
) -> Result<(), Refusal>
    requires { (used ≤ record_count) × (length primary.now ≡ copy_size) }
    ensures { stop_number result ≡ stopped (operation_rows used commits primary.now operations.now) }
{
    if !is_size(operations) {
        return Err(Refusal::OperationCount);
    }
    if !operation::all_operations(operations) {
        return Err(Refusal::OperationForm);
    }
    if operation::any_spaced(operations) {
        return Err(Refusal::SpacedTitle);
    }
    let n = (operations.len() / Cart::SIZE) as u32;
    if (Record::COUNT < used + n) | (Control::COMMITS_MOST <= commits) {
        return Err(Refusal::NoRoom);
    }
    if !operation::meets_all(primary, operations) {
        return Err(Refusal::WrongState);
    }
    Ok(())
}

// A read is waiting in a session.
fn has_waiting(sessions: &[u8], session: u32) -> bool
    requires { (length sessions.now ≡ sessions_size) × ((1 ≤ session) × (session ≤ session_count)) }
    ensures { result ≡ is_waiting (request_of (session_at sessions.now session)) }
{
    Session::from_bytes(session::session_at(sessions, session)).is_waiting()
}

// The row that stops a commit, if any.
pub fn decide_commit(system: &System, session: u32, operations: &[u8]) -> Result<(), Refusal>
    ensures { stop_number result ≡ commit_stop system.now.control (memory_of system.now) session operations.now }
{
    rows::stopped_by_session(system, session)?;
    if has_waiting(system.sessions, session) {
        return Err(Refusal::ReadWaits);
    }
    stopped_by_operations(
        system.control.used,
        system.control.commits,
        &system.library[0..Cart::COPY_SIZE],
        operations,
    )
}

// What a commit that a row stops leaves of the sessions: by row 8, its session's number is commits.
fn tell_session(sessions: &mut [u8], session: u32, commits: u32, refusal: Refusal)
    requires { refusal ≡ WrongState → ((length sessions.old ≡ sessions_size) × ((1 ≤ session) × (session ≤ session_count))) × (commits < 65536) }
    ensures { sessions.new ≡ told_sessions sessions.old session commits (refusal_number refusal) }
{
    if let Refusal::WrongState = refusal {
        session::put_number(sessions, session, commits);
    }
}

// Document 01's commit, with document 02's row 16 (S-2), what its refusal 8 leaves (S-3) and the free chain (S-9).
pub fn commit(
    control: Control,
    library: &mut [u8],
    log: &mut [u8],
    sessions: &mut [u8],
    session: u32,
    operations: &[u8],
) -> CountResult
    ensures { after (count_answer result.answer) result.control (memory library.new log.new sessions.new) []
        ≡ commit control (memory library.old log.old sessions.old) session operations.now }
{
    let system = System {
        control,
        library,
        log,
        sessions,
    };
    if let Err(refusal) = decide_commit(&system, session, operations) {
        tell_session(sessions, session, control.commits, refusal);
        return Reply {
            answer: Err(refusal),
            control,
        };
    }
    operation::apply_all(&mut library[0..Cart::COPY_SIZE], operations);
    let next = append::append_transaction(
        log,
        control.log_count(),
        control.oldest,
        control.free_first,
        operations,
    );
    let left = control.committed((operations.len() / Cart::SIZE) as u32, next);
    session::put_number(sessions, session, left.commits);
    Reply {
        answer: Ok(left.commits),
        control: left,
    }
}
