// The Block step of read and collect: answered where the copy of the session's studio has reached the session's number. `Due` is
// forward's too.
ghost use Rattle.std.specs.Prelude.{◌≡◌, true, List, ℕ, ◌<◌, ◌≤◌, length};
ghost use Rattle.replication.specs.Answer.{read_answer, waits};
ghost use Rattle.replication.specs.Memory.{memory, library_size, sessions_size, session_size, session_count, studio_count, session_at, sequence_of, nth, studio_of};
ghost use Rattle.replication.specs.Request.{request_of, request_fields, needed};
ghost use Rattle.replication.specs.Calls.{after, number_after, block};
ghost use Rattle.replication.specs.Values.{due_of, studio_source};

use crate::answer::Reading;
use crate::control::Control;
use crate::session::Session;
use crate::source::Source;
use crate::{session, source};

// A session's number, its studio, and the state that the studio's copy has reached.
#[derive(Clone, Copy)]
pub struct Due {
    pub number: u32,
    pub studio: u32,
    pub state: u32,
}

impl Due {
    pub fn at(control: Control, sessions: &[u8], session: u32) -> Due
        requires memory { (length sessions.now ≡ sessions_size) × ((1 ≤ session) × (session ≤ session_count)) }
        requires studio { (1 ≤ studio_of control session) × (studio_of control session ≤ studio_count) }
        ensures { (result ≡ due_of control sessions.now session) × (result.number < 65536) }
    {
        let own = Session::from_bytes(session::session_at(sessions, session));
        let studio = control.studio_of(session);
        let state = control.applied_by(studio);
        Due {
            number: own.number,
            studio,
            state,
        }
    }

    // The studio's copy: what answers where it has reached the session's number.
    pub fn source(self) -> Source
        requires { (self.number < 65536) × (self.state < 65536) }
        ensures { (result ≡ studio_source self) × (result.next < 65536) }
    {
        let next = number_after(self.number, self.state);
        Source {
            copy: self.studio,
            state: self.state,
            next,
        }
    }
}

// A session's number after an answer of the studio's copy, which showed a state: the greater of both (02, S-7).
fn number_after(number: u32, state: u32) -> u32
    requires { (number < 65536) × (state < 65536) }
    ensures { (result ≡ number_after number state) × (result < 65536) }
{
    if number < state {
        return state;
    }
    number
}

// The read in `asked`. Where it is answered the session is left with the bytes `left`; where it waits nothing changes.
pub fn block(
    control: Control,
    library: &[u8],
    sessions: &mut [u8],
    session: u32,
    asked: &[u8],
    left: &[u8],
    output: &mut [u8],
) -> Reading
    requires memory { (length library.now ≡ library_size) × ((length sessions.old ≡ sessions_size) × ((1 ≤ session) × (session ≤ session_count))) }
    requires studio { ((1 ≤ studio_of control session) × (studio_of control session ≤ studio_count)) × (nth control.applied (studio_of control session) < 65536) }
    requires request { (length asked.now ≡ session_size) × ((request_fields asked.now ≡ true) × (needed (request_of asked.now) ≤ length output.old)) }
    requires left_by { length left.now ≡ session_size }
    ensures left { (log : List ℕ) → after (read_answer (Ok result)) control (memory library.now log sessions.new) output.new
        ≡ block control (memory library.now log sessions.old) session (request_of asked.now) left.now
        (after (waits (sequence_of (session_at sessions.old session))) control (memory library.now log sessions.old) output.old) output.old }
    ensures small { (n : ℕ) → read_answer (Ok result) ≡ waits n → n < 65536 }
{
    let due = Due::at(control, sessions, session);
    if due.state < due.number {
        return Reading::Waits(due.number);
    }
    let source = due.source();
    source::answer_from(source, library, sessions, session, asked, left, output)
}
