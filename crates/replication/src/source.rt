// An answered read: from which copy, with what state, and the session's next number. Read, collect and forward share it.
ghost use Rattle.std.specs.Prelude.{◌≡◌, true, List, ℕ, ◌<◌, ◌≤◌, length};
ghost use Rattle.replication.specs.Answer.{read_answer};
ghost use Rattle.replication.specs.Memory.{memory, library_size, sessions_size, session_size, session_count, studio_count};
ghost use Rattle.replication.specs.Request.{request_of, request_fields, needed};
ghost use Rattle.replication.specs.Calls.{after};
ghost use Rattle.replication.specs.Values.{answer_by};
ghost use Rattle.replication.specs.declared.control.Control.{Control};

use crate::answer::Reading;
use crate::{output, session};

// A copy (0 is the head end's), the state that is told with its carts, and the number that the session is left with.
#[derive(Clone, Copy)]
pub struct Source {
    pub copy: u32,
    pub state: u32,
    pub next: u32,
}

// The read in `asked`, answered. The session is left with the bytes `left` and the next number.
pub fn answer_from(
    source: Source,
    library: &[u8],
    sessions: &mut [u8],
    session: u32,
    asked: &[u8],
    left: &[u8],
    output: &mut [u8],
) -> Reading
    requires memory { (length library.now ≡ library_size) × ((length sessions.old ≡ sessions_size) × ((1 ≤ session) × (session ≤ session_count))) }
    requires source { (source.copy ≤ studio_count) × (source.next < 65536) }
    requires request { (length asked.now ≡ session_size) × ((request_fields asked.now ≡ true) × (needed (request_of asked.now) ≤ length output.old)) }
    requires left_by { length left.now ≡ session_size }
    ensures { (c : Control) (log : List ℕ) → after (read_answer (Ok result)) c (memory library.now log sessions.new) output.new
        ≡ answer_by source (request_of asked.now) c (memory library.now log sessions.old) session left.now output.old }
{
    let found = output::answer(library, source.copy, asked, output);
    session::store(sessions, session, left, source.next);
    Reading::Answered {
        state: source.state,
        found,
    }
}
