// Forward: answered from the studio's copy where it has reached the session's number, else from the head end's copy.
ghost use Rattle.std.specs.Prelude.{◌≡◌, ◌<◌, ◌≤◌};
ghost use Rattle.replication.specs.Answer.{read_answer};
ghost use Rattle.replication.specs.Memory.{memory, studio_count};
ghost use Rattle.replication.specs.Calls.{after, forward};
ghost use Rattle.replication.specs.Values.{forward_source};

use crate::answer::{ReadResult, Reply};
use crate::block::Due;
use crate::control::Control;
use crate::session::Session;
use crate::source::Source;
use crate::system::System;
use crate::{read, session, source};

// Which copy answers. Where it is the head end's, the session has seen all that is committed.
fn source_of(control: Control, due: Due) -> Source
    requires numbers { (due.number < 65536) × ((due.state < 65536) × (control.commits < 65536)) }
    requires studio { due.studio ≤ studio_count }
    ensures { (result ≡ forward_source control due) × ((result.copy ≤ studio_count) × (result.next < 65536)) }
{
    let commits = control.commits;
    if due.state < due.number {
        return Source {
            copy: 0,
            state: commits,
            next: commits,
        };
    }
    due.source()
}

// Document 02's forward (S-4): read's rows decide, and no read waits.
pub fn forward(
    control: Control,
    library: &[u8],
    log: &[u8],
    sessions: &mut [u8],
    session: u32,
    request: &[u8],
    output: &mut [u8],
) -> ReadResult
    ensures { after (read_answer result.answer) result.control (memory library.now log.now sessions.new) output.new
        ≡ forward control (memory library.now log.now sessions.old) session request.now output.old }
{
    let room = output.len();
    let system = System {
        control,
        library,
        log,
        sessions,
    };
    if let Err(refusal) = read::decide_read(&system, session, request, room) {
        return Reply {
            answer: Err(refusal),
            control,
        };
    }
    let mut own = [0u8; Session::SIZE];
    own.copy_from_slice(session::session_at(sessions, session));
    let due = Due::at(control, sessions, session);
    let source = source_of(control, due);
    let reading = source::answer_from(source, library, sessions, session, request, &own, output);
    Reply {
        answer: Ok(reading),
        control,
    }
}
