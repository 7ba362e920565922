// Preview: what commit would answer, with nothing changed.
ghost use Rattle.std.specs.Prelude.{◌≡◌, []};
ghost use Rattle.replication.specs.Answer.{count_answer};
ghost use Rattle.replication.specs.Memory.{memory};
ghost use Rattle.replication.specs.Calls.{after, preview};

use crate::answer::{CountResult, Reply};
use crate::commit;
use crate::control::Control;
use crate::system::System;

// Document 02's preview of commit (S-1): commit's rows decide. Memory is only read.
pub fn preview(
    control: Control,
    library: &[u8],
    log: &[u8],
    sessions: &[u8],
    session: u32,
    operations: &[u8],
) -> CountResult
    ensures { after (count_answer result.answer) result.control (memory library.now log.now sessions.now) []
        ≡ preview control (memory library.now log.now sessions.now) session operations.now }
{
    let system = System {
        control,
        library,
        log,
        sessions,
    };
    if let Err(refusal) = commit::decide_commit(&system, session, operations) {
        return Reply {
            answer: Err(refusal),
            control,
        };
    }
    let n = control.commits + 1;
    Reply {
        answer: Ok(n),
        control,
    }
}
