// What came of a line, kept in the journal.
ghost use Rattle.std.specs.Prelude.{◌≡◌, ◌≤◌, length};
ghost use Rattle.journal.specs.History.{most_entries};
ghost use Rattle.journal.specs.Progress.{kept};
ghost use Rattle.calls.specs.Keep.{came_kept};

use edit_log::record::Record;
use journal::history::Entry;
use journal::progress::Progress;
use lines::text;
use replication::answer::Reply;
use report::turn::{Came, Turn};

// What is carried on after a line, with the payload that its call had and the block of a read.
#[tactic(auto, unfolding(crate::specs::Keep::came_kept))]
pub fn keep(
    p: Progress,
    turn: Turn,
    entries: &mut [Entry],
    store: &mut [u8],
    payload: &[u8],
    block: &[u8],
) -> Progress
    requires { (length entries.old ≡ most_entries) × (p.history.entries ≤ most_entries) }
    ensures { (kept entries.new store.new result
        ≡ came_kept p turn.came turn.control payload.now block.now entries.old store.old)
        × (result.history.entries ≤ most_entries) }
{
    let control = turn.control;
    match turn.came {
        Came::Setup { answer, .. } => p.after_setup(Reply { answer, control }),
        Came::Commit {
            answer,
            session,
            operations,
        } => {
            let ops = text::part_of(payload, 0, Record::SIZE * (operations as usize));
            p.after_commit(Reply { answer, control }, entries, store, session, ops)
        }
        Came::Read { answer, session } => {
            p.after_read(Reply { answer, control }, entries, store, session, block)
        }
        Came::Received { result, .. } => p.after_receive(control, result),
        Came::Unreadable { .. } => p.unreadable(),
        Came::Show | Came::Nothing => p,
        Came::Unwritten { refusal, .. } => p.after_count(Reply {
            answer: Err(refusal),
            control,
        }),
        Came::Preview { answer, .. }
        | Came::SendOrRefresh { answer, .. }
        | Came::Move { answer, .. }
        | Came::Load(answer)
        | Came::Retire { answer, .. } => p.after_count(Reply { answer, control }),
    }
}
