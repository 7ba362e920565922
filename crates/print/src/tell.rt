// What came of a line, printed. What prints a page and compares no order is not inlined: so no page of it is on the stack while an
// order is compared.
ghost use Rattle.std.specs.Prelude.{◌≤◌};
ghost use Rattle.journal.specs.History.{most_entries};

use crate::answer;
use crate::seen::Seen;
use edit_log::record::Record;
use journal::progress::Progress;
use lines::text;
use replication::answer::CountAnswer;
use report::show;
use report::turn::Came;
use words::page::Page;

// A preview or a commit was answered, with its operations at the start of the payload.
#[inline(never)]
fn tell_edit(previews: bool, answer: CountAnswer, session: u32, operations: u32, seen: Seen) {
    let ops = text::part_of(seen.payload, 0, Record::SIZE * (operations as usize));
    let mut page = Page::new();
    answer::edited(&mut page, previews, answer, seen.library, session, ops);
}

// A read, a collect, a forward, a move, a load or a retire was answered, a line shows the state or cannot be read, or an edit's message
// was not written or was received.
#[inline(never)]
fn tell_other(before: Progress, came: Came, seen: Seen) {
    let control = before.control;
    let mut page = Page::new();
    match came {
        Came::Read { answer, session } => {
            answer::read(&mut page, answer, control, session, seen.block);
        }
        Came::Show => show::show(
            &mut page,
            control,
            seen.library,
            seen.sessions,
            seen.copy,
            before.van_applied,
        ),
        Came::Unreadable { mistake, at } => {
            refusals::print::unreadable(&mut page, before.line, mistake, at);
        }
        Came::Unwritten { refusal, edit } => {
            refusals::print::refusal_of_edit(&mut page, refusal, edit);
        }
        Came::Received { result, edit } => answer::received(&mut page, result, edit),
        Came::Move {
            answer,
            session,
            studio,
        } => answer::moved(&mut page, answer, control, session, studio),
        Came::Load(answer) => answer::loaded(&mut page, answer),
        Came::Retire { answer, used } => answer::retired(&mut page, answer, used),
        _ => {}
    }
}

// What came of a line, printed; the answer is whether an order that it ended is the same on a single library.
pub fn tell(before: Progress, came: Came, seen: Seen) -> bool
    requires { before.history.entries ≤ most_entries }
{
    match came {
        Came::Setup { answer, studios } => return answer::made(answer, before, seen, studios),
        Came::Commit {
            answer,
            session,
            operations,
        } => tell_edit(false, answer, session, operations, seen),
        Came::Preview {
            answer,
            session,
            operations,
        } => tell_edit(true, answer, session, operations, seen),
        Came::SendOrRefresh {
            answer,
            studio,
            is_sent,
        } => answer::send_or_refresh(answer, studio, is_sent),
        Came::Nothing => {}
        _ => tell_other(before, came, seen),
    }
    true
}
