// A line of a transcript: its call is made on the engine, its answer printed, and what came of it kept.
ghost use Rattle.std.specs.Prelude.{◌≤◌};
ghost use Rattle.journal.specs.History.{most_entries};

use crate::desk::Desk;
use calls::lent::Lent;
use calls::{keep, make};
use journal::history::Entry;
use journal::progress::Progress;
use lines::parse::Call;
use print::seen::Seen;
use print::tell::tell;
use report::turn::Turn;

// What came of a line is printed, then kept.
fn finish(p: Progress, turn: Turn, desk: &mut Desk, payload: &[u8], block: &[u8]) -> Progress
    requires { p.history.entries ≤ most_entries }
    ensures { result.history.entries ≤ most_entries }
{
    let seen = Seen {
        library: &desk.library,
        sessions: &desk.sessions,
        copy: &desk.copy,
        entries: &desk.entries,
        store: &desk.store,
        payload,
        block,
    };
    let same = tell(p, turn.came, seen);
    let next = keep::keep(p, turn, &mut desk.entries, &mut desk.store, payload, block);
    next.compared(same)
}

// One line's call, with its bytes at the start of the payload.
pub fn play_call(p: Progress, desk: &mut Desk, call: Call, payload: &[u8]) -> Progress
    requires { p.history.entries ≤ most_entries }
    ensures { result.history.entries ≤ most_entries }
{
    let mut block = [0u8; Entry::MOST_BYTES];
    let mut lent = Lent {
        library: &mut desk.library,
        log: &mut desk.log,
        sessions: &mut desk.sessions,
        copy: &mut desk.copy,
        store: &desk.store,
        payload,
        block: &mut block,
    };
    let turn = make::make(p.control, &mut lent, p.van_applied, call);
    finish(p, turn, desk, payload, &block)
}
