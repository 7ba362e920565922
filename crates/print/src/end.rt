// The end of a transcript, printed.
ghost use Rattle.std.specs.Prelude.{◌≤◌};
ghost use Rattle.journal.specs.History.{most_entries};

use crate::order;
use journal::history::Entry;
use journal::progress::Progress;
use journal::status;
use report::{show, transcript};
use words::line;

// What came of the lines, and the reads that wait; not inlined, as in tell.rt.
#[inline(never)]
fn tell_summary(player: Progress, sessions: &[u8], cut: bool) {
    if cut {
        transcript::cut_after(player.line);
    }
    transcript::summary(player);
    show::waiting(player.control, sessions);
}

// The summary, the reads that wait and the order of what came last; the status goes to `play`.
pub fn tell_end(player: Progress, sessions: &[u8], entries: &[Entry], store: &[u8], cut: bool)
    requires { player.history.entries ≤ most_entries }
{
    tell_summary(player, sessions, cut);
    let same = order::show_order(player.history, entries, store);
    let last = player.compared(same);
    line::status(status::status(!cut, last.tally));
}
