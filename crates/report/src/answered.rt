// Who answered a read, a collect or a forward, in words.
ghost use Rattle.std.specs.Prelude.{◌≡◌};
ghost use Rattle.report.specs.Answered.{applied_for, answer_text};

use carts::bytes;
use replication::control::Control;
use words::answer;
use words::page::Page;

// What the studio of a session has applied; 0 where there is no such session or studio, and so no answer.
// Not an Option: the clause of `answered` compares that 0 with the state.
#[tactic(auto, using(carts::proofs::ScanLaws::within_true), unfolding(crate::specs::Answered::applied_for))]
fn applied_for(control: Control, session: u32) -> u32
    ensures { result ≡ applied_for control session }
{
    if !bytes::is_within(1, Control::SESSIONS, session) {
        return 0;
    }
    let studio = control.studio_of(session);
    if !bytes::is_within(1, Control::STUDIOS, studio) {
        return 0;
    }
    control.applied_by(studio)
}

// An answer at a state, with so many carts found: the studio's where it has applied so many, else the head end's.
#[tactic(auto, unfolding(crate::specs::Answered::answer_text))]
pub fn answered(page: &mut Page, control: Control, session: u32, state: u32, found: u32)
    ensures { page.new ≡ answer_text control session state found }
{
    if state == applied_for(control, session) {
        answer::answered(page, state, answer::behind(control.commits, state), found);
    } else {
        answer::by_head_end(page, state, found);
    }
}
