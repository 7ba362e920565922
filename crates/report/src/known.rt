// Whether a session that a call names is known.
ghost use Rattle.std.specs.Prelude.{◌≡◌};
ghost use Rattle.report.specs.Known.{known_session};

use carts::bytes;
use replication::control::Control;

// There is such a session, and it is used. Where it is not so, refusal 3 of a move is for its session, else for the studio.
#[tactic(auto, using(carts::proofs::ScanLaws::within_true), unfolding(crate::specs::Known::known_session, replication::specs::Rows::session_row))]
pub fn is_known(control: Control, session: u32) -> bool
    ensures { result ≡ known_session control session }
{
    bytes::is_within(1, Control::SESSIONS, session) && control.studio_of(session) != 0
}
