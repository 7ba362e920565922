// The test of control and the three memories: one pass over all their bytes.
ghost use Rattle.std.specs.Prelude.{◌≡◌, length, [], ◌∷◌};
ghost use Rattle.carts.specs.Bytes.{every, each_part};
ghost use Rattle.replication.specs.System.{memory_of};
ghost use Rattle.replication.specs.Memory.{library_size, copy_count, session_size, sessions_size, session_count};
ghost use Rattle.edit_log.specs.Log.{log_size};
ghost use Rattle.carts.specs.Cart.{copy_size};
ghost use Rattle.replication.specs.Layout.{replica_form, sixth_form, session_form, counts_form, of_layout};

use crate::control::Control;
use crate::session::Session;
use crate::system::System;
use crate::{copies, session};
use carts::{bytes, cart};
use edit_log::chain;

// Copy i of a system of so many studios is of its form: carts, or zeros above the last studio.
fn is_replica(copy: &[u8], i: u32, studios: u32) -> bool
    requires { length copy.now ≡ copy_size }
    ensures { result ≡ replica_form studios i copy.now }
{
    if i <= studios {
        return cart::is_copy(copy);
    }
    bytes::all_zero(copy)
}

// As is_replica, by another definition and condition: the sixth copy is of its form: carts, or zeros while nothing is retired.
fn is_sixth(copy: &[u8], retired: u32) -> bool
    requires { length copy.now ≡ copy_size }
    ensures { result ≡ sixth_form retired copy.now }
{
    if retired == 0 {
        return bytes::all_zero(copy);
    }
    cart::is_copy(copy)
}

// The copies of the head end and the studios.
fn are_replicas(library: &[u8], studios: u32) -> bool
    requires { length library.now ≡ library_size }
    ensures { result ≡ each_part (replica_form studios) copy_size copy_count 0 library.now }
{
    let mut ok = true;
    for i in 0..Control::COPIES {
        ok &= is_replica(copies::copy_at(library, i), i, studios);
    }
    ok
}

// The sixteen sessions.
fn are_sessions(control: Control, sessions: &[u8]) -> bool
    requires { length sessions.now ≡ sessions_size }
    ensures { result ≡ each_part (session_form control) session_size session_count 1 sessions.now }
{
    let mut ok = true;
    for s in 1..=Session::COUNT {
        let own = session::session_at(sessions, s);
        ok &= session::is_session(own, control.studio_of(s), control.commits);
    }
    ok
}

// The counts of the four studios.
fn are_counts(control: Control) -> bool
    ensures { result ≡ every (counts_form control) (1 ∷ 2 ∷ 3 ∷ 4 ∷ []) }
{
    control.has_counts(1) & control.has_counts(2) & control.has_counts(3) & control.has_counts(4)
}

// Control and memory are of this layout.
pub fn is_layout(system: &System) -> bool
    requires { (length system.now.library.now ≡ library_size) × ((length system.now.log.now ≡ log_size) × (length system.now.sessions.now ≡ sessions_size)) }
    ensures { result ≡ of_layout system.now.control (memory_of system.now) }
{
    let control = system.control;
    if !bytes::is_within(1, Control::STUDIOS, control.studios) {
        return false;
    }
    if !control.has_studios() {
        return false;
    }
    if Control::COMMITS_MOST < control.commits {
        return false;
    }
    if !are_counts(control) {
        return false;
    }
    if !are_replicas(system.library, control.studios) {
        return false;
    }
    if !is_sixth(
        copies::copy_at(system.library, Control::SIXTH),
        control.retired,
    ) {
        return false;
    }
    if !chain::are_chains(
        system.log,
        control.log_count(),
        control.used,
        control.oldest,
        control.free_first,
        control.free_last,
    ) {
        return false;
    }
    are_sessions(control, system.sessions)
}
