// Load: the copies are compared with what the log makes.
ghost use Rattle.std.specs.Prelude.{◌≡◌, true, ◌&&◌, [], ◌≤◌, length};
ghost use Rattle.carts.specs.Bytes.{every};
ghost use Rattle.carts.specs.Cart.{copy_size};
ghost use Rattle.carts.specs.Refusal.{stop_number};
ghost use Rattle.replication.specs.Answer.{count_answer};
ghost use Rattle.replication.specs.Memory.{memory, library_size, studio_count};
ghost use Rattle.edit_log.specs.Log.{log_size, log_records};
ghost use Rattle.edit_log.specs.Values.{usable, walkable};
ghost use Rattle.replication.specs.Log.{log_count};
ghost use Rattle.replication.specs.System.{memory_of};
ghost use Rattle.replication.specs.Rows.{load_stop};
ghost use Rattle.replication.specs.Calls.{after, load};
ghost use Rattle.replication.specs.Values.{is_level, are_level, whole_from};

use crate::answer::{CountResult, Reply};
use crate::control::Control;
use crate::system::System;
use crate::{copies, rows};
use carts::bytes;
use carts::cart::Cart;
use carts::refusal::Refusal;
use edit_log::record::Record;
use edit_log::transaction;

// Studio i has this copy, if what it has applied is n.
fn is_level(library: &[u8], copy: &[u8], n: u32, applied: u32, i: u32) -> bool
    requires { (length library.now ≡ library_size) × ((length copy.now ≡ copy_size) × (i ≤ studio_count)) }
    ensures { result ≡ is_level library.now copy.now n applied i }
{
    if applied != n {
        return true;
    }
    bytes::are_equal(copies::copy_at(library, i), copy)
}

// Each studio that has applied n transactions has this copy.
fn are_level(system: System, copy: &[u8], n: u32) -> bool
    requires { (length system.library.now ≡ library_size) × ((length copy.now ≡ copy_size) × (system.control.studios ≤ studio_count)) }
    ensures { result ≡ are_level system.entry.control system.entry.library.now copy.now n }
{
    let control = system.control;
    let mut ok = true;
    for i in 1..=control.studios {
        ok &= is_level(system.library, copy, n, control.applied_by(i), i);
    }
    ok
}

// One walk along the log: its transactions act on a copy one after the other. Each operation meets its cart in the right state, each studio's copy is
// compared when as many have acted as it has applied, the head end's at the end.
fn are_made(system: System, copy: &mut [u8]) -> bool
    requires lengths { (length system.library.now ≡ library_size) × ((length system.log.now ≡ log_size) × ((length copy.old ≡ copy_size) × (system.control.studios ≤ studio_count))) }
    requires chain { (walkable (log_count system.control) system.log.now system.control.oldest ≡ true) × (every (usable system.log.now) (log_records (log_count system.control) system.log.now system.control.oldest) ≡ true) }
    ensures { result ≡ (are_level system.entry.control system.entry.library.now copy.old system.entry.control.retired
        && whole_from system.entry.control system.entry.library.now system.entry.log.now (log_count system.entry.control) system.entry.control.retired system.entry.control.oldest copy.old) }
{
    let control = system.control;
    let mut ok = are_level(system, copy, control.retired);
    let mut r = control.oldest;
    for n in control.retired..control.commits {
        ok &= transaction::try_transaction(copy, system.log, r);
        r = Record::at(system.log, r).next_transaction;
        ok &= are_level(system, copy, n + 1);
    }
    ok & bytes::are_equal(copies::copy_at(system.library, 0), copy)
}

// The row that stops a load, if any. The copy on the stack begins as the sixth (S-9).
pub fn decide_load(system: &System) -> Result<(), Refusal>
    ensures { stop_number result ≡ load_stop system.now.control (memory_of system.now) }
{
    rows::stopped_by_memory(system)?;
    let mut copy = [0u8; Cart::COPY_SIZE];
    copy.copy_from_slice(copies::copy_at(system.library, Control::SIXTH));
    if !are_made(*system, &mut copy) {
        return Err(Refusal::OtherCopy);
    }
    Ok(())
}

// Document 02's load, S-8. Memory is only read.
pub fn load(control: Control, library: &[u8], log: &[u8], sessions: &[u8]) -> CountResult
    ensures { after (count_answer result.answer) result.control (memory library.now log.now sessions.now) []
        ≡ load control (memory library.now log.now sessions.now) }
{
    let system = System {
        control,
        library,
        log,
        sessions,
    };
    if let Err(refusal) = decide_load(&system) {
        return Reply {
            answer: Err(refusal),
            control,
        };
    }
    Reply {
        answer: Ok(control.commits),
        control,
    }
}
