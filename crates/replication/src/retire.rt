// Retire: the oldest transaction of the log acts on the sixth copy, and its records become free.
ghost use Rattle.std.specs.Prelude.{◌≡◌, true, [], ◌≤◌, ltb, length};
ghost use Rattle.carts.specs.Bytes.{every};
ghost use Rattle.carts.specs.Operation.{act_all};
ghost use Rattle.edit_log.specs.Log.{log_size, records_of, transaction_at, up_from};
ghost use Rattle.edit_log.specs.Values.{usable};
ghost use Rattle.carts.specs.Refusal.{stop_number};
ghost use Rattle.replication.specs.Answer.{count_answer};
ghost use Rattle.replication.specs.Memory.{memory, library_size, sixth, studio_count, copy_at, with_copy, nth};
ghost use Rattle.replication.specs.System.{memory_of};
ghost use Rattle.replication.specs.Rows.{retire_stop};
ghost use Rattle.replication.specs.Calls.{after, retire};

use crate::answer::{CountResult, Reply};
use crate::control::Control;
use crate::rows;
use crate::system::System;
use carts::refusal::Refusal;
use edit_log::record::Record;
use edit_log::{free, transaction};

// Every studio has applied the oldest transaction of the log.
fn have_applied(control: Control) -> bool
    requires { control.studios ≤ studio_count }
    ensures { result ≡ every (λ i. ltb control.retired (nth control.applied i)) (up_from 1 control.studios) }
{
    let mut ok = true;
    for i in 1..=control.studios {
        ok &= control.retired < control.applied_by(i);
    }
    ok
}

// The row that stops a retire, if any.
pub fn decide_retire(system: &System) -> Result<(), Refusal>
    ensures { stop_number result ≡ retire_stop system.now.control (memory_of system.now) }
{
    rows::stopped_by_memory(system)?;
    if system.control.retired == system.control.commits {
        return Err(Refusal::NotRetirable);
    }
    if !have_applied(system.control) {
        return Err(Refusal::NotRetirable);
    }
    Ok(())
}

// The transaction at record oldest acts on the sixth copy, which is lent on as a part of library memory, to be changed.
fn apply_to_sixth(library: &mut [u8], log: &[u8], oldest: u32)
    requires { (length library.old ≡ library_size) × ((length log.now ≡ log_size) × (every (usable log.now) (records_of log.now oldest) ≡ true)) }
    ensures { library.new ≡ with_copy library.old sixth (act_all (copy_at library.old sixth) (transaction_at log.now oldest)) }
{
    transaction::apply_transaction(
        &mut library[Control::SIXTH_AT..Control::LIBRARY_SIZE],
        log,
        oldest,
    );
}

// Document 02's retire, S-9.
pub fn retire(control: Control, library: &mut [u8], log: &mut [u8], sessions: &[u8]) -> CountResult
    ensures { after (count_answer result.answer) result.control (memory library.new log.new sessions.now) []
        ≡ retire control (memory library.old log.old sessions.now) }
{
    let system = System {
        control,
        library,
        log,
        sessions,
    };
    if let Err(refusal) = decide_retire(&system) {
        return Reply {
            answer: Err(refusal),
            control,
        };
    }
    let oldest = control.oldest;
    let links = Record::at(log, oldest);
    apply_to_sixth(library, log, oldest);
    let freed = free::retire_transaction(log, oldest, control.free_last);
    let left = control.after_retire(links.next_transaction, freed);
    Reply {
        answer: Ok(left.retired),
        control: left,
    }
}
