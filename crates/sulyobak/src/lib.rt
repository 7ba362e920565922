// The engine for C and Rust: include/sulyobak.h says the same to C. Each function passes its arguments on and hands the answer back as
// words; no test is left to the caller.
#![tactic(auto, using(crate::proofs::WordLaws::crosses, crate::proofs::WordLaws::old_crosses, crate::proofs::WordLaws::van_crosses, crate::proofs::WordLaws::layout_words_law))]

ghost use Rattle.std.specs.Prelude.{◌≡◌, []};
ghost use Rattle.replication.specs.Memory.{memory};
ghost use Rattle.replication.specs.Calls.{setup, commit, preview, send, refresh, read, collect, forward, write, move, load, retire};
ghost use Rattle.van.specs.Receive.{van, receive};
ghost use Rattle.old_edition.specs.Convert.{from_old, to_old};
ghost use Rattle.sulyobak.specs.Words.{left, left_by, layout_words, version};
ghost use Rattle.sulyobak.specs.VanWords.{van_left, van_left_by};
ghost use Rattle.sulyobak.specs.OldWords.{old_left, old_left_by};

use crate::van_words::VanWords;
use crate::words::Words;
use old_edition::convert;
use replication::answer::Reply;
use replication::control::Control;
use replication::system::System;
use replication::{
    collect, commit, forward, load, move_session, preview, read, refresh, retire, rows, send, setup,
};
use van::{receive, write};

pub mod van_words;
pub mod words;

// The version of this interface, for a program that was compiled with a header of its own.
#[unsafe(no_mangle)]
pub extern "C" fn sulyobak_version() -> u32
    ensures { result ≡ version }
{
    Words::VERSION
}

// Setup, with the studio of each of the sixteen sessions.
#[unsafe(no_mangle)]
pub extern "C" fn sulyobak_setup(
    library: &mut [u8],
    log: &mut [u8],
    sessions: &mut [u8],
    studios: u32,
    places: &[u8],
) -> Words
    ensures { left result (memory library.new log.new sessions.new) []
        ≡ left_by (setup (memory library.old log.old sessions.old) studios places.now) }
{
    Words::from(setup::setup(library, log, sessions, studios, places))
}

// Commit of one to eight operations of 80 bytes.
#[unsafe(no_mangle)]
pub extern "C" fn sulyobak_commit(
    library: &mut [u8],
    log: &mut [u8],
    sessions: &mut [u8],
    control: Control,
    session: u32,
    operations: &[u8],
) -> Words
    ensures { left result (memory library.new log.new sessions.new) []
        ≡ left_by (commit control (memory library.old log.old sessions.old) session operations.now) }
{
    Words::from(commit::commit(control, library, log, sessions, session, operations))
}

// Preview of a commit of one to eight operations. Memory is only read.
#[unsafe(no_mangle)]
pub extern "C" fn sulyobak_preview(
    library: &[u8],
    log: &[u8],
    sessions: &[u8],
    control: Control,
    session: u32,
    operations: &[u8],
) -> Words
    ensures { left result (memory library.now log.now sessions.now) []
        ≡ left_by (preview control (memory library.now log.now sessions.now) session operations.now) }
{
    Words::from(preview::preview(control, library, log, sessions, session, operations))
}

// Send. Memory is only read.
#[unsafe(no_mangle)]
pub extern "C" fn sulyobak_send(
    library: &[u8],
    log: &[u8],
    sessions: &[u8],
    control: Control,
    studio: u32,
) -> Words
    ensures { left result (memory library.now log.now sessions.now) []
        ≡ left_by (send control (memory library.now log.now sessions.now) studio) }
{
    Words::from(send::send(control, library, log, sessions, studio))
}

// Refresh. Library memory changes; log and sessions are only read.
#[unsafe(no_mangle)]
pub extern "C" fn sulyobak_refresh(
    library: &mut [u8],
    log: &[u8],
    sessions: &[u8],
    control: Control,
    studio: u32,
) -> Words
    ensures { left result (memory library.new log.now sessions.now) []
        ≡ left_by (refresh control (memory library.old log.now sessions.now) studio) }
{
    Words::from(refresh::refresh(control, library, log, sessions, studio))
}

// Read: answered from the studio's copy into output, or kept in the session. Library and log are only read.
#[unsafe(no_mangle)]
pub extern "C" fn sulyobak_read(
    library: &[u8],
    log: &[u8],
    sessions: &mut [u8],
    control: Control,
    session: u32,
    request: &[u8],
    output: &mut [u8],
) -> Words
    ensures { left result (memory library.now log.now sessions.new) output.new
        ≡ left_by (read control (memory library.now log.now sessions.old) session request.now output.old) }
{
    Words::from(read::read(control, library, log, sessions, session, request, output))
}

// Collect: the session's waiting read, answered or still waiting. Library and log are only read.
#[unsafe(no_mangle)]
pub extern "C" fn sulyobak_collect(
    library: &[u8],
    log: &[u8],
    sessions: &mut [u8],
    control: Control,
    session: u32,
    output: &mut [u8],
) -> Words
    ensures { left result (memory library.now log.now sessions.new) output.new
        ≡ left_by (collect control (memory library.now log.now sessions.old) session output.old) }
{
    Words::from(collect::collect(control, library, log, sessions, session, output))
}

// Forward: read, but answered by the head end where read would wait. Library and log are only read.
#[unsafe(no_mangle)]
pub extern "C" fn sulyobak_forward(
    library: &[u8],
    log: &[u8],
    sessions: &mut [u8],
    control: Control,
    session: u32,
    request: &[u8],
    output: &mut [u8],
) -> Words
    ensures { left result (memory library.now log.now sessions.new) output.new
        ≡ left_by (forward control (memory library.now log.now sessions.old) session request.now output.old) }
{
    Words::from(forward::forward(control, library, log, sessions, session, request, output))
}

// Move: a session goes to another studio. Memory is only read.
#[unsafe(no_mangle)]
pub extern "C" fn sulyobak_move(
    library: &[u8],
    log: &[u8],
    sessions: &[u8],
    control: Control,
    session: u32,
    studio: u32,
) -> Words
    ensures { left result (memory library.now log.now sessions.now) []
        ≡ left_by (move control (memory library.now log.now sessions.now) session studio) }
{
    Words::from(move_session::move_session(control, library, log, sessions, session, studio))
}

// The test of lengths and layout alone, which every call that is passed control and memory begins with. Memory is only read.
#[unsafe(no_mangle)]
pub extern "C" fn sulyobak_layout(
    library: &[u8],
    log: &[u8],
    sessions: &[u8],
    control: Control,
) -> Words
    ensures { result ≡ layout_words control (memory library.now log.now sessions.now) }
{
    let system = System {
        control,
        library,
        log,
        sessions,
    };
    Words::from(Reply {
        answer: rows::stopped_by_memory(&system),
        control,
    })
}

// Load: whether the copies are what the log makes. Memory is only read.
#[unsafe(no_mangle)]
pub extern "C" fn sulyobak_load(
    library: &[u8],
    log: &[u8],
    sessions: &[u8],
    control: Control,
) -> Words
    ensures { left result (memory library.now log.now sessions.now) []
        ≡ left_by (load control (memory library.now log.now sessions.now)) }
{
    Words::from(load::load(control, library, log, sessions))
}

// Retire: the oldest transaction of the log acts on the sixth copy, and its records become free.
#[unsafe(no_mangle)]
pub extern "C" fn sulyobak_retire(
    library: &mut [u8],
    log: &mut [u8],
    sessions: &[u8],
    control: Control,
) -> Words
    ensures { left result (memory library.new log.new sessions.now) []
        ≡ left_by (retire control (memory library.old log.old sessions.now)) }
{
    Words::from(retire::retire(control, library, log, sessions))
}

// The message of a committed transaction, for a van. Memory is only read.
#[unsafe(no_mangle)]
pub extern "C" fn sulyobak_van_write(
    library: &[u8],
    log: &[u8],
    sessions: &[u8],
    control: Control,
    number: u32,
    output: &mut [u8],
) -> Words
    ensures { left result (memory library.now log.now sessions.now) output.new
        ≡ left_by (write control (memory library.now log.now sessions.now) number output.old) }
{
    Words::from(write::write(control, library, log, sessions, number, output))
}

// A message, received in the van: it acts on the van's copy where it is the next one.
#[unsafe(no_mangle)]
pub extern "C" fn sulyobak_van_receive(copy: &mut [u8], applied: u32, message: &[u8]) -> VanWords
    ensures { van_left result copy.new ≡ van_left_by (receive (van copy.old applied) message.now) }
{
    VanWords::from(receive::receive(copy, applied, message))
}

// An old wall file, converted to one copy of ours.
#[unsafe(no_mangle)]
pub extern "C" fn sulyobak_from_old(file: &[u8], copy: &mut [u8]) -> Words
    ensures { old_left result copy.new ≡ old_left_by (from_old file.now copy.old) }
{
    Words::from(convert::from_old(file, copy))
}

// One copy of ours, converted to an old wall file.
#[unsafe(no_mangle)]
pub extern "C" fn sulyobak_to_old(copy: &[u8], file: &mut [u8]) -> Words
    ensures { old_left result file.new ≡ old_left_by (to_old copy.now file.old) }
{
    Words::from(convert::to_old(copy, file))
}
