// The calls of a transcript, made on the engine.
#![tactic(auto, unfolding(crate::specs::Make::setup_leaves, crate::specs::Make::read_or_forward, crate::specs::Make::ask_leaves, crate::specs::Make::read_leaves, crate::specs::Make::collect_leaves, crate::specs::Make::van_leaves, crate::specs::Make::line_leaves))]

ghost use Rattle.std.specs.Prelude.{◌≡◌, true, false, ◌*◌, length};
ghost use Rattle.carts.specs.Cart.{copy_size};
ghost use Rattle.edit_log.specs.Log.{record_size};
ghost use Rattle.replication.specs.Memory.{memory, session_count, session_size};
ghost use Rattle.replication.specs.Answer.{read_answer};
ghost use Rattle.replication.specs.Calls.{after, commit, preview, send, refresh, move, load};
ghost use Rattle.van.specs.Receive.{van};
ghost use Rattle.lines.specs.Text.{part_in};
ghost use Rattle.journal.specs.History.{most_bytes};
ghost use Rattle.calls.specs.Make.{committed, previewed, sent_or_refreshed, moved, loaded, retire_leaves, read_or_forward, read_leaves, collect_leaves, beside, setup_leaves, line_leaves, van_leaves};
ghost use Rattle.calls.specs.Lent.{memory_in, left_in, alone, SameLent};

use crate::deliver;
use crate::lent::Lent;
use edit_log::record::Record;
use journal::history::Entry;
use journal::{history, progress};
use lines::parse::Call;
use lines::text;
use replication::answer::ReadResult;
use replication::collect::collect;
use replication::commit::commit;
use replication::control::Control;
use replication::forward::forward;
use replication::load::load;
use replication::move_session::move_session;
use replication::preview::preview;
use replication::read::read;
use replication::refresh::refresh;
use replication::retire::retire;
use replication::send::send;
use replication::session::Session;
use replication::setup::setup;
use report::turn::{Came, Turn};

// A setup, with the studios of its sessions at the start of the payload, and the van beside it.
fn make_setup(lent: &mut Lent, studios: u32) -> Turn
    requires { length lent.old.copy.now ≡ copy_size }
    ensures same { SameLent lent.old lent.new }
    ensures left { left_in lent.new result
        ≡ setup_leaves (memory_in lent.old) lent.old.copy.now studios (part_in lent.old.payload.now 0 session_count) lent.old.block.now }
{
    let places = text::part_of(lent.payload, 0, Session::COUNT as usize);
    let reply = setup(lent.library, lent.log, lent.sessions, studios, places);
    deliver::set_up(reply.answer, lent.copy);
    Turn {
        came: Came::Setup {
            answer: reply.answer,
            studios,
        },
        control: reply.control,
    }
}

// A commit, with its operations at the start of the payload.
fn make_commit(control: Control, lent: &mut Lent, session: u32, operations: u32) -> Turn
    ensures same { SameLent lent.old lent.new }
    ensures left { left_in lent.new result ≡ alone lent.old (λ a. committed a session operations)
        (commit control (memory_in lent.old) session (part_in lent.old.payload.now 0 (record_size * operations))) }
{
    let ops = text::part_of(lent.payload, 0, Record::SIZE * (operations as usize));
    let reply = commit(control, lent.library, lent.log, lent.sessions, session, ops);
    Turn {
        came: Came::Commit {
            answer: reply.answer,
            session,
            operations,
        },
        control: reply.control,
    }
}

// A preview of a commit, with its operations at the start of the payload.
fn make_preview(control: Control, lent: &Lent, session: u32, operations: u32) -> Turn
    ensures { left_in lent.now result ≡ alone lent.now (λ a. previewed a session operations)
        (preview control (memory_in lent.now) session (part_in lent.now.payload.now 0 (record_size * operations))) }
{
    let ops = text::part_of(lent.payload, 0, Record::SIZE * (operations as usize));
    let reply = preview(control, lent.library, lent.log, lent.sessions, session, ops);
    Turn {
        came: Came::Preview {
            answer: reply.answer,
            session,
            operations,
        },
        control: reply.control,
    }
}

// A send.
fn make_send(control: Control, lent: &Lent, studio: u32) -> Turn
    ensures { left_in lent.now result ≡ alone lent.now (λ a. sent_or_refreshed a studio true) (send control (memory_in lent.now) studio) }
{
    let reply = send(control, lent.library, lent.log, lent.sessions, studio);
    Turn {
        came: Came::SendOrRefresh {
            answer: reply.answer,
            studio,
            is_sent: true,
        },
        control: reply.control,
    }
}

// A refresh.
fn make_refresh(control: Control, lent: &mut Lent, studio: u32) -> Turn
    ensures same { SameLent lent.old lent.new }
    ensures left { left_in lent.new result ≡ alone lent.old (λ a. sent_or_refreshed a studio false) (refresh control (memory_in lent.old) studio) }
{
    let library = &mut *lent.library;
    let log = &mut *lent.log;
    let sessions = &mut *lent.sessions;
    let reply = refresh(control, library, log, sessions, studio);
    Turn {
        came: Came::SendOrRefresh {
            answer: reply.answer,
            studio,
            is_sent: false,
        },
        control: reply.control,
    }
}

// A read, or a forward. It is passed the memories one by one: its output is a part of the block, which is lent meanwhile.
fn read_or_forward(
    control: Control,
    library: &[u8],
    log: &[u8],
    sessions: &mut [u8],
    session: u32,
    forwards: bool,
    request: &[u8],
    output: &mut [u8],
) -> ReadResult
    ensures { after (read_answer result.answer) result.control (memory library.now log.now sessions.new) output.new
        ≡ read_or_forward forwards control (memory library.now log.now sessions.old) session request.now output.old }
{
    if forwards {
        return forward(control, library, log, sessions, session, request, output);
    }
    read(control, library, log, sessions, session, request, output)
}

// A read or a forward, with its request at the start of the payload; then the request is at the start of the block, and its
// output after it.
fn make_read(control: Control, lent: &mut Lent, session: u32, forwards: bool) -> Turn
    requires { length lent.old.block.now ≡ most_bytes }
    ensures same { SameLent lent.old lent.new }
    ensures left { left_in lent.new result ≡ beside lent.old.copy.now
        (read_leaves control (memory_in lent.old) session forwards (part_in lent.old.payload.now 0 session_size) lent.old.block.now) }
{
    let library = &mut *lent.library;
    let log = &mut *lent.log;
    let sessions = &mut *lent.sessions;
    let payload = lent.payload;
    let block = &mut *lent.block;
    let request = text::part_of(payload, 0, Session::SIZE);
    progress::put_request(block, request);
    let output = &mut block[Session::SIZE..Entry::MOST_BYTES];
    let reply = read_or_forward(
        control, library, log, sessions, session, forwards, request, output,
    );
    Turn {
        came: Came::Read {
            answer: reply.answer,
            session,
        },
        control: reply.control,
    }
}

// A collect, with the request that was kept for the session at the start of its block.
fn make_collect(control: Control, lent: &mut Lent, session: u32) -> Turn
    requires { length lent.old.block.now ≡ most_bytes }
    ensures same { SameLent lent.old lent.new }
    ensures left { left_in lent.new result ≡ beside lent.old.copy.now
        (collect_leaves control (memory_in lent.old) session lent.old.store.now lent.old.block.now) }
{
    let library = &mut *lent.library;
    let log = &mut *lent.log;
    let sessions = &mut *lent.sessions;
    let store = lent.store;
    let block = &mut *lent.block;
    progress::put_request(block, history::kept_request(store, session));
    let output = &mut block[Session::SIZE..Entry::MOST_BYTES];
    let reply = collect(control, library, log, sessions, session, output);
    Turn {
        came: Came::Read {
            answer: reply.answer,
            session,
        },
        control: reply.control,
    }
}

// A move of a session to a studio.
fn make_move(control: Control, lent: &Lent, session: u32, studio: u32) -> Turn
    ensures { left_in lent.now result ≡ alone lent.now (λ a. moved a session studio) (move control (memory_in lent.now) session studio) }
{
    let (library, log, sessions) = (&*lent.library, &*lent.log, &*lent.sessions);
    let reply = move_session(control, library, log, sessions, session, studio);
    Turn {
        came: Came::Move {
            answer: reply.answer,
            session,
            studio,
        },
        control: reply.control,
    }
}

// A load: the system as it stands is tested.
fn make_load(control: Control, lent: &Lent) -> Turn
    ensures { left_in lent.now result ≡ alone lent.now loaded (load control (memory_in lent.now)) }
{
    let reply = load(control, lent.library, lent.log, lent.sessions);
    Turn {
        came: Came::Load(reply.answer),
        control: reply.control,
    }
}

// A retire, with the records that the log uses after it.
fn make_retire(control: Control, lent: &mut Lent) -> Turn
    ensures same { SameLent lent.old lent.new }
    ensures left { left_in lent.new result ≡ beside lent.old.copy.now (retire_leaves control (memory_in lent.old) lent.old.block.now) }
{
    let library = &mut *lent.library;
    let log = &mut *lent.log;
    let sessions = &mut *lent.sessions;
    let reply = retire(control, library, log, sessions);
    Turn {
        came: Came::Retire {
            answer: reply.answer,
            used: reply.control.used,
        },
        control: reply.control,
    }
}

// The message of an edit, to the van.
fn make_van(control: Control, lent: &mut Lent, applied: u32, edit: u32) -> Turn
    ensures same { SameLent lent.old lent.new }
    ensures left { left_in lent.new result ≡ van_leaves control (memory_in lent.old) (van lent.old.copy.now applied) edit lent.old.block.now }
{
    let library = &mut *lent.library;
    let log = &mut *lent.log;
    let sessions = &mut *lent.sessions;
    let copy = &mut *lent.copy;
    deliver::deliver(control, library, log, sessions, copy, applied, edit)
}

// A line that makes no call.
fn no_call(control: Control, came: Came) -> Turn
    ensures { (result.came ≡ came) × (result.control ≡ control) }
{
    Turn { came, control }
}

// The call of a line, with its bytes at the start of the payload. A read, a collect or a forward has its request and its
// output in the block; the requests of reads that wait are in the store. Beside the system is the van, its copy and its applied
// number. Not inlined: what the engine has on the stack is off it when the answer is printed.
#[inline(never)]
pub fn make(control: Control, lent: &mut Lent, applied: u32, call: Call) -> Turn
    requires { (length lent.old.copy.now ≡ copy_size) × (length lent.old.block.now ≡ most_bytes) }
    ensures same { SameLent lent.old lent.new }
    ensures left { left_in lent.new result ≡ line_leaves control (memory_in lent.old) (van lent.old.copy.now applied) lent.old.store.now
        call lent.old.payload.now lent.old.block.now }
{
    match call {
        Call::Setup(studios) => make_setup(lent, studios),
        Call::Commit {
            session,
            operations,
        } => make_commit(control, lent, session, operations),
        Call::Preview {
            session,
            operations,
        } => make_preview(control, lent, session, operations),
        Call::Send(studio) => make_send(control, lent, studio),
        Call::Refresh(studio) => make_refresh(control, lent, studio),
        Call::Read { session, forwards } => make_read(control, lent, session, forwards),
        Call::Collect(session) => make_collect(control, lent, session),
        Call::Show => no_call(control, Came::Show),
        Call::Unreadable { mistake, at } => no_call(control, Came::Unreadable { mistake, at }),
        Call::Nothing => no_call(control, Came::Nothing),
        Call::Van(edit) => make_van(control, lent, applied, edit),
        Call::Move { session, studio } => make_move(control, lent, session, studio),
        Call::Load => make_load(control, lent),
        Call::Retire => make_retire(control, lent),
    }
}
