// What a player of a transcript carries from line to line, and how each answer changes it.
#![tactic(auto, unfolding(crate::specs::Progress::counted, crate::specs::Progress::compared, crate::specs::Progress::next_line, crate::specs::Progress::stepped, crate::specs::Progress::with_van, crate::specs::Progress::after_setup, van::specs::Receive::fresh_van, crate::specs::Progress::after_count, crate::specs::Progress::after_receive, crate::specs::Progress::places_of, crate::specs::Progress::request_in))]

ghost use Rattle.std.specs.Prelude.{◌≡◌, ◌*◌, ◌<◌, ◌≤◌, length};
ghost use Rattle.journal.specs.History.{slot_size};
ghost use Rattle.journal.specs.declared.progress.Outcome.TheVariants.{Unreadable};
ghost use Rattle.journal.specs.Progress.{counted, start, compared, next_line, stepped, with_van, kept, entry_of, with_entry, after_setup, after_count, after_commit, places_of, after_read, after_receive, request_in};

use crate::history;
use crate::history::{Entry, History, Kind};
use carts::refusal::Refusal;
use lines::text;
use replication::answer::{CountResult, ReadResult, Reading, SetupResult};
use replication::control::Control;
use van::answer::ReceiveResult;

// What came of a line: a call was accepted, waits or was refused, or the line could not be read.
#[derive(Clone, Copy)]
pub enum Outcome {
    Accepted,
    Waited,
    Refused,
    Unreadable,
}

// How many lines had each outcome, and whether every answer that was kept is the same on the single library so far.
#[derive(Clone, Copy)]
pub struct Tally {
    pub accepted: u32,
    pub waited: u32,
    pub refused: u32,
    pub unreadable: u32,
    pub same: bool,
}

// What is carried from line to line, the van's applied number last; memory is lent beside it.
#[derive(Clone, Copy)]
pub struct Progress {
    pub line: u32,
    pub control: Control,
    pub history: History,
    pub tally: Tally,
    pub van_applied: u32,
}

// An entry that has no slots yet.
fn entry_of(kind: Kind, line: u32, session: u32, number: u32, found: u32) -> Entry
    ensures { result ≡ entry_of kind line session number found }
{
    Entry {
        kind,
        line,
        session,
        number,
        found,
        first: 0,
        slots: 0,
    }
}

impl Tally {
    // One line more of an outcome.
    fn counted(self, outcome: Outcome) -> Tally
        ensures { result ≡ counted self outcome }
    {
        match outcome {
            Outcome::Accepted => Tally {
                accepted: self.accepted.wrapping_add(1),
                ..self
            },
            Outcome::Waited => Tally {
                waited: self.waited.wrapping_add(1),
                ..self
            },
            Outcome::Refused => Tally {
                refused: self.refused.wrapping_add(1),
                ..self
            },
            Outcome::Unreadable => Tally {
                unreadable: self.unreadable.wrapping_add(1),
                ..self
            },
        }
    }
}

impl Progress {
    // Before the first line: no system, no entry, and a fresh van.
    pub fn new() -> Progress
        ensures { result ≡ start }
    {
        Progress {
            line: 0,
            control: Control::new(0, [0; 16], 0, 0),
            history: History::new(),
            tally: Tally {
                accepted: 0,
                waited: 0,
                refused: 0,
                unreadable: 0,
                same: true,
            },
            van_applied: 0,
        }
    }

    // The entries of a system were compared: all are the same, or not.
    pub fn compared(mut self, same: bool) -> Progress
        ensures { (result ≡ compared self same) × (result.history.entries ≤ self.history.entries) }
    {
        self.tally.same &= same;
        self
    }

    // One line more.
    pub fn next_line(self) -> Progress
        ensures { (result ≡ next_line self) × (result.history.entries ≤ self.history.entries) }
    {
        Progress {
            line: self.line.wrapping_add(1),
            ..self
        }
    }

    // After a line: control and history as they are then, and its outcome counted.
    fn stepped(self, control: Control, history: History, outcome: Outcome) -> Progress
        ensures { result ≡ stepped self control history outcome }
    {
        Progress {
            control,
            history,
            tally: self.tally.counted(outcome),
            ..self
        }
    }

    // The van has applied so many edits.
    fn with_van(self, applied: u32) -> Progress
        ensures { result ≡ with_van self applied }
    {
        Progress {
            van_applied: applied,
            ..self
        }
    }

    // After a call that is an entry, one more where there is room.
    fn with_entry(
        self,
        control: Control,
        outcome: Outcome,
        entries: &mut [Entry],
        store: &mut [u8],
        e: Entry,
        payload: &[u8],
    ) -> Progress
        requires { self.history.entries ≤ length entries.old }
        ensures { (kept entries.new store.new result ≡ with_entry self control outcome e payload.now entries.old store.old)
            × (result.history.entries ≤ length entries.old) }
    {
        let next = self.history.add(entries, store, e, payload);
        self.stepped(control, next, outcome)
    }

    // A setup was answered: accepted, the entries begin anew, and the van; refused, the system before it goes on.
    pub fn after_setup(self, res: SetupResult) -> Progress
        ensures { (result ≡ after_setup self res.control res.answer) × (result.history.entries ≤ self.history.entries) }
    {
        match res.answer {
            Ok(()) => self
                .stepped(res.control, History::new(), Outcome::Accepted)
                .with_van(0),
            Err(_) => self.stepped(self.control, self.history, Outcome::Refused),
        }
    }

    // A call without an entry was answered: a send, a refresh, a preview, a move, a load, a retire, or a message that could not be
    // written.
    pub fn after_count(self, res: CountResult) -> Progress
        ensures { (result ≡ after_count self res.control res.answer) × (result.history.entries ≤ self.history.entries) }
    {
        match res.answer {
            Ok(_) => self.stepped(res.control, self.history, Outcome::Accepted),
            Err(_) => self.stepped(res.control, self.history, Outcome::Refused),
        }
    }

    // A commit was answered: accepted, it is an entry with its number; refused with 8, with the commits handed back.
    pub fn after_commit(
        self,
        res: CountResult,
        entries: &mut [Entry],
        store: &mut [u8],
        session: u32,
        ops: &[u8],
    ) -> Progress
        requires { self.history.entries ≤ length entries.old }
        ensures { (kept entries.new store.new result ≡ after_commit self res.control res.answer session ops.now entries.old store.old)
            × (result.history.entries ≤ length entries.old) }
    {
        match res.answer {
            Ok(n) => {
                let e = entry_of(Kind::Commit, self.line, session, n, 0);
                self.with_entry(res.control, Outcome::Accepted, entries, store, e, ops)
            }
            Err(Refusal::WrongState) => {
                let commits = res.control.commits;
                let e = entry_of(Kind::Refused, self.line, session, commits, 0);
                self.with_entry(res.control, Outcome::Refused, entries, store, e, ops)
            }
            Err(_) => self.stepped(res.control, self.history, Outcome::Refused),
        }
    }

    // A read, a collect or a forward was answered: an entry with its request and carts, or its request is kept while it waits.
    pub fn after_read(
        self,
        res: ReadResult,
        entries: &mut [Entry],
        store: &mut [u8],
        session: u32,
        block: &[u8],
    ) -> Progress
        requires { self.history.entries ≤ length entries.old }
        ensures { (kept entries.new store.new result ≡ after_read self res.control res.answer session block.now entries.old store.old)
            × (result.history.entries ≤ length entries.old) }
    {
        match res.answer {
            Ok(Reading::Answered { state, found }) => {
                let e = entry_of(Kind::Read, self.line, session, state, found);
                let payload = text::part_of(block, 0, Entry::SLOT + Entry::SLOT * places(block));
                self.with_entry(res.control, Outcome::Accepted, entries, store, e, payload)
            }
            Ok(Reading::Waits(_)) => {
                history::keep_request(store, session, text::part_of(block, 0, Entry::SLOT));
                self.stepped(res.control, self.history, Outcome::Waited)
            }
            Err(_) => self.stepped(res.control, self.history, Outcome::Refused),
        }
    }

    // The van received a message: applied and held are accepted, and neither is an entry.
    pub fn after_receive(self, control: Control, res: ReceiveResult) -> Progress
        ensures { (result ≡ after_receive self control res.applied res.answer) × (result.history.entries ≤ self.history.entries) }
    {
        let next = self.with_van(res.applied);
        match res.answer {
            Ok(_) => next.stepped(control, self.history, Outcome::Accepted),
            Err(_) => next.stepped(control, self.history, Outcome::Refused),
        }
    }

    // A line that is no call.
    pub fn unreadable(self) -> Progress
        ensures { (result ≡ stepped self self.control self.history Unreadable) × (result.history.entries ≤ self.history.entries) }
    {
        self.stepped(self.control, self.history, Outcome::Unreadable)
    }
}

// How many carts an answered read shows; its request is at the block's start. Any byte but 2 stands for numbers here, so no kind is
// made of it.
pub fn places(block: &[u8]) -> usize
    ensures { (result ≡ places_of block.now) × (result < 256) }
{
    if text::letter(block, 0) == 2 {
        1
    } else {
        usize::from(text::letter(block, 1))
    }
}

// A request, where it is one, stands at the start of a block.
pub fn put_request(block: &mut [u8], request: &[u8])
    requires { slot_size ≤ length block.old }
    ensures { block.new ≡ request_in block.old request.now }
{
    if request.len() == Entry::SLOT {
        block[..Entry::SLOT].copy_from_slice(request);
    }
}
