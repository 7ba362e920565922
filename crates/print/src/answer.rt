// What came of a call, printed. As in tell.rt, what prints a page beside an order is not inlined.
ghost use Rattle.std.specs.Prelude.{◌<◌, ◌≤◌};
ghost use Rattle.journal.specs.History.{most_entries};

use crate::order;
use crate::seen::Seen;
use carts::cart::Cart;
use carts::refusal::Refusal;
use journal::history::History;
use journal::progress;
use journal::progress::Progress;
use lines::{build, text};
use one_copy::fault;
use replication::answer::{CountAnswer, ReadAnswer, Reading, SetupAnswer};
use replication::control::Control;
use report::{cart, known, show};
use van::answer::{ReceiveResult, Received};
use words::line;
use words::page::Page;

// The first line after a setup, before the order of the system that it ended.
#[inline(never)]
fn tell_ended() {
    let mut page = Page::new();
    words::answer::ended(&mut page);
    line::told(&page);
}

// A setup ends the system before it: the order of its answers, where there are any; the answer is whether all are the same.
fn ended(h: History, seen: Seen) -> bool
    requires { h.entries ≤ most_entries }
{
    if h.entries == 0 {
        return true;
    }
    tell_ended();
    order::show_order(h, seen.entries, seen.store)
}

// The first line of the system that a setup begins.
#[inline(never)]
fn tell_fresh(studios: u32) {
    let mut page = Page::new();
    words::answer::fresh(&mut page, studios);
    line::told(&page);
}

// A refused setup leaves the system before it, where there is one.
#[inline(never)]
fn refused_setup(refusal: Refusal, is_running: bool) {
    let mut page = Page::new();
    refusals::print::refusal(&mut page, refusal);
    if is_running {
        words::answer::goes_on(&mut page);
        line::told(&page);
    }
}

// What a setup of so many studios answered, after what was carried on so far; the answer is whether the history so far is the
// same on a single library.
pub fn made(answer: SetupAnswer, before: Progress, seen: Seen, studios: u32) -> bool
    requires { before.history.entries ≤ most_entries }
{
    match answer {
        Ok(()) => {
            let same = ended(before.history, seen);
            tell_fresh(studios);
            same
        }
        Err(refusal) => {
            refused_setup(refusal, before.control.studios != 0);
            true
        }
    }
}

// The first operation that is at fault at the head end, by the refusal. The page, here and below, is room for a line.
fn show_fault(page: &mut Page, library: &[u8], ops: &[u8], refusal: Refusal) {
    let copy = text::part_of(library, 0, Cart::COPY_SIZE);
    if copy.len() != Cart::COPY_SIZE {
        return;
    }
    if let Some(i) = fault::first_fault(copy, ops, refusal) {
        refusals::print::at_operation(page, ops, i);
    }
}

// A refused commit or preview: refusals 6, 16 and 8 name the operation.
fn refused_edit(
    page: &mut Page,
    previews: bool,
    refusal: Refusal,
    library: &[u8],
    session: u32,
    ops: &[u8],
) {
    refusals::print::refusal_of_session(page, previews, refusal, session);
    match refusal {
        Refusal::OperationForm | Refusal::SpacedTitle | Refusal::WrongState => {
            show_fault(page, library, ops, refusal);
        }
        _ => {}
    }
}

// The edit that was committed, or would be.
fn accepted_edit(page: &mut Page, previews: bool, edit: u32) {
    if previews {
        words::answer::previewed(page, edit);
    } else {
        words::answer::committed(page, edit);
    }
    line::told(page);
}

// What a preview or a commit answered, with the head end's copy at the start of the library. A preview and a refused commit
// leave that copy as it was, so the operation at fault is seen on it.
pub fn edited(
    page: &mut Page,
    previews: bool,
    answer: CountAnswer,
    library: &[u8],
    session: u32,
    ops: &[u8],
) {
    match answer {
        Ok(edit) => accepted_edit(page, previews, edit),
        Err(refusal) => refused_edit(page, previews, refusal, library, session, ops),
    }
}

// What became of an edit at a studio: it was sent there, or applied.
fn edit_at_studio(page: &mut Page, edit: u32, studio: u32, is_sent: bool) {
    if is_sent {
        words::answer::sent(page, edit, studio);
    } else {
        words::answer::applied(page, edit, studio);
    }
    line::told(page);
}

// What a send or a refresh answered.
#[inline(never)]
pub fn send_or_refresh(answer: CountAnswer, studio: u32, is_sent: bool) {
    let mut page = Page::new();
    match answer {
        Ok(edit) => edit_at_studio(&mut page, edit, studio, is_sent),
        Err(refusal) => refusals::print::refusal_of_studio(&mut page, refusal, studio),
    }
}

// The cart shown at place i of a read by numbers; byte 0 is looked at here, since the part of a block that is too short is empty.
fn shown_at(page: &mut Page, block: &[u8], i: usize)
    requires { i < 256 }
{
    let cart = text::part_of(block, Cart::SIZE + Cart::SIZE * i, Cart::SIZE);
    if text::letter(cart, 0) == 1 {
        show::held(page, cart);
    } else {
        cart::empty(page, build::asked(block, i as u32));
        line::told(page);
    }
}

// The carts of a read by numbers.
fn shown(page: &mut Page, block: &[u8], n: usize)
    requires { n < 256 }
{
    for i in 0..n {
        shown_at(page, block, i);
    }
}

// What a read by title found.
fn found_by_title(page: &mut Page, block: &[u8], found: u32) {
    match found {
        0 => {
            words::answer::untitled(page);
            line::told(page);
        }
        1 => show::held(page, text::part_of(block, Cart::SIZE, Cart::SIZE)),
        _ => {
            words::answer::several(page, found);
            line::told(page);
        }
    }
}

// An answered read of a session: its request stands at the start of the block, its output after it.
fn answered(page: &mut Page, control: Control, session: u32, block: &[u8], state: u32, found: u32) {
    report::answered::answered(page, control, session, state, found);
    line::told(page);
    if text::letter(block, 0) == 2 {
        found_by_title(page, block, found);
    } else {
        shown(page, block, progress::places(block));
    }
}

// What a read, a collect or a forward of a session answered; none of them changes control.
pub fn read(page: &mut Page, answer: ReadAnswer, control: Control, session: u32, block: &[u8]) {
    match answer {
        Ok(Reading::Answered { state, found }) => {
            answered(page, control, session, block, state, found);
        }
        Ok(Reading::Waits(edit)) => {
            words::answer::waits(page, edit);
            line::told(page);
        }
        Err(refusal) => refusals::print::refusal_of_session(page, false, refusal, session),
    }
}

// A refused move: 3 names the studio where the session is known, else the session.
fn refused_move(page: &mut Page, refusal: Refusal, control: Control, session: u32, studio: u32) {
    match refusal {
        Refusal::NoSuchPlace if known::is_known(control, session) => {
            refusals::print::refusal_of_studio(page, refusal, studio);
        }
        _ => refusals::print::refusal_of_session(page, false, refusal, session),
    }
}

// What a move of a session to a studio answered, with the control that the call was given.
pub fn moved(page: &mut Page, answer: CountAnswer, control: Control, session: u32, studio: u32) {
    match answer {
        Ok(place) => {
            words::answer::moved(page, session, place);
            line::told(page);
        }
        Err(refusal) => refused_move(page, refusal, control, session, studio),
    }
}

// What a load answered.
pub fn loaded(page: &mut Page, answer: CountAnswer) {
    match answer {
        Ok(edit) => {
            words::answer::whole(page, edit);
            line::told(page);
        }
        Err(refusal) => refusals::print::refusal(page, refusal),
    }
}

// What a retire answered, with the records that the log uses after it.
pub fn retired(page: &mut Page, answer: CountAnswer, used: u32) {
    match answer {
        Ok(edit) => {
            words::answer::retired(page, edit, used);
            line::told(page);
        }
        Err(refusal) => refusals::print::refusal(page, refusal),
    }
}

// What the van answered to the message of an edit, with its applied number.
pub fn received(page: &mut Page, res: ReceiveResult, edit: u32) {
    match res.answer {
        Ok(Received::Applied(number)) => {
            words::answer::van_applied(page, number);
            line::told(page);
        }
        Ok(Received::Held(number)) => {
            words::answer::van_holds(page, number);
            line::told(page);
        }
        Err(refusal) => refusals::print::refusal_of_message(page, refusal, edit, res.applied),
    }
}
