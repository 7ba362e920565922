// Carts, and the state of all copies and sessions, printed.
ghost use Rattle.std.specs.Prelude.{◌≡◌, ◌+◌, ◌*◌, ◌<◌, ◌≤◌, eqb};
ghost use Rattle.replication.specs.Memory.{copy_count, session_count};
ghost use Rattle.carts.specs.Cart.{cart_size, cart_count, copy_size};
ghost use Rattle.carts.specs.Bytes.{byte};
ghost use Rattle.lines.specs.Text.{part_in};

use crate::{cart, state};
use carts::cart::Cart;
use lines::text;
use replication::control::Control;
use replication::session::Session;
use words::page::Page;
use words::{answer, line};

// What a held cart has. The page, here and below, is room for a line: one is lent for many, since a page costs more than its line.
pub fn held(page: &mut Page, s: &[u8]) {
    if s.len() == Cart::SIZE {
        cart::held(page, s);
        line::told(page);
    }
}

// Cart c of a copy, where it is held; the answer is whether it is. The part of a library that is too short is empty, so byte 0 is looked
// at here: `is_held` of carts asks for a cart.
fn cart_of(page: &mut Page, library: &[u8], copy: u32, c: u32) -> bool
    requires { (copy < copy_count) × (c < cart_count) }
    ensures { result ≡ eqb (byte (part_in library.now (copy_size * copy + cart_size * c) cart_size) 0) 1 }
{
    let at = Cart::COPY_SIZE * copy as usize + Cart::SIZE * c as usize;
    let found = text::part_of(library, at, Cart::SIZE);
    let is_held = text::letter(found, 0) == 1;
    if is_held {
        held(page, found);
    }
    is_held
}

// The held carts of a copy.
fn carts_of(page: &mut Page, library: &[u8], copy: u32)
    requires { copy < copy_count }
{
    let mut some = false;
    for c in 0..Cart::COUNT {
        some |= cart_of(page, library, copy, c);
    }
    if !some {
        cart::none(page);
        line::told(page);
    }
}

fn studio_line(page: &mut Page, control: Control, library: &[u8], i: u32)
    requires { (1 ≤ i) × (i ≤ 4) }
{
    if control.studios < i {
        return;
    }
    let applied = control.applied_by(i);
    let behind = answer::behind(control.commits, applied);
    state::studio(page, i, control.sent_to(i), applied, behind);
    line::told(page);
    carts_of(page, library, i);
}

// The van's line, and the held carts of its copy.
fn van_line(page: &mut Page, control: Control, copy: &[u8], applied: u32) {
    state::van(page, applied, answer::behind(control.commits, applied));
    line::told(page);
    carts_of(page, copy, 0);
}

fn session_line(page: &mut Page, control: Control, sessions: &[u8], j: u32)
    requires { (1 ≤ j) × (j ≤ session_count) }
{
    let at = control.studio_of(j);
    let own = text::part_of(sessions, Session::SIZE * (j as usize - 1), Session::SIZE);
    if (at != 0) & (own.len() == Session::SIZE) {
        state::session(page, j, at, own);
        line::told(page);
    }
}

fn studios(page: &mut Page, control: Control, library: &[u8]) {
    for i in 1..=Control::STUDIOS {
        studio_line(page, control, library, i);
    }
}

fn sessions_of(page: &mut Page, control: Control, sessions: &[u8]) {
    for j in 1..=Session::COUNT {
        session_line(page, control, sessions, j);
    }
}

// The state of a system and of the van beside it: its copy, and how many edits it has applied.
// Not a `System` in place of the first three: it has the log too, which nothing here reads and the caller has not.
pub fn show(
    page: &mut Page,
    control: Control,
    library: &[u8],
    sessions: &[u8],
    copy: &[u8],
    applied: u32,
) {
    if control.studios == 0 {
        state::no_system(page);
        line::told(page);
        return;
    }
    state::head_end(page, control.commits, control.retired, control.used);
    line::told(page);
    carts_of(page, library, 0);
    studios(page, control, library);
    van_line(page, control, copy, applied);
    sessions_of(page, control, sessions);
}

// Session j, where its read waits, after a heading where it is the first; the answer is whether there is a heading now.
fn waiting_line(
    page: &mut Page,
    control: Control,
    sessions: &[u8],
    j: u32,
    has_heading: bool,
) -> bool
    requires { (1 ≤ j) × (j ≤ session_count) }
{
    if text::letter(sessions, Session::SIZE * (j as usize - 1)) == 0 {
        return has_heading;
    }
    if !has_heading {
        state::still_waiting(page);
        line::told(page);
    }
    session_line(page, control, sessions, j);
    true
}

// The sessions whose reads wait.
pub fn waiting(control: Control, sessions: &[u8]) {
    let mut page = Page::new();
    let mut has_heading = false;
    for j in 1..=Session::COUNT {
        has_heading = waiting_line(&mut page, control, sessions, j, has_heading);
    }
}
