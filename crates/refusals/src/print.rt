// Refusals and lines that cannot be read, printed.
use crate::{mistake, refusal};
use carts::bytes;
use carts::cart::Cart;
use carts::refusal::Refusal;
use lines::cursor::Mistake;
use words::line;
use words::page::Page;

// A refusal of a call that is no preview. The page, here and below, is room for the line.
pub fn refusal(page: &mut Page, refusal: Refusal) {
    refusal::refusal(page, false, refusal.number());
    line::told(page);
}

// Refusal 3 names the session that a call names; the call is a preview, or any other.
pub fn refusal_of_session(page: &mut Page, previews: bool, refusal: Refusal, session: u32) {
    match refusal {
        Refusal::NoSuchPlace => refusal::no_session(page, previews, session),
        _ => refusal::refusal(page, previews, refusal.number()),
    }
    line::told(page);
}

// Refusal 3 names the studio that a call names.
pub fn refusal_of_studio(page: &mut Page, refusal: Refusal, studio: u32) {
    match refusal {
        Refusal::NoSuchPlace => refusal::no_studio(page, studio),
        _ => refusal::refusal(page, false, refusal.number()),
    }
    line::told(page);
}

// Refusals 17 and 21 of the van's writer name the edit.
pub fn refusal_of_edit(page: &mut Page, refusal: Refusal, edit: u32) {
    match refusal {
        Refusal::NoMessage => refusal::no_edit(page, edit),
        Refusal::RetiredEdit => refusal::retired_edit(page, edit),
        _ => refusal::refusal(page, false, refusal.number()),
    }
    line::told(page);
}

// Refusal 18 of the van's receiver names the edit, and how many the van has applied.
pub fn refusal_of_message(page: &mut Page, refusal: Refusal, edit: u32, applied: u32) {
    match refusal {
        Refusal::NotNext => refusal::ahead(page, applied, edit),
        _ => refusal::refusal(page, false, refusal.number()),
    }
    line::told(page);
}

// Operation i, counted from 1, and its cart.
pub fn at_operation(page: &mut Page, ops: &[u8], i: u32) {
    let Some(before) = i.checked_sub(1) else {
        return;
    };
    let Some(op) = ops.chunks_exact(Cart::SIZE).nth(before as usize) else {
        return;
    };
    refusal::at_operation(page, i, bytes::u16_at(op, Cart::NUMBER_AT));
    line::told(page);
}

// A line that is no call.
pub fn unreadable(page: &mut Page, number: u32, mistake: Mistake, at: usize) {
    let column = (at as u64).wrapping_add(1);
    mistake::unreadable(page, number, column, mistake);
    line::told(page);
}
