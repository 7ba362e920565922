// The one-copy order in words.
#![tactic(auto, using(journal::proofs::KindLaws::same_kind), unfolding(crate::specs::Order::order_text, crate::specs::Order::refusals_text, crate::specs::Order::place_text, crate::specs::Order::edit_text, crate::specs::Order::operation_text, crate::specs::Order::request_text, crate::specs::Order::asked_text, crate::specs::Order::reason_text, crate::specs::Order::shown_text, crate::specs::Order::same_text, crate::specs::Order::unlike_text, crate::specs::Order::verdict_text, crate::specs::Order::left_out_text))]

ghost use Rattle.std.specs.Prelude.{◌≡◌, ◌++◌, ◌+◌, ◌≤◌, length};
ghost use Rattle.carts.specs.Cart.{cart_size};
ghost use Rattle.words.specs.Page.{page_size};
ghost use Rattle.order_lines.specs.Order.{order_text, refusals_text, place_text, edit_text, operation_text, request_text, asked_text, reason_text, shown_text, same_text, unlike_text, verdict_text, left_out_text};

use carts::{bytes, kind};
use journal::history::{Entry, Kind};
use words::page::Page;
use words::request;

// How many commits were refused with 8, where any were.
fn put_refusals(page: &mut Page, n: u32)
    requires { length page.old + 64 ≤ page_size }
    ensures text { page.new ≡ page.old ++ refusals_text n }
    ensures fits { length page.new ≤ length page.old + 64 }
{
    if n != 0 {
        page.put_counted(b", ", n, b"refusal");
        page.put(b" (8)");
    }
}

// The order begins.
pub fn heading(page: &mut Page, edits: u32, refusals: u32, reads: u32)
    ensures { page.new ≡ order_text edits refusals reads }
{
    page.clear();
    page.put_counted(b"One-copy order of ", edits, b"edit");
    put_refusals(page, refusals);
    page.put_counted(b" and ", reads, b"read");
    page.put(b":\n");
}

// An entry's line and session.
fn place(page: &mut Page, e: Entry)
    ensures text { page.new ≡ place_text e }
    ensures fits { length page.new ≤ 64 }
{
    page.clear();
    page.put_pair(b"  line ", e.line, b", session ", e.session);
}

// A commit, accepted or refused with 8, before its operations.
pub fn edit(page: &mut Page, e: Entry)
    ensures { page.new ≡ edit_text e }
{
    place(page, e);
    if e.kind == Kind::Refused {
        page.put_between(b": refused (8) at edit ", e.number, b":");
    } else {
        page.put_between(b": edit ", e.number, b":");
    }
}

// An operation of a commit, and its cart.
pub fn operation(page: &mut Page, op: &[u8])
    requires { length op.now ≡ cart_size }
    ensures { page.new ≡ operation_text op.now }
{
    let cart = bytes::u16_at(op, 2);
    page.clear();
    match kind::Kind::of(op[0]) {
        Some(kind::Kind::New) => page.put_numbered(b" new cart ", cart),
        Some(kind::Kind::Retitle) => page.put_numbered(b" retitle cart ", cart),
        Some(kind::Kind::Recut) => page.put_numbered(b" re-cut cart ", cart),
        _ => page.put_numbered(b" withdraw cart ", cart),
    }
}

// What a request asks for. Any byte but 1 stands for a title here, so no kind is made of it.
fn put_request(page: &mut Page, request: &[u8])
    requires { (length page.old + 3000 ≤ page_size) × (length request.now ≡ cart_size) }
    ensures { page.new ≡ page.old ++ request_text request.now }
{
    let n = bytes::byte_at(request, 1);
    if request[0] == 1 {
        page.put(b": asked for carts");
        request::put_asked(page, request, n);
    } else {
        page.put(b": asked for title ");
        page.put_title(request, n);
    }
}

// A read, and what it asked for.
pub fn asked(page: &mut Page, e: Entry, request: &[u8])
    requires { length request.now ≡ cart_size }
    ensures { page.new ≡ asked_text e request.now }
{
    place(page, e);
    put_request(page, request);
}

// Why a read stands before the next accepted commit of the order, where that is on an earlier line.
fn put_reason(page: &mut Page, e: Entry, next: Entry)
    requires { length page.old + 64 ≤ page_size }
    ensures { page.new ≡ page.old ++ reason_text e next }
{
    if (next.kind == Kind::Commit) & (next.line < e.line) {
        page.put_pair(
            b", so it stands before edit ",
            next.number,
            b" of line ",
            next.line,
        );
    }
}

// What a read was shown, and why it stands where it does.
pub fn shown(page: &mut Page, e: Entry, next: Entry)
    ensures { page.new ≡ shown_text e next }
{
    page.clear();
    page.put_pair(b", shown edit ", e.number, b" (found ", e.found);
    page.put(b")");
    put_reason(page, e, next);
}

// The end of an entry's line: whether its answer is the same on a single library.
pub fn same(page: &mut Page, same: bool)
    ensures { page.new ≡ same_text same }
{
    page.clear();
    if same {
        page.put(b"\n");
    } else {
        page.put(b": DIFFERENT on a single library\n");
    }
}

// How many answers differ, and how many were to be compared.
fn put_unlike(page: &mut Page, entries: u32, differ: u32)
    requires { length page.old + 80 ≤ page_size }
    ensures { page.new ≡ page.old ++ unlike_text entries differ }
{
    page.put_numbered(b" compared, ", differ);
    page.put_between(b" different; ", entries, b" were to be compared\n");
}

// What the comparison came to: of so many entries, so many were compared, and so many answers differ.
pub fn verdict(page: &mut Page, entries: u32, compared: u32, differ: u32)
    ensures { page.new ≡ verdict_text entries compared differ }
{
    page.clear();
    page.put_counted(b"  ", compared, b"answer");
    if (differ == 0) & (compared == entries) {
        page.put(b", each the same on a single library\n");
    } else {
        put_unlike(page, entries, differ);
    }
}

// Answers that the history had no room for.
pub fn left_out(page: &mut Page, n: u32)
    ensures { page.new ≡ left_out_text n }
{
    page.clear();
    page.put_counted(b"  left out for want of room: ", n, b"later answer");
    page.put(b"\n");
}
