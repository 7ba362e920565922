// The entries of the one-copy order, what each did and its verdict, and what the comparison came to: printed.
ghost use Rattle.std.specs.Prelude.{◌≡◌, ◌<◌, ◌≤◌, length};
ghost use Rattle.journal.specs.History.{commit_kind, read_kind, refused_kind};
ghost use Rattle.order_lines.specs.Order.{of_kind};

use crate::order;
use journal::history;
use journal::history::{Entry, Kind};
use lines::text;
use words::line;
use words::page::Page;

// An operation, after the one before it. The page, here and below, is room for the words.
fn operation(page: &mut Page, op: &[u8], is_first: bool) {
    if op.len() != Entry::SLOT {
        return;
    }
    if !is_first {
        line::words(b",");
    }
    order::operation(page, op);
    line::told(page);
}

// So many operations, from a slot of the store on.
fn operations(page: &mut Page, store: &[u8], first: u32, slots: u32) {
    for i in 0..slots {
        let start = Entry::SLOT * (first as usize + i as usize);
        operation(page, text::part_of(store, start, Entry::SLOT), i == 0);
    }
}

// A commit's number, or at which edit it was refused, and its operations.
fn edit(page: &mut Page, e: Entry, store: &[u8]) {
    order::edit(page, e);
    line::told(page);
    operations(page, store, e.first, e.slots);
}

// What a read asked for.
fn asked(page: &mut Page, e: Entry, request: &[u8]) {
    if request.len() == Entry::SLOT {
        order::asked(page, e, request);
        line::told(page);
    }
}

// What a read asked for and was shown, with the next accepted commit of the order; with the read itself where there is none.
fn read(page: &mut Page, e: Entry, store: &[u8], next: Option<Entry>) {
    asked(
        page,
        e,
        text::part_of(store, Entry::SLOT * (e.first as usize), Entry::SLOT),
    );
    order::shown(page, e, next.unwrap_or(e));
    line::told(page);
}

// The first accepted commit of an order.
fn next_commit(entries: &[Entry], order: &[u32]) -> Option<Entry> {
    for place in order {
        let e = history::entry_at(entries, *place);
        if e.kind == Kind::Commit {
            return Some(e);
        }
    }
    None
}

// What the first entry of an order did.
fn entry(page: &mut Page, entries: &[Entry], store: &[u8], order: &[u32])
    requires { 0 < length order.now }
{
    let e = history::entry_at(entries, order[0]);
    if e.is_commit() {
        edit(page, e, store);
    } else {
        read(page, e, store, next_commit(entries, order));
    }
}

// The entries of an order, each with its verdict.
pub fn entry_lines(entries: &[Entry], store: &[u8], order: &[u32], verdicts: &[bool])
    requires { length verdicts.now ≤ length order.now }
{
    let order = &order[..verdicts.len()];
    let mut page = Page::new();
    for (i, same) in verdicts.iter().enumerate() {
        entry(&mut page, entries, store, &order[i..]);
        order::same(&mut page, *same);
        line::told(&page);
    }
}

// What the comparison came to: of so many entries, so many were compared, and so many differ.
pub fn verdict(entries: u32, compared: u32, differ: u32) {
    let mut page = Page::new();
    order::verdict(&mut page, entries, compared, differ);
    line::told(&page);
}

// Answers that the history had no room for, where there are any.
pub fn left_out(answers: u32) {
    if answers != 0 {
        let mut page = Page::new();
        order::left_out(&mut page, answers);
        line::told(&page);
    }
}

// How many entries are of each kind.
#[derive(Clone, Copy)]
struct Kinds {
    edits: u32,
    refusals: u32,
    reads: u32,
}

// How many of the first n entries are of each kind.
fn count_kinds(entries: &[Entry], n: u32) -> Kinds
    ensures edits { result.edits ≡ of_kind commit_kind entries.now n }
    ensures refusals { result.refusals ≡ of_kind refused_kind entries.now n }
    ensures reads { result.reads ≡ of_kind read_kind entries.now n }
{
    let mut kinds = Kinds {
        edits: 0,
        refusals: 0,
        reads: 0,
    };
    let end = entries.len().min(n as usize);
    for e in &entries[..end] {
        match e.kind {
            Kind::Commit => kinds.edits += 1,
            Kind::Refused => kinds.refusals += 1,
            Kind::Read => kinds.reads += 1,
        }
    }
    kinds
}

// The order of n entries begins.
pub fn heading(entries: &[Entry], n: u32) {
    let kinds = count_kinds(entries, n);
    let mut page = Page::new();
    order::heading(&mut page, kinds.edits, kinds.refusals, kinds.reads);
    line::told(&page);
}
