// The state of copies and sessions in words.
#![tactic(auto, unfolding(crate::specs::Lines::no_system_text, crate::specs::Lines::retired_part, crate::specs::Lines::head_text, crate::specs::Lines::studio_text, crate::specs::Lines::van_text, crate::specs::Lines::until_text, crate::specs::Lines::waiting_text, crate::specs::Lines::session_text, crate::specs::Lines::still_waiting_text))]

ghost use Rattle.std.specs.Prelude.{◌≡◌, ◌++◌, ◌+◌, ◌≤◌, length};
ghost use Rattle.carts.specs.Cart.{cart_size};
ghost use Rattle.words.specs.Page.{page_size};
ghost use Rattle.report.specs.Lines.{no_system_text, retired_part, head_text, studio_text, van_text, until_text, waiting_text, still_waiting_text, session_text};

use carts::bytes;
use words::page::Page;
use words::{answer, request};

// There is no system.
pub fn no_system(page: &mut Page)
    ensures { page.new ≡ no_system_text }
{
    page.clear();
    page.put(b"  there is no system yet\n");
}

// How many edits are retired, where any are.
fn put_retired(page: &mut Page, retired: u32)
    requires { length page.old + 32 ≤ page_size }
    ensures text { page.new ≡ page.old ++ retired_part retired }
    ensures fits { length page.new ≤ length page.old + 32 }
{
    if retired != 0 {
        page.put_between(b", ", retired, b" retired");
    }
}

// The head end's counts.
pub fn head_end(page: &mut Page, commits: u32, retired: u32, used: u32)
    ensures { page.new ≡ head_text commits retired used }
{
    page.clear();
    page.put_counted(b"  head end: ", commits, b"edit");
    put_retired(page, retired);
    page.put_between(b", ", used, b" of 512 log records\n");
}

// A studio's counts, and how many edits its copy is behind the head end.
pub fn studio(page: &mut Page, i: u32, sent: u32, applied: u32, behind: u32)
    ensures { page.new ≡ studio_text i sent applied behind }
{
    page.clear();
    page.put_pair(b"  studio ", i, b": sent ", sent);
    page.put_numbered(b", applied ", applied);
    answer::put_behind(page, behind);
    page.put(b"\n");
}

// How many edits the van has applied, and how many its copy is behind the head end.
pub fn van(page: &mut Page, applied: u32, behind: u32)
    ensures { page.new ≡ van_text applied behind }
{
    page.clear();
    page.put_numbered(b"  van: applied ", applied);
    answer::put_behind(page, behind);
    page.put(b"\n");
}

// The edit that a session's read waits for, and the line's end.
fn put_until(page: &mut Page, own: &[u8])
    requires { (length page.old + 32 ≤ page_size) × (length own.now ≡ cart_size) }
    ensures { page.new ≡ page.old ++ until_text own.now }
{
    page.put_between(b" waits for edit ", bytes::u16_at(own, 2), b"\n");
}

// The read that a session has waiting, and the line's end.
fn put_waiting(page: &mut Page, own: &[u8])
    requires { (length page.old + 3000 ≤ page_size) × (length own.now ≡ cart_size) }
    ensures { page.new ≡ page.old ++ waiting_text own.now }
{
    let n = bytes::byte_at(own, 1);
    match own[0] {
        1 => {
            page.put(b", its read of carts");
            request::put_asked(page, own, n);
            put_until(page, own);
        }
        2 => {
            page.put(b", its read of title ");
            page.put_title(own, n);
            put_until(page, own);
        }
        _ => page.put(b", nothing waits\n"),
    }
}

// A session at a studio, from its 80 bytes: its number and its waiting read.
pub fn session(page: &mut Page, j: u32, studio: u32, own: &[u8])
    requires { length own.now ≡ cart_size }
    ensures { page.new ≡ session_text j studio own.now }
{
    page.clear();
    page.put_pair(b"  session ", j, b" at studio ", studio);
    page.put_numbered(b": number ", bytes::u16_at(own, 2));
    put_waiting(page, own);
}

// Reads that wait when the transcript ends.
pub fn still_waiting(page: &mut Page)
    ensures { page.new ≡ still_waiting_text }
{
    page.clear();
    page.put(b"Reads that still wait:\n");
}
