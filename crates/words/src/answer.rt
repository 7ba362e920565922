// Answers in words.
#![tactic(auto, unfolding(crate::specs::Answers::fresh_text, crate::specs::Answers::ended_text, crate::specs::Answers::goes_on_text, crate::specs::Answers::committed_text, crate::specs::Answers::previewed_text, crate::specs::Answers::sent_text, crate::specs::Answers::applied_text, crate::specs::Answers::behind_text, crate::specs::Answers::answered_text, crate::specs::Answers::head_end_text, crate::specs::Answers::waits_text, crate::specs::Answers::untitled_text, crate::specs::Answers::several_text, crate::specs::Answers::moved_text, crate::specs::Answers::whole_text, crate::specs::Answers::free_text, crate::specs::Answers::retired_text, crate::specs::Answers::van_applied_text, crate::specs::Answers::van_holds_text))]

ghost use Rattle.std.specs.Prelude.{◌≡◌, ◌+◌, ◌-◌, ◌≤◌, length, ◌++◌};
ghost use Rattle.lines.specs.Words.{bytes_of};
ghost use Rattle.words.specs.Page.{page_size, decimal, numbered};
ghost use Rattle.words.specs.Answers.{fresh_text, ended_text, goes_on_text, committed_text, previewed_text, sent_text, applied_text, behind_text, answered_text, head_end_text, waits_text, untitled_text, several_text, moved_text, whole_text, free_text, retired_text, van_applied_text, van_holds_text};

use crate::page::Page;

// A setup was accepted.
pub fn fresh(page: &mut Page, studios: u32)
    ensures { page.new ≡ fresh_text studios }
{
    page.clear();
    page.put_counted(b"  a fresh system with ", studios, b"studio");
    page.put(b"\n");
}

// A setup ends the system before it.
pub fn ended(page: &mut Page)
    ensures { page.new ≡ ended_text }
{
    page.clear();
    page.put(b"  the system before this line ends here\n");
}

// A setup was refused: memory and control are as they were.
pub fn goes_on(page: &mut Page)
    ensures { page.new ≡ goes_on_text }
{
    page.clear();
    page.put(b"  the system before this line goes on unchanged\n");
}

// A commit was accepted.
pub fn committed(page: &mut Page, n: u32)
    ensures { page.new ≡ committed_text n }
{
    page.clear();
    page.put_between(b"  edit ", n, b" is committed\n");
}

// A preview was accepted: the number that the commit would have.
pub fn previewed(page: &mut Page, n: u32)
    ensures { page.new ≡ previewed_text n }
{
    page.clear();
    page.put_between(b"  would be edit ", n, b"\n");
}

// What became of an edit at a studio.
fn edit_at_studio(page: &mut Page, n: u32, what: &[u8], studio: u32)
    requires { length what.now ≤ 64 }
    ensures { page.new ≡ numbered "  edit " n ++ (what.now ++ decimal studio) ++ bytes_of "\n" }
{
    page.clear();
    page.put_numbered(b"  edit ", n);
    page.put_between(what, studio, b"\n");
}

// A send was accepted.
pub fn sent(page: &mut Page, n: u32, studio: u32)
    ensures { page.new ≡ sent_text n studio }
{
    edit_at_studio(page, n, b" is sent to studio ", studio);
}

// A refresh was accepted.
pub fn applied(page: &mut Page, n: u32, studio: u32)
    ensures { page.new ≡ applied_text n studio }
{
    edit_at_studio(page, n, b" is applied by studio ", studio);
}

// How many edits a copy that applied so many is behind the head end.
pub fn behind(commits: u32, applied: u32) -> u32
    ensures { result ≡ commits - applied }
{
    commits.saturating_sub(applied)
}

// So many edits behind the head end, in words.
pub fn put_behind(page: &mut Page, edits: u32)
    requires { length page.old + 64 ≤ page_size }
    ensures text { page.new ≡ page.old ++ behind_text edits }
    ensures fits { length page.new ≤ length page.old + 64 }
{
    if edits == 0 {
        page.put(b", level with the head end");
    } else {
        page.put_between(b", ", edits, b" behind the head end");
    }
}

// A read was answered at an edit, so many behind the head end, with so many carts found.
pub fn answered(page: &mut Page, state: u32, behind: u32, found: u32)
    ensures { page.new ≡ answered_text state behind found }
{
    page.clear();
    page.put_numbered(b"  answered at edit ", state);
    put_behind(page, behind);
    page.put_between(b", found ", found, b":\n");
}

// A forward was answered by the head end at an edit, with so many carts found.
pub fn by_head_end(page: &mut Page, state: u32, found: u32)
    ensures { page.new ≡ head_end_text state found }
{
    page.clear();
    page.put_numbered(b"  answered by the head end at edit ", state);
    page.put_between(b", found ", found, b":\n");
}

// A read waits for an edit.
pub fn waits(page: &mut Page, n: u32)
    ensures { page.new ≡ waits_text n }
{
    page.clear();
    page.put_between(b"  waits for edit ", n, b"\n");
}

// A read by title found no cart.
pub fn untitled(page: &mut Page)
    ensures { page.new ≡ untitled_text }
{
    page.clear();
    page.put(b"    no cart has this title\n");
}

// A read by title found more than one cart.
pub fn several(page: &mut Page, found: u32)
    ensures { page.new ≡ several_text found }
{
    page.clear();
    page.put_between(
        b"    ",
        found,
        b" carts have this title, so none is shown\n",
    );
}

// A session was moved to a studio.
pub fn moved(page: &mut Page, session: u32, studio: u32)
    ensures { page.new ≡ moved_text session studio }
{
    page.clear();
    page.put_numbered(b"  session ", session);
    page.put_between(b" is at studio ", studio, b"\n");
}

// A load was accepted: each copy is what the log's edits make.
pub fn whole(page: &mut Page, n: u32)
    ensures { page.new ≡ whole_text n }
{
    page.clear();
    page.put_between(b"  the wall is whole at edit ", n, b"\n");
}

// How many of the log's 512 records are free.
fn free_records(used: u32) -> u32
    ensures { result ≡ 512 - used }
{
    512_u32.saturating_sub(used)
}

// So many records are free, in words, and the line's end.
fn put_free(page: &mut Page, free: u32)
    requires { length page.old + 64 ≤ page_size }
    ensures { page.new ≡ page.old ++ free_text free }
{
    page.put_counted(b", ", free, b"record");
    if free == 1 {
        page.put(b" is free\n");
    } else {
        page.put(b" are free\n");
    }
}

// A retire was accepted: an edit, and the records that the log uses after it.
pub fn retired(page: &mut Page, n: u32, used: u32)
    ensures { page.new ≡ retired_text n used }
{
    page.clear();
    page.put_between(b"  edit ", n, b" is retired");
    put_free(page, free_records(used));
}

// The van has applied the edit of a message.
pub fn van_applied(page: &mut Page, n: u32)
    ensures { page.new ≡ van_applied_text n }
{
    page.clear();
    page.put_between(b"  the van has applied edit ", n, b"\n");
}

// The van had applied the edit of a message before.
pub fn van_holds(page: &mut Page, n: u32)
    ensures { page.new ≡ van_holds_text n }
{
    page.clear();
    page.put_between(b"  the van holds edit ", n, b" already\n");
}
