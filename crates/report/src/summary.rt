// The transcript itself in words.
#![tactic(auto, unfolding(crate::specs::Lines::echo_text, crate::specs::Lines::cut_text, crate::specs::Lines::tally_text, crate::specs::Lines::summary_text, crate::specs::Lines::no_call_text, crate::specs::Lines::no_text_text))]

ghost use Rattle.std.specs.Prelude.{◌≡◌, ◌++◌, ◌+◌, ◌≤◌, length};
ghost use Rattle.words.specs.Page.{page_size};
ghost use Rattle.report.specs.Lines.{echo_text, cut_text, tally_text, summary_text, no_call_text, no_text_text};

use journal::progress::Tally;
use words::page::Page;

// A line's number, before the line itself.
pub fn echo(page: &mut Page, line: u32)
    ensures { page.new ≡ echo_text line }
{
    page.clear();
    page.put_number(line);
    page.put(b": ");
}

// The text was cut after a line.
pub fn cut(page: &mut Page, line: u32)
    ensures { page.new ≡ cut_text line }
{
    page.clear();
    page.put_between(
        b"\nLEFT OUT: the lines after line ",
        line,
        b": the transcript has more than 65536 bytes\n",
    );
}

// How many lines had each outcome.
fn put_tally(page: &mut Page, tally: Tally)
    requires { length page.old + 128 ≤ page_size }
    ensures text { page.new ≡ page.old ++ tally_text tally }
    ensures fits { length page.new ≤ length page.old + 128 }
{
    page.put_pair(
        b"; calls accepted ",
        tally.accepted,
        b", waited ",
        tally.waited,
    );
    page.put_pair(
        b", refused ",
        tally.refused,
        b"; lines that could not be read ",
        tally.unreadable,
    );
}

// How many lines there were, and what came of them.
pub fn summary(page: &mut Page, lines: u32, tally: Tally)
    ensures { page.new ≡ summary_text lines tally }
{
    page.clear();
    page.put_counted(b"\nSummary: ", lines, b"line");
    put_tally(page, tally);
    page.put(b"\n");
}

// No line was a call.
pub fn no_call(page: &mut Page)
    ensures { page.new ≡ no_call_text }
{
    page.clear();
    page.put(b"No call was made: no line of the input is a call\n");
}

// The input is no text.
pub fn no_text(page: &mut Page)
    ensures { page.new ≡ no_text_text }
{
    page.clear();
    page.put(
        b"The input is no text: it has a zero byte or a byte-order mark of UTF-16. Nothing was played\n",
    );
}
