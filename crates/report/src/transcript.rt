// The transcript's own lines and its summary, printed.
use crate::summary;
use journal::progress::Progress;
use journal::status;
use lines::input;
use lines::parse::Call;
use words::line;
use words::page::Page;

// A call is shown with its line's number; a comment and a blank line as they are.
pub fn echo(line: u32, bytes: &[u8], call: Call) {
    match call {
        Call::Nothing => {}
        _ => {
            let mut page = Page::new();
            summary::echo(&mut page, line);
            line::told(&page);
        }
    }
    line::shown(input::without_return(bytes));
    line::words(b"\n");
}

// The lines after a line were cut.
pub fn cut_after(line: u32) {
    let mut page = Page::new();
    summary::cut(&mut page, line);
    line::told(&page);
}

// The input is no text.
pub fn no_text() {
    let mut page = Page::new();
    summary::no_text(&mut page);
    line::told(&page);
}

pub fn summary(p: Progress) {
    let mut page = Page::new();
    summary::summary(&mut page, p.line, p.tally);
    line::told(&page);
    if !status::made_calls(p.tally) {
        summary::no_call(&mut page);
        line::told(&page);
    }
}
