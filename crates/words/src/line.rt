// A page, printed; and the status.
use crate::page::Page;
use crate::shown;

// Standard output's descriptor.
const STDOUT: i32 = 1;

// The descriptor on which `play` is told the status: the largest digit written there.
const STATUS: i32 = 3;

pub fn status(n: u8) {
    let digit = [48 + n % 10];
    io::write_all(STATUS, &digit);
}

// Words on standard output; where they cannot be written, status 3.
pub fn words(s: &[u8]) {
    if !io::write_all(STDOUT, s) {
        status(3);
    }
}

// The text on a page.
pub fn told(page: &Page) {
    words(page.text());
}

// The bytes of a line, what is not printable by its number.
pub fn shown(s: &[u8]) {
    for part in s.chunks(1024) {
        let mut page = Page::new();
        shown::line(&mut page, part);
        told(&page);
    }
}
