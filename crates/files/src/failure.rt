// What the system refused, told on standard error as C's perror tells it.
use std::fmt::InlineText;
use std::io::{Error, ErrorKind};

// The descriptor of standard error.
const STDERR: i32 = 2;

// The system's number for a name that is too long.
const NAME_TOO_LONG: i32 = 36;

// Of an argument that is longer than a path may be.
pub fn too_long() -> Error {
    Error::from_raw_os_error(NAME_TOO_LONG)
}

// Of a name that std does not take.
pub fn not_utf8() -> Error {
    Error::new(ErrorKind::InvalidInput, "the name is not UTF-8")
}

// The words of an error, without the system's number, which std writes after them.
fn words_of(text: &str) -> &str {
    match text.split_once(" (os error ") {
        Some((words, _)) => words,
        None => text,
    }
}

// A line: what the error is of, a colon, and the error's words.
pub fn tell(what: &[u8], error: Error) {
    let text = InlineText::<256>::of(error);
    io::write_all(STDERR, what);
    io::write_all(STDERR, b": ");
    io::write_all(STDERR, words_of(text.as_str()).as_bytes());
    io::write_all(STDERR, b"\n");
}
