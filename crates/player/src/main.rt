// Plays a transcript, the file that its first argument names or standard input: each call's answer, a summary, and the
// one-copy order replayed on a single library. docs/TRANSCRIPT.md has the format and the limits.
#![tactic(auto)]

mod desk;
mod play;

ghost use Rattle.std.specs.Prelude.{◌≤◌, length, IfOk};
ghost use Rattle.journal.specs.History.{most_entries};

use crate::desk::Desk;
use carts::cart::Cart;
use edit_log::record::Record;
use files::{failure, reading};
use journal::history::Entry;
use journal::progress::Progress;
use lines::{input, parse};
use replication::control::Control;
use replication::session::Session;
use std::env::{Env, FillError};
use std::io::{Error, Read, Result};
use std::rt::Files;

// A line, without its end.
fn play_line(p: Progress, desk: &mut Desk, line: &[u8]) -> Progress
    requires { p.history.entries ≤ most_entries }
    ensures { result.history.entries ≤ most_entries }
{
    let next = p.next_line();
    let mut payload = [0u8; Record::TRANSACTION_SIZE];
    let call = parse::parse(line, &mut payload);
    report::transcript::echo(next.line, line, call);
    play::play_call(next, desk, call, &payload)
}

// Every line; the last is left out where the text was cut in it.
#[tactic(auto, unfolding(journal::specs::Progress::start))]
fn play_lines(desk: &mut Desk, bytes: &[u8], cut: bool) -> Progress
    ensures { result.history.entries ≤ most_entries }
{
    let mut player = Progress::new();
    for line in bytes.split_inclusive(|b| *b == b'\n') {
        if !cut || line.ends_with(b"\n") {
            let text = line.strip_suffix(b"\n").unwrap_or(line);
            player = play_line(player, desk, text);
        }
    }
    player
}

// Every line, then the end. All memory is on the stack.
fn play_text(bytes: &[u8], cut: bool) {
    let mut desk = Desk {
        library: [0; Control::LIBRARY_SIZE],
        log: [0; Record::LOG_SIZE],
        sessions: [0; Session::MEMORY_SIZE],
        copy: [0; Cart::COPY_SIZE],
        entries: [Entry::EMPTY; Entry::MOST],
        store: [0; 262144],
    };
    let player = play_lines(&mut desk, bytes, cut);
    print::end::tell_end(player, &desk.sessions, &desk.entries, &desk.store, cut);
}

// A text after its byte-order mark; any other input is named once, and not played.
fn play_input(bytes: &[u8], cut: bool) {
    if !input::is_text(bytes) {
        report::transcript::no_text();
        words::line::status(2);
        return;
    }
    let start = input::mark_length(bytes);
    if start <= bytes.len() {
        play_text(&bytes[start..], cut);
    }
}

// What could not be opened or read is told on standard error.
fn fail(what: &[u8], error: Error) {
    failure::tell(what, error);
    words::line::status(2);
}

// The bytes of a transcript, as many as the memory holds, and whether it is cut there: there is more to read.
fn read_transcript<R: Read>(input: &mut R, text: &mut [u8]) -> Result<(usize, bool)>
    ensures { IfOk result (λ r. r.0 ≤ length text.new) }
{
    let n = reading::read_full(input, text)?;
    let mut one = [0u8; 1];
    let cut = n == text.len() && input.read(&mut one).is_ok_and(|more| more > 0);
    Ok((n, cut))
}

// The transcript that an open input has.
fn play_from(input: &mut impl Read) {
    let mut text = io::large_buffer();
    match read_transcript(input, &mut text) {
        Ok((n, cut)) => play_input(&text[..n], cut),
        Err(error) => fail(b"play: the transcript cannot be read", error),
    }
}

// The transcript in the file of this name.
fn play_file(rt: &impl Files, path: &[u8]) {
    match reading::open(rt, path) {
        Ok(mut file) => play_from(&mut file),
        Err(error) => fail(path, error),
    }
}

fn main(rt: HostRuntime) {
    let mut path = io::buffer();
    match rt.arg(1, &mut path) {
        Ok(length) => play_file(&rt, &path[..length]),
        Err(FillError::TooLong) => fail(b"path", failure::too_long()),
        Err(FillError::NotPresent) => play_from(&mut rt.stdin()),
    }
}
