// Converts a wall file of the thirty-two-character edition to one copy of ours, or a copy to such a file: convert FROM TO. The input
// tells which way. Document 02, S-10.
#![tactic(auto)]

mod fault;
mod held;
mod outcome;
mod save;
mod sentence;

ghost use Rattle.std.specs.Prelude.{◌≤◌, length};
ghost use Rattle.words.specs.Page.{page_size};

use carts::cart::Cart;
use files::{failure, reading};
use old_edition::file;
use outcome::Made;
use std::env::{Env, FillError};
use std::io::{Error, Print};
use std::rt::Files;
use words::line;
use words::page::Page;

// The descriptor of standard error.
const STDERR: i32 = 2;

// How a run ends.
#[derive(Clone, Copy)]
enum Ending {
    Converted,
    Refused,
    NotStarted,
    NotWritten,
}

impl Ending {
    // The status: a digit.
    fn status(self) -> u8 {
        match self {
            Ending::Converted => 0,
            Ending::Refused => 1,
            Ending::NotStarted => 2,
            Ending::NotWritten => 3,
        }
    }
}

// What could not be opened or read is told on standard error.
fn fail(what: &[u8], error: Error) -> Ending {
    failure::tell(what, error);
    Ending::NotStarted
}

// The output is saved, and only then is what came of it told.
fn deliver(rt: &(impl Files + Print), to: &[u8], bytes: &[u8], told: &[u8]) -> Ending
    requires { length to.now ≤ page_size }
{
    if !save::save(rt, to, bytes) {
        return Ending::NotWritten;
    }
    if let Err(error) = rt.write_all(told) {
        failure::tell(b"standard output", error);
        return Ending::NotWritten;
    }
    Ending::Converted
}

// Nothing is written but the sentence.
fn refuse(told: &[u8]) -> Ending {
    io::write_all(STDERR, told);
    Ending::Refused
}

// The input, converted or refused.
fn convert_to(rt: &(impl Files + Print), input: &[u8], to: &[u8]) -> Ending
    requires { length to.now ≤ page_size }
{
    let mut copy = [0; Cart::COPY_SIZE];
    let mut file = [0; file::SIZE];
    let outcome = outcome::convert(input, &mut copy, &mut file);
    let mut page = Page::new();
    sentence::sentence(&mut page, input, outcome);
    match outcome {
        Ok(Made::Copy(_)) => deliver(rt, to, &copy, page.text()),
        Ok(Made::OldFile(_)) => deliver(rt, to, &file, page.text()),
        Err(_) => refuse(page.text()),
    }
}

// At most 65,536 bytes are read. The input is closed before the output is written, which may be the same file.
fn convert_file<R: Files + Print>(rt: &R, input: R::File, from: &[u8], to: &[u8]) -> Ending
    requires { length to.now ≤ page_size }
{
    let mut bytes = io::large_buffer();
    match reading::read_and_close(input, &mut bytes) {
        Ok(n) => convert_to(rt, &bytes[..n], to),
        Err(error) => fail(from, error),
    }
}

// The open input, converted to the file that the second argument names.
fn convert_open<R: Files + Print + Env>(rt: &R, input: R::File, from: &[u8]) -> Ending {
    let mut to = io::buffer();
    let Ok(length) = rt.arg(2, &mut to) else {
        return fail(b"TO", failure::too_long());
    };
    convert_file(rt, input, from, &to[..length])
}

// The input of this name, converted.
fn convert_from(rt: &(impl Files + Print + Env), from: &[u8]) -> Ending {
    match reading::open(rt, from) {
        Ok(input) => convert_open(rt, input, from),
        Err(error) => fail(from, error),
    }
}

// The argument is there, of whatever length.
fn is_given(rt: &impl Env, i: usize) -> bool {
    !matches!(rt.arg(i, &mut []), Err(FillError::NotPresent))
}

// The input that the first argument names, converted.
fn convert(rt: &(impl Files + Print + Env)) -> Ending {
    if !is_given(rt, 2) || is_given(rt, 3) {
        io::write_all(STDERR, b"usage: convert FROM TO\n");
        return Ending::NotStarted;
    }
    let mut from = io::buffer();
    let Ok(length) = rt.arg(1, &mut from) else {
        return fail(b"FROM", failure::too_long());
    };
    convert_from(rt, &from[..length])
}

fn main(rt: HostRuntime) {
    line::status(convert(&rt).status());
}
