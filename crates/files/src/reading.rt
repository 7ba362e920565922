// Files, opened for reading, and inputs, read into lent memory.
ghost use Rattle.std.specs.Prelude.{◌≤◌, length, IfOk};

use crate::failure;
use std::fs;
use std::io::{Read, Result};
use std::rt::Files;

// The file, open.
pub fn open<R: Files>(rt: &R, path: &[u8]) -> Result<R::File> {
    match str::from_utf8(path) {
        Ok(name) => fs::open(rt, name),
        Err(_) => Err(failure::not_utf8()),
    }
}

// Reads until the memory is full or the input ends: how many bytes were read. A `while`, since a read gives as many as it likes.
pub fn read_full<R: Read>(input: &mut R, memory: &mut [u8]) -> Result<usize>
    ensures { IfOk result (λ n. n ≤ length memory.new) }
{
    let mut done: usize = 0;
    while done < memory.len() {
        let n = input.read(&mut memory[done..])?;
        if n == 0 {
            break;
        }
        done += n;
    }
    Ok(done)
}

// The same, and then the input is closed.
pub fn read_and_close<R: Read + Drop>(mut input: R, memory: &mut [u8]) -> Result<usize>
    ensures { IfOk result (λ n. n ≤ length memory.new) }
{
    read_full(&mut input, memory)
}
