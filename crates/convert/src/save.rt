// A file, saved whole or not at all: it is written under a new name beside its own, which it takes once it is whole.
ghost use Rattle.std.specs.Prelude.{◌≡◌, ◌≤◌, length};
ghost use Rattle.words.specs.Page.{page_size};
ghost use Rattle.convert.specs.Names.{partial_name};

use files::failure;
use std::fs;
use std::fs::{OpenFile, OpenOptions};
use std::io::{Result, Write};
use std::rt::Files;

// What the new name ends with.
const ENDING: &[u8] = b".partial";

// Room for a name of 4,096 bytes, and eight more.
const NAME_SIZE: usize = 4104;

// The new name.
fn partial_name<'a>(room: &'a mut [u8; NAME_SIZE], to: &[u8]) -> &'a [u8]
    requires { length to.now ≤ page_size }
    ensures { result.now ≡ partial_name to.now }
{
    let end = to.len() + ENDING.len();
    room[..to.len()].copy_from_slice(to);
    room[to.len()..end].copy_from_slice(ENDING);
    &room[..end]
}

// The new file, open for writing; an error where there is a file of that name.
fn create<R: Files>(rt: &R, name: &[u8]) -> Result<R::File> {
    let Ok(name) = str::from_utf8(name) else {
        return Err(failure::not_utf8());
    };
    OpenOptions::new()
        .write(true)
        .create_new(true)
        .open(rt, name)
}

// The bytes are in the new file, and on its device; the file is closed.
fn write<F: Write + OpenFile + Drop>(mut file: F, bytes: &[u8]) -> Result<()> {
    file.write_all(bytes)?;
    file.sync_all()
}

// The new file has the name of the one that is saved.
fn rename(rt: &impl Files, name: &[u8], to: &[u8]) -> Result<()> {
    let (Ok(name), Ok(to)) = (str::from_utf8(name), str::from_utf8(to)) else {
        return Err(failure::not_utf8());
    };
    fs::rename(rt, name, to)
}

// The new file, where it is not to stay, is removed.
fn remove(rt: &impl Files, name: &[u8]) {
    if let Ok(name) = str::from_utf8(name) {
        let _ = fs::remove_file(rt, name);
    }
}

// The new file, written, closed and renamed; what fails is told on standard error.
fn fill<R: Files>(rt: &R, file: R::File, name: &[u8], to: &[u8], bytes: &[u8]) -> bool {
    if let Err(error) = write(file, bytes) {
        failure::tell(name, error);
        return false;
    }
    if let Err(error) = rename(rt, name, to) {
        failure::tell(to, error);
        return false;
    }
    true
}

// The file, saved: or it is as it was, and the new one, where this made it, is removed. A bool: an error is told here, where it is known
// which of the two names it is of.
pub fn save(rt: &impl Files, to: &[u8], bytes: &[u8]) -> bool
    requires { length to.now ≤ page_size }
{
    let mut room = [0; NAME_SIZE];
    let name = partial_name(&mut room, to);
    let file = match create(rt, name) {
        Ok(file) => file,
        Err(error) => {
            failure::tell(name, error);
            return false;
        }
    };
    let is_saved = fill(rt, file, name, to, bytes);
    if !is_saved {
        remove(rt, name);
    }
    is_saved
}
