// The memories that are read for what is printed.
use journal::history::Entry;

// The system's library and sessions, the van's copy, the entries and their store, the bytes of the line, and the block of a read.
#[derive(Clone, Copy)]
pub struct Seen<'a> {
    pub library: &'a [u8],
    pub sessions: &'a [u8],
    pub copy: &'a [u8],
    pub entries: &'a [Entry],
    pub store: &'a [u8],
    pub payload: &'a [u8],
    pub block: &'a [u8],
}
