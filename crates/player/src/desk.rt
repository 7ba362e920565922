// The memory of a player.
use carts::cart::Cart;
use edit_log::record::Record;
use journal::history::Entry;
use replication::control::Control;
use replication::session::Session;

// The system's library, log and sessions, the van's copy, and the entries with their store.
#[derive(Drop)]
pub struct Desk {
    pub library: [u8; Control::LIBRARY_SIZE],
    pub log: [u8; Record::LOG_SIZE],
    pub sessions: [u8; Session::MEMORY_SIZE],
    pub copy: [u8; Cart::COPY_SIZE],
    pub entries: [Entry; Entry::MOST],
    pub store: [u8; 262144],
}
