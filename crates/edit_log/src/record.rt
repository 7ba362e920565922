// Records of the log: 80 bytes each, 512 of them, counted from 1.
ghost use Rattle.std.specs.Prelude.{◌≡◌, ◌<◌, ◌≤◌, length};
ghost use Rattle.edit_log.specs.Log.{record_size, record_count, log_size, record_at};
ghost use Rattle.edit_log.specs.Values.{links_of};

use carts::bytes;

// A record's links, as a value: the next operation of its transaction, and in a first record the next transaction; 0 for none.
// Numbers and no Option: the definition links_of, which the theorems of crates above cite, has the two u16 as they are stored.
#[derive(Clone, Copy)]
pub struct Record {
    pub next_operation: u32,
    pub next_transaction: u32,
}

impl Record {
    pub const SIZE: usize = 80;

    pub const COUNT: u32 = 512;

    pub const LOG_SIZE: usize = 40960;

    // The places of the two links.
    pub const NEXT_OPERATION: usize = 12;

    pub const NEXT_TRANSACTION: usize = 14;

    // The operations of a transaction, at most; one more, so that a longer one shows.
    pub const MOST: u32 = 8;

    pub const TOO_MANY: u32 = 9;

    pub const TRANSACTION_SIZE: usize = 640;

    // The links of record r.
    pub fn at(log: &[u8], r: u32) -> Record
        requires { (length log.now ≡ log_size) × ((1 ≤ r) × (r ≤ record_count)) }
        ensures { (result ≡ links_of log.now r) × ((result.next_operation < 65536) × (result.next_transaction < 65536)) }
    {
        let bytes = record_at(log, r);
        Record {
            next_operation: bytes::u16_at(bytes, Record::NEXT_OPERATION),
            next_transaction: bytes::u16_at(bytes, Record::NEXT_TRANSACTION),
        }
    }
}

// The bytes of record r.
pub fn record_at(log: &[u8], r: u32) -> &[u8]
    requires { (length log.now ≡ log_size) × ((1 ≤ r) × (r ≤ record_count)) }
    ensures { (result.now ≡ record_at log.now r) × (length result.now ≡ record_size) }
{
    let start = Record::SIZE * (r as usize - 1);
    &log[start..start + Record::SIZE]
}
