// What retire writes to the log: the records of a transaction join the end of the free chain.
ghost use Rattle.std.specs.Prelude.{◌≡◌, ◌+◌, ◌*◌, ◌-◌, ◌<◌, ◌≤◌, length};
ghost use Rattle.carts.specs.Bytes.{zeros, over, u16_bytes};
ghost use Rattle.carts.specs.Cart.{links_at};
ghost use Rattle.edit_log.specs.Log.{record_size, record_count, log_size, records_of, with_record};
ghost use Rattle.edit_log.specs.Writes.{free_all, released};
ghost use Rattle.edit_log.specs.Values.{Ending, freed_of};

use crate::cell;
use crate::record::Record;

// The records that have become free: how many, and the last of them.
#[derive(Clone, Copy)]
pub struct Freed {
    pub count: u32,
    pub last: u32,
}

// Record r becomes free: zero but for the index of the next one.
fn free_record(log: &mut [u8], r: u32, next: u32)
    requires { (length log.old ≡ log_size) × ((1 ≤ r) × ((r ≤ record_count) × (next < 65536))) }
    ensures { log.new ≡ with_record log.old r (over (zeros record_size) links_at 2 (u16_bytes next)) }
{
    cell::fill(log, r, &[0; Record::SIZE], Record::NEXT_OPERATION, next);
}

// The records of the transaction at record first become free, each with the index of the next one.
fn free_all(log: &mut [u8], first: u32) -> Freed
    requires { (length log.old ≡ log_size) × Ending log.old first }
    ensures { (log.new ≡ free_all (records_of log.old first) log.old) × (result ≡ freed_of log.old first) }
{
    let mut r = first;
    let mut last = 0;
    let mut count = 0;
    // A `while`: the records say where the chain ends, and it has as many as there are.
    while r != 0 {
        let next = Record::at(log, r).next_operation;
        free_record(log, r, next);
        last = r;
        r = next;
        count += 1;
    }
    Freed { count, last }
}

// The records of the transaction at record oldest join the free chain, whose last record is last, 0 for none; the last of them is its new last record.
pub fn retire_transaction(log: &mut [u8], oldest: u32, last: u32) -> Freed
    requires chain { (length log.old ≡ log_size) × Ending log.old oldest }
    requires links { (oldest < 65536) × (last ≤ record_count) }
    ensures { (log.new ≡ released log.old oldest last) × (result ≡ freed_of log.old oldest) }
{
    let freed = free_all(log, oldest);
    if last != 0 {
        cell::put(log, last, Record::NEXT_OPERATION, oldest);
    }
    freed
}
