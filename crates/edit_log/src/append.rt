// What a commit writes to the log: its operations in the first records of the free chain, and the link to them.
ghost use Rattle.std.specs.Prelude.{◌≡◌, true, ◌+◌, ◌*◌, ◌-◌, ◌/◌, ◌<◌, ◌≤◌, length};
ghost use Rattle.carts.specs.Operation.{operations_of};
ghost use Rattle.edit_log.specs.Log.{record_size, log_size, chain, follow};
ghost use Rattle.edit_log.specs.Writes.{write_all, appended};
ghost use Rattle.edit_log.specs.Values.{walkable, Takeable};

use crate::record::Record;
use crate::{cell, walk};

// The index of the next operation, where so many are left and `after` is the free record that follows; 0 for none.
fn next_operation(after: u32, left: usize) -> u32
    requires { after < 65536 }
    ensures { (left ≡ 0 → result ≡ 0) × ((1 ≤ left → result ≡ after) × (result < 65536)) }
{
    if left == 0 { 0 } else { after }
}

// Each operation is written to its record, along the free chain from record `first` on, with the index of the next one: the free record
// after the last of them.
fn write_all(log: &mut [u8], first: u32, ops: &[u8]) -> u32
    requires { (length log.old ≡ log_size) × Takeable (length ops.now / record_size) log.old first }
    ensures { (log.new ≡ write_all (chain (length ops.now / record_size) log.old first) (operations_of ops.now) log.old) × (result ≡ follow (length ops.now / record_size) log.old first) }
{
    let count = ops.len() / Record::SIZE;
    let mut r = first;
    for (i, op) in ops.chunks_exact(Record::SIZE).enumerate() {
        let after = Record::at(log, r).next_operation;
        let next = next_operation(after, count - i - 1);
        cell::fill(log, r, op, Record::NEXT_OPERATION, next);
        r = after;
    }
    r
}

// The operations are appended as a transaction, and the last one before, if there is one, is linked to it: the first record that is still free.
pub fn append_transaction(
    log: &mut [u8],
    transactions: u32,
    oldest: u32,
    first: u32,
    ops: &[u8],
) -> u32
    requires room { (length log.old ≡ log_size) × ((1 ≤ length ops.now / record_size) × Takeable (length ops.now / record_size) log.old first) }
    requires chain { (walkable transactions log.old oldest ≡ true) × (first < 65536) }
    ensures { (log.new ≡ appended transactions log.old oldest first (operations_of ops.now)) × (result ≡ follow (length ops.now / record_size) log.old first) }
{
    if transactions == 0 {
        return write_all(log, first, ops);
    }
    let last = walk::walk_on(log, transactions - 1, oldest);
    let next = write_all(log, first, ops);
    cell::put(log, last, Record::NEXT_TRANSACTION, first);
    next
}
