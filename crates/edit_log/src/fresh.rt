// The log that setup leaves: a free chain of all its records, in order.
ghost use Rattle.std.specs.Prelude.{◌≡◌, ◌+◌, ◌-◌, ◌<◌, ◌≤◌, length};
ghost use Rattle.edit_log.specs.Log.{record_count, log_size, up_from, front};
ghost use Rattle.edit_log.specs.Writes.{fresh_log};

use crate::cell;
use crate::record::Record;
use carts::bytes;

// The free record after record r; 0 for none.
fn next_free(r: u32) -> u32
    requires { r ≤ record_count }
    ensures { (result ≡ front (up_from (r + 1) (record_count - r))) × (result ≤ record_count) }
{
    if r == Record::COUNT { 0 } else { r + 1 }
}

// Every record becomes free.
pub fn make_fresh(log: &mut [u8])
    requires { length log.old ≡ log_size }
    ensures { log.new ≡ fresh_log }
{
    bytes::clear(log);
    for r in 1..=Record::COUNT {
        cell::put(log, r, Record::NEXT_OPERATION, next_free(r));
    }
}
