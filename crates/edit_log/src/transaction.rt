// A transaction of the log acts on a copy.
ghost use Rattle.std.specs.Prelude.{◌≡◌, true, length};
ghost use Rattle.carts.specs.Bytes.{every};
ghost use Rattle.carts.specs.Cart.{copy_size};
ghost use Rattle.carts.specs.Operation.{meets_all, act_all};
ghost use Rattle.edit_log.specs.Log.{log_size, records_of, transaction_at};
ghost use Rattle.edit_log.specs.Values.{usable};

use crate::record;
use crate::record::Record;
use carts::operation;

// The operations of the transaction whose first record is `first`, one after the other along the chain; the answer is whether each met its cart in the right
// state.
pub fn try_transaction(copy: &mut [u8], log: &[u8], first: u32) -> bool
    requires { (length copy.old ≡ copy_size) × ((length log.now ≡ log_size) × (every (usable log.now) (records_of log.now first) ≡ true)) }
    ensures { (result ≡ meets_all copy.old (transaction_at log.now first)) × (copy.new ≡ act_all copy.old (transaction_at log.now first)) }
{
    let mut ok = true;
    let mut r = first;
    for _ in 0..Record::TOO_MANY {
        if r == 0 {
            return ok;
        }
        let op = record::record_at(log, r);
        ok &= operation::meets(copy, op);
        operation::apply(copy, op);
        r = Record::at(log, r).next_operation;
    }
    ok
}

// The operations of that transaction act on a copy.
pub fn apply_transaction(copy: &mut [u8], log: &[u8], first: u32)
    requires { (length copy.old ≡ copy_size) × ((length log.now ≡ log_size) × (every (usable log.now) (records_of log.now first) ≡ true)) }
    ensures { copy.new ≡ act_all copy.old (transaction_at log.now first) }
{
    try_transaction(copy, log, first);
}
