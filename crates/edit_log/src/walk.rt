// The walk along the log's chain of transactions.
ghost use Rattle.std.specs.Prelude.{◌≡◌, true, length};
ghost use Rattle.edit_log.specs.Log.{log_size, walk};
ghost use Rattle.edit_log.specs.Values.{walkable};

use crate::record::Record;

// The first record of the transaction `left` further on than the one at record r: one fewer to go at each call. A recursion and no
// loop, since the scope names this form.
// The log is passed by a reference to the slice: each call passes the same one on, and the compiler makes a loop of them.
pub fn walk(log: &&[u8], left: u32, r: u32) -> u32
    requires { (length log.now.now ≡ log_size) × (walkable left log.now.now r ≡ true) }
    ensures { result ≡ walk left log.now.now r }
{
    if left == 0 {
        return r;
    }
    let links = Record::at(*log, r);
    walk(log, left - 1, links.next_transaction)
}

// The same, for a log that is not passed on.
pub fn walk_on(log: &[u8], left: u32, r: u32) -> u32
    requires { (length log.now ≡ log_size) × (walkable left log.now r ≡ true) }
    ensures { result ≡ walk left log.now r }
{
    walk(&log, left, r)
}
