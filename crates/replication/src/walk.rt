// The walk to a transaction of the log, by control.
ghost use Rattle.std.specs.Prelude.{◌≡◌, true, ◌-◌, ◌≤◌, length};
ghost use Rattle.edit_log.specs.Log.{log_size, walk};
ghost use Rattle.edit_log.specs.Values.{walkable};

use crate::control::Control;
use edit_log::walk;

// The first record of the transaction after the first n, of which the retired ones are no longer in the log.
pub fn transaction_after(control: Control, log: &[u8], n: u32) -> u32
    requires kept { (length log.now ≡ log_size) × (control.retired ≤ n) }
    requires reached { walkable (n - control.retired) log.now control.oldest ≡ true }
    ensures { result ≡ walk (n - control.retired) log.now control.oldest }
{
    walk::walk_on(log, n - control.retired, control.oldest)
}
