// A transaction of the log, for a message: how many operations it has, and its operations as they were handed in.
ghost use Rattle.std.specs.Prelude.{◌≡◌, true, map, ◌*◌, length};
ghost use Rattle.carts.specs.Bytes.{every};
ghost use Rattle.carts.specs.Cart.{cart_size};
ghost use Rattle.edit_log.specs.Log.{log_size, record_size, records_of, transaction_at, handed_in};
ghost use Rattle.replication.specs.Message.{joined};
ghost use Rattle.edit_log.specs.Values.{usable};

use carts::bytes;
use carts::cart::Cart;
use edit_log::record;
use edit_log::record::Record;

// How many operations the transaction whose first record is `first` has.
pub fn count_operations(log: &[u8], first: u32) -> u32
    requires { (length log.now ≡ log_size) × (every (usable log.now) (records_of log.now first) ≡ true) }
    ensures { result ≡ length (records_of log.now first) }
{
    let mut r = first;
    for n in 0..Record::TOO_MANY {
        if r == 0 {
            return n;
        }
        r = Record::at(log, r).next_operation;
    }
    Record::TOO_MANY
}

// A record's operation as it was handed in: its links are zero again.
fn put_operation(place: &mut [u8], stored: &[u8])
    requires { (length place.old ≡ cart_size) × (length stored.now ≡ record_size) }
    ensures { place.new ≡ handed_in stored.now }
{
    bytes::copy_all(place, stored);
    bytes::clear(&mut place[Cart::LINKS_AT..Cart::TITLE_AT]);
}

// The operations of the transaction whose first record is `first`, one after the other: `places` has room for them and no more.
pub fn put_operations(places: &mut [u8], log: &[u8], first: u32)
    requires chain { (length log.now ≡ log_size) × (every (usable log.now) (records_of log.now first) ≡ true) }
    requires room { length places.old ≡ cart_size * length (records_of log.now first) }
    ensures { places.new ≡ joined (map handed_in (transaction_at log.now first)) }
{
    let mut r = first;
    for i in 0..places.len() / Cart::SIZE {
        let start = Cart::SIZE * i;
        let end = start + Cart::SIZE;
        put_operation(&mut places[start..end], record::record_at(log, r));
        r = Record::at(log, r).next_operation;
    }
}
