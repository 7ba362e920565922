// A message's parts: its number, its form, and its first four bytes.
ghost use Rattle.std.specs.Prelude.{◌≡◌, [], ◌∷◌, ◌++◌, ◌<◌, ◌≤◌, length};
ghost use Rattle.carts.specs.Bytes.{u16_bytes, over};
ghost use Rattle.van.specs.Message.{head_size, message_number, head_form, message_form};

use carts::cart::Cart;
use carts::{bytes, operation};
use edit_log::record::Record;

// Where the parts of a message begin: a u16, the count of operations, a zero, and then the operations.
pub const HEAD_SIZE: usize = 4;

const COUNT_AT: usize = 2;

const ZERO_AT: usize = 3;

// The number of a message's transaction.
pub fn number_of(message: &[u8]) -> u32
    requires { head_size ≤ length message.now }
    ensures { (result ≡ message_number message.now) × (result < 65536) }
{
    bytes::u16_at(message, 0)
}

// The first four bytes are of their form, and the length is that of so many operations.
fn is_head(message: &[u8]) -> bool
    ensures { result ≡ head_form message.now }
{
    if message.len() < HEAD_SIZE {
        return false;
    }
    let count = bytes::byte_at(message, COUNT_AT);
    (1 <= number_of(message))
        & bytes::is_within(1, Record::MOST, count)
        & (message[ZERO_AT] == 0)
        & (message.len() == HEAD_SIZE + Cart::SIZE * (count as usize))
}

// A message of its form.
pub fn is_message(message: &[u8]) -> bool
    ensures { result ≡ message_form message.now }
{
    if !is_head(message) {
        return false;
    }
    operation::all_operations(&message[HEAD_SIZE..])
}

// The first four bytes of the message of transaction n, of so many operations.
pub fn put_head(output: &mut [u8], n: u32, count: u32)
    requires { (head_size ≤ length output.old) × ((n < 65536) × (count < 256)) }
    ensures { output.new ≡ over output.old 0 head_size (u16_bytes n ++ (count ∷ 0 ∷ [])) }
{
    bytes::put_u16(output, 0, n);
    output[COUNT_AT] = count as u8;
    output[ZERO_AT] = 0;
}
