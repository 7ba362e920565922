// The receiver in the van: a message acts on the van's copy where it is the next one.
ghost use Rattle.std.specs.Prelude.{◌≡◌, ◌+◌, ltb};
ghost use Rattle.carts.specs.Refusal.{stop_number};
ghost use Rattle.replication.specs.Rows.{stopped};
ghost use Rattle.van.specs.Answer.{receive_answer};
ghost use Rattle.van.specs.Receive.{van, van_form, receive_rows, after, receive};

use crate::answer::{ReceiveResult, Received};
use crate::message;
use carts::cart::Cart;
use carts::refusal::Refusal;
use carts::{cart, operation};

// The copy has its length and is of the layout.
fn is_van_copy(copy: &[u8]) -> bool
    ensures { result ≡ van_form copy.now }
{
    if copy.len() != Cart::COPY_SIZE {
        return false;
    }
    cart::is_copy(copy)
}

// The number is above applied + 1: no sum that could be too large is made.
fn is_ahead(applied: u32, number: u32) -> bool
    ensures { result ≡ ltb (applied + 1) number }
{
    if number <= applied {
        return false;
    }
    1 < number - applied
}

// The row that stops the receiver, if any.
pub fn decide_receive(copy: &[u8], applied: u32, message: &[u8]) -> Result<(), Refusal>
    ensures { stop_number result ≡ stopped (receive_rows (van copy.now applied) message.now) }
{
    if !message::is_message(message) {
        return Err(Refusal::NoMessage);
    }
    if !is_van_copy(copy) {
        return Err(Refusal::NoMessage);
    }
    if is_ahead(applied, message::number_of(message)) {
        return Err(Refusal::NotNext);
    }
    Ok(())
}

// Document 02's receiver (S-6): the transaction after the applied ones acts on the copy; one that was applied is held.
pub fn receive(copy: &mut [u8], applied: u32, message: &[u8]) -> ReceiveResult
    ensures { after (receive_answer result.answer) (van copy.new result.applied) ≡ receive (van copy.old applied) message.now }
{
    if let Err(refusal) = decide_receive(copy, applied, message) {
        return ReceiveResult {
            answer: Err(refusal),
            applied,
        };
    }
    let n = message::number_of(message);
    if n <= applied {
        return ReceiveResult {
            answer: Ok(Received::Held(n)),
            applied,
        };
    }
    operation::apply_all(copy, &message[message::HEAD_SIZE..]);
    ReceiveResult {
        answer: Ok(Received::Applied(n)),
        applied: n,
    }
}
