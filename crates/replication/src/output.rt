// What an answered read writes to output, and how many carts it finds in a copy.
ghost use Rattle.std.specs.Prelude.{◌≡◌, true, cond, ◌*◌, ◌≤◌, length};
ghost use Rattle.carts.specs.Bytes.{byte, over};
ghost use Rattle.carts.specs.Cart.{cart_size, cart_count, copy_size, title_size, cart_at, held};
ghost use Rattle.carts.specs.Title.{shown_by_numbers, found_by_numbers, titled_in, the_one};
ghost use Rattle.replication.specs.Memory.{library_size, session_size, studio_count, copy_at};
ghost use Rattle.replication.specs.Request.{numbers_in, numbers_form, request_of, request_fields, needed, found_in, shown_from};
ghost use Rattle.replication.specs.Values.{waiting_value};

use crate::copies;
use crate::session::{Session, Waiting};
use carts::cart::Cart;
use carts::titles::Found;
use carts::{bytes, cart, titles};

// Cart c of a copy is written to 80 bytes of output; the answer is 1 if it is held, else 0.
fn show_cart(copy: &[u8], c: u32, place: &mut [u8]) -> u32
    requires copy { (length copy.now ≡ copy_size) × ((1 ≤ c) × (c ≤ cart_count)) }
    requires place { length place.old ≡ cart_size }
    ensures { (result ≡ cond (held (cart_at copy.now c)) 1 0) × (place.new ≡ cart_at copy.now c) }
{
    let cart = cart::cart_at(copy, c);
    place.copy_from_slice(cart);
    if cart::is_held(cart) { 1 } else { 0 }
}

// By numbers: one cart for each number asked; found counts the places that are held.
fn show_numbers(copy: &[u8], request: &[u8], count: u32, output: &mut [u8]) -> u32
    requires copy { (length copy.now ≡ copy_size) × (length request.now ≡ session_size) }
    requires request { (numbers_form request.now ≡ true) × (cart_size * byte request.now 1 ≤ length output.old) }
    requires count { count ≡ byte request.now 1 }
    ensures { (result ≡ found_by_numbers copy.now (numbers_in request.now))
        × (output.new ≡ over output.old 0 (cart_size * byte request.now 1) (shown_by_numbers copy.now (numbers_in request.now))) }
{
    let mut found: u32 = 0;
    for i in 0..count as usize {
        let c = bytes::u16_at(request, Session::PAYLOAD_AT + 2 * i);
        let start = Cart::SIZE * i;
        let end = start + Cart::SIZE;
        found += show_cart(copy, c, &mut output[start..end]);
    }
    found
}

// By title: found is how many carts have it; the one cart if found is 1, else zeros.
fn show_title(copy: &[u8], title: &[u8], output: &mut [u8]) -> u32
    requires { (length copy.now ≡ copy_size) × ((length title.now ≤ title_size) × (cart_size ≤ length output.old)) }
    ensures { (result ≡ length (titled_in title.now copy.now))
        × (output.new ≡ over output.old 0 cart_size (the_one copy.now (titled_in title.now copy.now))) }
{
    let found = titles::search(copy, title).found;
    let Found::One(c) = found else {
        bytes::clear(&mut output[0..Cart::SIZE]);
        return titles::found_count(found);
    };
    let cart = cart::cart_at(copy, c);
    output[0..Cart::SIZE].copy_from_slice(cart);
    1
}

// The read in the 80 bytes of a request or a session: `waiting` is its case.
fn show(copy: &[u8], request: &[u8], waiting: Waiting, output: &mut [u8]) -> u32
    requires copy { (length copy.now ≡ copy_size) × ((length request.now ≡ session_size) × (waiting ≡ waiting_value request.now)) }
    requires request { (request_fields request.now ≡ true) × (needed (request_of request.now) ≤ length output.old) }
    ensures { (result ≡ found_in copy.now (request_of request.now))
        × (output.new ≡ over output.old 0 (needed (request_of request.now)) (shown_from copy.now (request_of request.now))) }
{
    match waiting {
        Waiting::Nothing => 0,
        Waiting::Numbers(n) => show_numbers(copy, request, n, output),
        Waiting::Title(n) => {
            let end = Session::PAYLOAD_AT + n as usize;
            show_title(copy, &request[Session::PAYLOAD_AT..end], output)
        }
    }
}

// A read answered from a copy: found, and what is shown.
pub fn answer(library: &[u8], copy: u32, request: &[u8], output: &mut [u8]) -> u32
    requires library { (length library.now ≡ library_size) × ((copy ≤ studio_count) × (length request.now ≡ session_size)) }
    requires request { (request_fields request.now ≡ true) × (needed (request_of request.now) ≤ length output.old) }
    ensures { (result ≡ found_in (copy_at library.now copy) (request_of request.now))
        × (output.new ≡ over output.old 0 (needed (request_of request.now)) (shown_from (copy_at library.now copy) (request_of request.now))) }
{
    let waiting = Session::from_bytes(request).waiting;
    show(copies::copy_at(library, copy), request, waiting, output)
}
