// The bytes of operations, requests and studios.
ghost use Rattle.std.specs.Prelude.{◌≡◌, ◌+◌, ◌*◌, ◌<◌, ◌≤◌, ◌++◌, length, take, drop};
ghost use Rattle.carts.specs.Cart.{cart_size, title_size};
ghost use Rattle.carts.specs.Bytes.{over};
ghost use Rattle.lines.specs.Build.{u32_bytes, operation_bytes, u16_list, numbers_bytes, asked_at, studio_bytes, most_numbers, most_studios};

use crate::text;
use carts::bytes;
use carts::cart::Cart;

// The u32 at an index becomes v.
pub fn put_u32(s: &mut [u8], at: usize, v: u32)
    requires { at + 4 ≤ length s.old }
    ensures { s.new ≡ over s.old at 4 (u32_bytes v) }
{
    s[at..at + 4].copy_from_slice(&v.to_le_bytes());
}

// The title's letters, as many as the field has room for, stand at the field's start.
fn put_title(field: &mut [u8], title: &[u8])
    requires { length field.old ≡ title_size }
    ensures { field.new ≡ take title_size title.now ++ drop (length title.now) field.old }
{
    let n = title.len().min(Cart::TITLE_SIZE);
    field[..n].copy_from_slice(&title[..n]);
}

// An operation of a kind, or a request by title (kind 2, the numbers zero). What its kind leaves out is zero or empty.
pub fn put_operation(s: &mut [u8], kind: u8, cart: u32, audio: u32, milliseconds: u32, title: &[u8])
    requires { (length s.old ≡ cart_size) × (cart < 65536) × (length title.now < 256) }
    ensures { s.new ≡ operation_bytes kind cart audio milliseconds title.now }
{
    bytes::clear(s);
    s[0] = kind;
    s[1] = title.len() as u8;
    bytes::put_u16(s, Cart::NUMBER_AT, cart);
    put_u32(s, Cart::AUDIO_AT, audio);
    put_u32(s, Cart::LENGTH_AT, milliseconds);
    put_title(&mut s[Cart::TITLE_AT..Cart::SIZE], title);
}

// A request by at most 32 cart numbers.
pub fn put_numbers(request: &mut [u8], numbers: &[u32])
    requires { (length request.old ≡ cart_size) × (length numbers.now ≤ most_numbers) }
    ensures { request.new ≡ numbers_bytes numbers.now }
{
    bytes::clear(request);
    request[0] = 1;
    request[1] = numbers.len() as u8;
    put_u16s(&mut request[Cart::TITLE_AT..Cart::SIZE], numbers);
}

// Numbers of two bytes, one after the other at the start of a field.
fn put_u16s(field: &mut [u8], numbers: &[u32])
    requires { (length field.old ≡ title_size) × (length numbers.now ≤ most_numbers) }
    ensures { field.new ≡ u16_list numbers.now ++ drop (2 * length numbers.now) field.old }
{
    for (i, number) in numbers.iter().enumerate() {
        bytes::put_u16(field, 2 * i, number % 65536);
    }
}

// The number asked at place i of a request.
pub fn asked(request: &[u8], i: u32) -> u32
    ensures { result ≡ asked_at request.now i }
{
    let at = Cart::TITLE_AT + 2 * (i as usize);
    u32::from(text::letter(request, at)) + 256 * u32::from(text::letter(request, at + 1))
}

// The studios of at most 16 sessions; the sessions left over are unused.
pub fn put_studios(places: &mut [u8], studios: &[u32])
    requires { (length places.old ≡ most_studios) × (length studios.now ≤ most_studios) }
    ensures { places.new ≡ studio_bytes studios.now }
{
    bytes::clear(places);
    for (i, studio) in studios.iter().enumerate() {
        places[i] = (studio % 256) as u8;
    }
}
