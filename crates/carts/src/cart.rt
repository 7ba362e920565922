// Carts: 80 bytes each, 128 of them in a copy.
ghost use Rattle.std.specs.Prelude.{◌≡◌, cond, ◌&&◌, ◌≤◌, length, take, drop, ltb, eqb};
ghost use Rattle.carts.specs.Bytes.{every, all_zero};
ghost use Rattle.carts.specs.Cart.{cart_size, cart_count, copy_size, cart_at, printable, has_title, no_title, has_audio, no_audio, held, cart_fields, held_form, cart_form, copy_form};

use crate::bytes;

// A cart's fields, as a value. Its 80 bytes are lent as a slice, a part of a copy, and a clause says how many they are: a `&[u8; 80]`
// would take a conversion, with a proof of its own, at each call.
#[derive(Clone, Copy)]
pub struct Cart {
    pub held: bool,
    pub title_length: u32,
    pub number: u32,
    pub audio: u32,
    pub milliseconds: u32,
}

impl Cart {
    pub const SIZE: usize = 80;

    pub const COUNT: u32 = 128;

    pub const COPY_SIZE: usize = 10240;

    pub const TITLE_SIZE: usize = 64;

    pub const TITLE_LONGEST: u8 = 64;

    // A space: a title that a commit writes may have it inside only (02, S-2).
    pub const SPACE: u8 = 32;

    // Where a cart's fields begin, and an operation's; a record has its links where a cart has four zeros.
    pub const NUMBER_AT: usize = 2;

    pub const AUDIO_AT: usize = 4;

    pub const LENGTH_AT: usize = 8;

    pub const LINKS_AT: usize = 12;

    pub const TITLE_AT: usize = 16;

    // The fields in a cart's bytes.
    #[tactic(auto, unfolding(crate::specs::Cart::cart_fields))]
    pub fn from_bytes(s: &[u8]) -> Cart
        requires { length s.now ≡ cart_size }
        ensures { result ≡ cart_fields s.now }
    {
        Cart {
            held: is_held(s),
            title_length: bytes::byte_at(s, 1),
            number: bytes::u16_at(s, Cart::NUMBER_AT),
            audio: bytes::u32_at(s, Cart::AUDIO_AT),
            milliseconds: bytes::u32_at(s, Cart::LENGTH_AT),
        }
    }
}

// The cart is held.
#[tactic(auto, unfolding(crate::specs::Cart::held))]
pub fn is_held(cart: &[u8]) -> bool
    requires { length cart.now ≡ cart_size }
    ensures { result ≡ held cart.now }
{
    cart[0] == 1
}

// The byte at index j of a title's field: a letter where the title of n letters has one, else zero. With no choice between two
// tests, it vectorises in fewer instructions.
#[tactic(auto, using(crate::proofs::CartLaws::title_byte))]
fn is_title_byte(b: u8, j: u8, n: u8) -> bool
    ensures { result ≡ cond (ltb j n) (printable b) (eqb b 0) }
{
    let zero = b == 0;
    (zero | bytes::is_printable(b)) & (zero != (j < n))
}

// A title's field, of at most 255 bytes, has n letters, then zeros.
pub fn is_title_in(field: &[u8], n: u8) -> bool
    requires { length field.now ≤ 255 }
    ensures { result ≡ (every printable (take n field.now) && all_zero (drop n field.now)) }
{
    let mut ok = true;
    // the index is a byte: its comparison with n then vectorises in bytes
    for (b, j) in field.iter().zip(0..u8::MAX) {
        ok &= is_title_byte(*b, j, n);
    }
    ok
}

// What holds of a field: one test where the field is asked for, the other where it must be absent. A flag and no closures: both tests
// are made, so that nothing branches.
fn is_as_asked(asked: bool, present: bool, absent: bool) -> bool
    ensures { result ≡ cond asked present absent }
{
    if asked { present } else { absent }
}

// The title and its length are of their form where they are asked for, else zero.
pub fn is_title_as_asked(s: &[u8], asked: bool) -> bool
    requires { length s.now ≡ cart_size }
    ensures { result ≡ cond asked (has_title s.now) (no_title s.now) }
{
    let n = s[1];
    is_as_asked(asked, (1 <= n) & (n <= Cart::TITLE_LONGEST), n == 0)
        & is_title_in(&s[Cart::TITLE_AT..Cart::SIZE], n)
}

// Audio number and length are at least 1 where they are asked for, else zero.
pub fn is_audio_as_asked(s: &[u8], asked: bool) -> bool
    requires { length s.now ≡ cart_size }
    ensures { result ≡ cond asked (has_audio s.now) (no_audio s.now) }
{
    let audio = bytes::u32_at(s, Cart::AUDIO_AT);
    let milliseconds = bytes::u32_at(s, Cart::LENGTH_AT);
    is_as_asked(
        asked,
        (1 <= audio) & (1 <= milliseconds),
        (audio == 0) & (milliseconds == 0),
    )
}

// A held cart of number c.
fn is_held_cart(s: &[u8], c: u32) -> bool
    requires { length s.now ≡ cart_size }
    ensures { result ≡ held_form c s.now }
{
    is_held(s)
        & (bytes::u16_at(s, Cart::NUMBER_AT) == c)
        & is_title_as_asked(s, true)
        & is_audio_as_asked(s, true)
        & bytes::all_zero(&s[Cart::LINKS_AT..Cart::TITLE_AT])
}

// An empty cart, or a held one of number c.
#[tactic(auto, using(crate::proofs::CartLaws::cart_empty, crate::proofs::CartLaws::cart_held))]
pub fn is_cart(s: &[u8], c: u32) -> bool
    requires { length s.now ≡ cart_size }
    ensures { result ≡ cart_form c s.now }
{
    if s[0] == 0 {
        return bytes::all_zero(s);
    }
    is_held_cart(s, c)
}

// The 80 bytes of cart c of a copy.
#[tactic(auto, using(crate::proofs::CartLaws::length_cart), unfolding(crate::specs::Cart::cart_at))]
pub fn cart_at(copy: &[u8], c: u32) -> &[u8]
    requires { (length copy.now ≡ copy_size) × ((1 ≤ c) × (c ≤ cart_count)) }
    ensures { (result.now ≡ cart_at copy.now c) × (length result.now ≡ cart_size) }
{
    let start = Cart::SIZE * (c as usize - 1);
    &copy[start..start + Cart::SIZE]
}

// Each of a copy's carts is of its form.
#[tactic(auto, unfolding(crate::specs::Cart::copy_form))]
pub fn is_copy(copy: &[u8]) -> bool
    requires { length copy.now ≡ copy_size }
    ensures { result ≡ copy_form copy.now }
{
    let mut ok = true;
    for c in 1..=Cart::COUNT {
        ok &= is_cart(cart_at(copy, c), c);
    }
    ok
}
