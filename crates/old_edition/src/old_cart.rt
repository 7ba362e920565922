// Carts of the thirty-two-character edition: 48 bytes each, laid out as ours.
ghost use Rattle.std.specs.Prelude.{◌≡◌, ◌<◌, length};
ghost use Rattle.carts.specs.Cart.{cart_size};
ghost use Rattle.old_edition.specs.OldFile.{old_cart_size, has_old_title, old_held_form, old_cart_form};
ghost use Rattle.old_edition.specs.Convert.{widened, narrowed, long_title};

use carts::cart::Cart;
use carts::{bytes, cart};

pub const SIZE: usize = 48;

pub const TITLE_LONGEST: u8 = 32;

// The cart, an old one or one of ours, has a title that an old cart has no room for.
#[tactic(auto, unfolding(crate::specs::Convert::long_title))]
pub fn is_long_title(cart: &[u8]) -> bool
    requires { 1 < length cart.now }
    ensures { result ≡ long_title cart.now }
{
    TITLE_LONGEST < cart[1]
}

// The title is of its form: 1 to 32 letters, then zeros.
fn is_old_title(old: &[u8]) -> bool
    requires { length old.now ≡ old_cart_size }
    ensures { result ≡ has_old_title old.now }
{
    let n = old[1];
    (1 <= n) & (n <= TITLE_LONGEST) & cart::is_title_in(&old[Cart::TITLE_AT..SIZE], n)
}

// A held old cart of number c. Laid out as one of ours and tested as such, it took up to 1.8 times as long.
fn is_old_held(old: &[u8], c: u32) -> bool
    requires { length old.now ≡ old_cart_size }
    ensures { result ≡ old_held_form c old.now }
{
    (old[0] == 1)
        & (bytes::u16_at(old, Cart::NUMBER_AT) == c)
        & is_old_title(old)
        & ((1 <= bytes::u32_at(old, Cart::AUDIO_AT)) & (1 <= bytes::u32_at(old, Cart::LENGTH_AT)))
        & bytes::all_zero(&old[Cart::LINKS_AT..Cart::TITLE_AT])
}

// An empty old cart, or a held one of number c.
#[tactic(auto, using(crate::proofs::OldCartLaws::old_empty, crate::proofs::OldCartLaws::old_held))]
pub fn is_old_cart(old: &[u8], c: u32) -> bool
    requires { length old.now ≡ old_cart_size }
    ensures { result ≡ old_cart_form c old.now }
{
    if old[0] == 0 {
        return bytes::all_zero(old);
    }
    is_old_held(old, c)
}

// A place of ours becomes an old cart's: the same bytes, then zeros.
pub fn put_wide(place: &mut [u8], old: &[u8])
    requires { (length place.old ≡ cart_size) × (length old.now ≡ old_cart_size) }
    ensures { place.new ≡ widened old.now }
{
    place[..SIZE].copy_from_slice(old);
    place[SIZE..].fill(0);
}

// An old place becomes one of our carts: its bytes before the title's last 32.
#[tactic(auto, unfolding(crate::specs::Convert::narrowed))]
pub fn put_narrow(place: &mut [u8], cart: &[u8])
    requires { (length place.old ≡ old_cart_size) × (length cart.now ≡ cart_size) }
    ensures { place.new ≡ narrowed cart.now }
{
    place.copy_from_slice(&cart[..SIZE]);
}
