// Carts in words.
#![tactic(auto, unfolding(crate::specs::Lines::recording_text, crate::specs::Lines::cart_text, crate::specs::Lines::empty_text, crate::specs::Lines::no_cart_text))]

ghost use Rattle.std.specs.Prelude.{◌≡◌, ◌++◌, ◌+◌, ◌≤◌, length};
ghost use Rattle.carts.specs.Cart.{cart_size};
ghost use Rattle.words.specs.Page.{page_size};
ghost use Rattle.report.specs.Lines.{recording_text, cart_text, empty_text, no_cart_text};

use carts::cart::Cart;
use words::page::Page;

// A cart's recording, and the line's end.
fn put_recording(page: &mut Page, audio: u32, milliseconds: u32)
    requires { length page.old + 64 ≤ page_size }
    ensures { page.new ≡ page.old ++ recording_text audio milliseconds }
{
    page.put_numbered(b", audio ", audio);
    page.put_between(b", length ", milliseconds, b" ms\n");
}

// What a held cart has, from its 80 bytes.
pub fn held(page: &mut Page, cart: &[u8])
    requires { length cart.now ≡ cart_size }
    ensures { page.new ≡ cart_text cart.now }
{
    let fields = Cart::from_bytes(cart);
    page.clear();
    page.put_numbered(b"    cart ", fields.number);
    page.put(b" ");
    page.put_title(cart, fields.title_length);
    put_recording(page, fields.audio, fields.milliseconds);
}

// A cart that was asked for and is empty.
pub fn empty(page: &mut Page, n: u32)
    ensures { page.new ≡ empty_text n }
{
    page.clear();
    page.put_between(b"    cart ", n, b" is empty\n");
}

// A copy in which no cart is held.
pub fn none(page: &mut Page)
    ensures { page.new ≡ no_cart_text }
{
    page.clear();
    page.put(b"    no cart is held\n");
}
