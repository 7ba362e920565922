// The first cart of an input that is at fault.
ghost use Rattle.std.specs.Prelude.{◌≡◌, ◌*◌, ◌≤◌, length};
ghost use Rattle.carts.specs.Cart.{cart_size, cart_count};
ghost use Rattle.convert.specs.Fault.{size_by, keeps, fault_by};

use carts::cart;
use carts::cart::Cart;
use old_edition::old_cart;

// What is asked of a cart: an old cart's form, the form of one of ours, a title that an old cart has room for.
#[derive(Clone, Copy)]
pub enum Rule {
    OldForm,
    Form,
    ShortTitle,
}

impl Rule {
    // How many bytes a cart has of which this is asked.
    fn size(self) -> usize
        ensures { (result ≡ size_by self) × (1 ≤ result) × (result ≤ cart_size) }
    {
        match self {
            Rule::OldForm => old_cart::SIZE,
            Rule::Form | Rule::ShortTitle => Cart::SIZE,
        }
    }

    // Cart c is as asked.
    fn is_kept(self, cart: &[u8], c: u32) -> bool
        requires { length cart.now ≡ size_by self }
        ensures { result ≡ keeps self c cart.now }
    {
        match self {
            Rule::OldForm => old_cart::is_old_cart(cart, c),
            Rule::Form => cart::is_cart(cart, c),
            Rule::ShortTitle => !old_cart::is_long_title(cart),
        }
    }
}

// The first of 128 carts that is not as asked, counted from 1.
pub fn first_fault(carts: &[u8], rule: Rule) -> Option<u32>
    requires { length carts.now ≡ size_by rule * cart_count }
    ensures { result ≡ fault_by rule carts.now }
{
    for (i, cart) in carts.chunks_exact(rule.size()).enumerate() {
        let c = i as u32 + 1;
        if !rule.is_kept(cart, c) {
            return Some(c);
        }
    }
    None
}
