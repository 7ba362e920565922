// How many carts of an input are held.
ghost use Rattle.std.specs.Prelude.{◌≡◌, ◌*◌, ◌≤◌, length};
ghost use Rattle.carts.specs.Cart.{cart_size, cart_count};
ghost use Rattle.convert.specs.Held.{held_in};

// How many of 128 carts of this size are held: byte 0 is 1, in an old cart too.
pub fn count_held(carts: &[u8], size: usize) -> u32
    requires { (length carts.now ≡ size * cart_count) × (1 ≤ size) × (size ≤ cart_size) }
    ensures { result ≡ held_in size cart_count carts.now }
{
    let mut held = 0;
    for cart in carts.chunks_exact(size) {
        if cart[0] == 1 {
            held += 1;
        }
    }
    held
}
