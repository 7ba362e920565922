// The copies of library memory: the head end's, the studios' and the sixth.
ghost use Rattle.std.specs.Prelude.{◌≡◌, ◌≤◌, length};
ghost use Rattle.carts.specs.Cart.{copy_size};
ghost use Rattle.replication.specs.Memory.{library_size, sixth, copy_at};

use carts::cart::Cart;

// Copy i: 0 is the head end's, 5 the sixth.
pub fn copy_at(library: &[u8], i: u32) -> &[u8]
    requires { (length library.now ≡ library_size) × (i ≤ sixth) }
    ensures { (result.now ≡ copy_at library.now i) × (length result.now ≡ copy_size) }
{
    let start = Cart::COPY_SIZE * (i as usize);
    &library[start..start + Cart::COPY_SIZE]
}
