// Bytes of a lent slice: numbers, scans and stores. A scan joins its tests by `|` or `&` and has no early exit, so that it vectorises.
ghost use Rattle.std.specs.Prelude.{◌≡◌, ◌+◌, ◌<◌, ◌≤◌, length, eqb};
ghost use Rattle.carts.specs.Bytes.{byte, u16, u32, u16_bytes, over, within, every, all_zero, pairwise, zeros};
ghost use Rattle.carts.specs.Cart.{printable};

// The byte at an index, as a number.
pub fn byte_at(s: &[u8], at: usize) -> u32
    requires { at < length s.now }
    ensures { (result ≡ byte s.now at) × (result < 256) }
{
    s[at] as u32
}

// The u16 at an index.
#[tactic(auto, unfolding(crate::specs::Bytes::u16))]
pub fn u16_at(s: &[u8], at: usize) -> u32
    requires { at + 2 ≤ length s.now }
    ensures { (result ≡ u16 s.now at) × (result < 65536) }
{
    byte_at(s, at) + 256 * byte_at(s, at + 1)
}

// The u32 at an index.
#[tactic(auto, unfolding(crate::specs::Bytes::u32))]
pub fn u32_at(s: &[u8], at: usize) -> u32
    requires { at + 4 ≤ length s.now }
    ensures { result ≡ u32 s.now at }
{
    byte_at(s, at)
        + 256 * byte_at(s, at + 1)
        + 65536 * byte_at(s, at + 2)
        + 16777216 * byte_at(s, at + 3)
}

// The u16 at an index becomes v.
#[tactic(auto, using(crate::proofs::PartLaws::over_pair), unfolding(crate::specs::Bytes::u16_bytes))]
pub fn put_u16(s: &mut [u8], at: usize, v: u32)
    requires { (at + 2 ≤ length s.old) × (v < 65536) }
    ensures { s.new ≡ over s.old at 2 (u16_bytes v) }
{
    s[at] = (v % 256) as u8;
    s[at + 1] = (v / 256) as u8;
}

// low ≤ n ≤ high.
#[tactic(auto, unfolding(crate::specs::Bytes::within))]
pub fn is_within(low: u32, high: u32, n: u32) -> bool
    ensures { result ≡ within low high n }
{
    (low <= n) & (n <= high)
}

// A byte that a title may have.
#[tactic(auto, unfolding(crate::specs::Cart::printable, crate::specs::Bytes::within))]
pub fn is_printable(b: u8) -> bool
    ensures { result ≡ printable b }
{
    (32 <= b) & (b <= 126)
}

// Every byte is zero.
pub fn all_zero(s: &[u8]) -> bool
    ensures { result ≡ all_zero s.now }
{
    let mut joined: u8 = 0;
    for b in s {
        joined |= *b;
    }
    joined == 0
}

// Every byte is printable.
pub fn all_printable(s: &[u8]) -> bool
    ensures { result ≡ every printable s.now }
{
    let mut ok = true;
    for b in s {
        ok &= is_printable(*b);
    }
    ok
}

// Two slices of one length have the same bytes; `==` would stop at the first that differs.
pub fn are_equal(a: &[u8], b: &[u8]) -> bool
    requires { length a.now ≡ length b.now }
    ensures { result ≡ pairwise eqb a.now b.now }
{
    let mut ok = true;
    for (x, y) in a.iter().zip(b) {
        ok &= *x == *y;
    }
    ok
}

// dst becomes src.
pub fn copy_all(dst: &mut [u8], src: &[u8])
    requires { length dst.old ≡ length src.now }
    ensures { dst.new ≡ src.now }
{
    dst.copy_from_slice(src);
}

// dst becomes zeros.
#[tactic(auto, unfolding(crate::specs::Bytes::zeros))]
pub fn clear(dst: &mut [u8])
    ensures { dst.new ≡ zeros (length dst.old) }
{
    dst.fill(0);
}
