// Operations: their form, and what they do to a cart and to the copy that holds it.
ghost use Rattle.std.specs.Prelude.{◌≡◌, true, false, cond, not, ◌≤◌, ◌/◌, length, eqb};
ghost use Rattle.carts.specs.Bytes.{zeros, byte, every, any, parts};
ghost use Rattle.carts.specs.Cart.{cart_size, cart_count, title_size, copy_size, cart_number, cart_at, held};
ghost use Rattle.carts.specs.Operation.{is_new, is_withdraw, operation_fields, operation_form, spaced, operations_of, made, retitled, recut, acted_on, meets, act, meets_all, act_all};

use crate::cart::Cart;
use crate::kind::Kind;
use crate::{bytes, cart};

// The operation has the fields of its kind, as it is stored: bytes 12 to 15 are free.
pub fn has_fields(op: &[u8]) -> bool
    requires { length op.now ≡ cart_size }
    ensures { result ≡ operation_fields op.now }
{
    let kind = op[0];
    bytes::is_within(Kind::New as u32, Kind::Withdraw as u32, kind as u32)
        & bytes::is_within(1, Cart::COUNT, bytes::u16_at(op, Cart::NUMBER_AT))
        & cart::is_title_as_asked(op, Kind::has_title(kind))
        & cart::is_audio_as_asked(op, Kind::has_audio(kind))
}

// The operation is of its form, as it is handed in.
pub fn is_operation(op: &[u8]) -> bool
    requires { length op.now ≡ cart_size }
    ensures { result ≡ operation_form op.now }
{
    has_fields(op) & bytes::all_zero(&op[Cart::LINKS_AT..Cart::TITLE_AT])
}

// Each operation is of its form, as it is handed in.
pub fn all_operations(ops: &[u8]) -> bool
    ensures { result ≡ every operation_form (operations_of ops.now) }
{
    let mut ok = true;
    for op in ops.chunks_exact(Cart::SIZE) {
        ok &= is_operation(op);
    }
    ok
}

// The operation is a new or a retitle whose title begins or ends with a space.
#[tactic(auto, using(crate::proofs::OperationLaws::fields_title), unfolding(crate::specs::Operation::spaced))]
pub fn is_spaced(op: &[u8]) -> bool
    requires { (length op.now ≡ cart_size) × (operation_fields op.now ≡ true) }
    ensures { result ≡ spaced op.now }
{
    let last = Cart::TITLE_AT + op[1] as usize - 1;
    Kind::has_title(op[0]) & ((op[Cart::TITLE_AT] == Cart::SPACE) | (op[last] == Cart::SPACE))
}

// Some operation is a new or a retitle whose title begins or ends with a space.
pub fn any_spaced(ops: &[u8]) -> bool
    requires { every operation_fields (operations_of ops.now) ≡ true }
    ensures { result ≡ any spaced (operations_of ops.now) }
{
    let mut found = false;
    for op in ops.chunks_exact(Cart::SIZE) {
        found |= is_spaced(op);
    }
    found
}

// The cart's state is the right one: new asks for an empty cart, the other kinds for a held one.
fn is_right_state(op: &[u8], held: bool) -> bool
    requires { length op.now ≡ cart_size }
    ensures { result ≡ cond (is_new (byte op.now 0)) (not held) held }
{
    match Kind::of(op[0]) {
        Some(Kind::New) => !held,
        _ => held,
    }
}

// The operation meets its cart in the right state.
#[tactic(auto, unfolding(crate::specs::Operation::meets, crate::specs::Operation::meets_cart))]
pub fn meets(copy: &[u8], op: &[u8]) -> bool
    requires lengths { (length copy.now ≡ copy_size) × (length op.now ≡ cart_size) }
    requires number { (1 ≤ cart_number op.now) × (cart_number op.now ≤ cart_count) }
    ensures { result ≡ meets copy.now op.now }
{
    let held = cart::is_held(cart::cart_at(copy, bytes::u16_at(op, Cart::NUMBER_AT)));
    is_right_state(op, held)
}

// A title's 64 bytes become those of another: by way of an array, which overlaps neither, so that the compiler moves them in blocks.
fn copy_title(title: &mut [u8], from: &[u8])
    requires { (length title.old ≡ title_size) × (length from.now ≡ title_size) }
    ensures { title.new ≡ from.now }
{
    let mut own = [0u8; Cart::TITLE_SIZE];
    own.copy_from_slice(from);
    title.copy_from_slice(&own);
}

// New: the cart is held, with the operation's fields and title.
#[tactic(auto, unfolding(crate::specs::Operation::made))]
fn make(cart: &mut [u8], op: &[u8])
    requires { (length cart.old ≡ cart_size) × (length op.now ≡ cart_size) }
    ensures { cart.new ≡ made op.now cart.old }
{
    cart[0] = 1;
    cart[1..Cart::LINKS_AT].copy_from_slice(&op[1..Cart::LINKS_AT]);
    copy_title(
        &mut cart[Cart::TITLE_AT..Cart::SIZE],
        &op[Cart::TITLE_AT..Cart::SIZE],
    );
}

// Retitle: the cart has the operation's title.
#[tactic(auto, unfolding(crate::specs::Operation::retitled))]
fn retitle(cart: &mut [u8], op: &[u8])
    requires { (length cart.old ≡ cart_size) × (length op.now ≡ cart_size) }
    ensures { cart.new ≡ retitled op.now cart.old }
{
    cart[1] = op[1];
    copy_title(
        &mut cart[Cart::TITLE_AT..Cart::SIZE],
        &op[Cart::TITLE_AT..Cart::SIZE],
    );
}

// Re-cut: the cart has the operation's audio and length.
#[tactic(auto, unfolding(crate::specs::Operation::recut))]
fn re_cut(cart: &mut [u8], op: &[u8])
    requires { (length cart.old ≡ cart_size) × (length op.now ≡ cart_size) }
    ensures { cart.new ≡ recut op.now cart.old }
{
    cart[Cart::AUDIO_AT..Cart::LINKS_AT].copy_from_slice(&op[Cart::AUDIO_AT..Cart::LINKS_AT]);
}

// Withdraw: the cart is empty.
#[tactic(auto, unfolding(crate::specs::Bytes::zeros))]
fn withdraw(cart: &mut [u8])
    requires { length cart.old ≡ cart_size }
    ensures { cart.new ≡ zeros cart_size }
{
    cart.fill(0);
}

// The operation acts on its cart, which it leaves as it is where it meets it in the wrong state.
#[tactic(auto, unfolding(crate::specs::Operation::acted_on, crate::specs::Operation::meets_cart, crate::specs::Operation::effect, crate::specs::Cart::held))]
fn act_on(cart: &mut [u8], op: &[u8])
    requires { (length cart.old ≡ cart_size) × (length op.now ≡ cart_size) }
    ensures { cart.new ≡ acted_on op.now cart.old }
{
    if !is_right_state(op, cart::is_held(cart)) {
        return;
    }
    match Kind::of(op[0]) {
        Some(Kind::New) => make(cart, op),
        Some(Kind::Retitle) => retitle(cart, op),
        Some(Kind::Recut) => re_cut(cart, op),
        Some(Kind::Withdraw) => withdraw(cart),
        None => {}
    }
}

// The operation acts on a copy: its cart is lent on as a part.
#[tactic(auto, unfolding(crate::specs::Operation::act, crate::specs::Cart::cart_at))]
pub fn apply(copy: &mut [u8], op: &[u8])
    requires lengths { (length copy.old ≡ copy_size) × (length op.now ≡ cart_size) }
    requires number { (1 ≤ cart_number op.now) × (cart_number op.now ≤ cart_count) }
    ensures { copy.new ≡ act copy.old op.now }
{
    let c = bytes::u16_at(op, Cart::NUMBER_AT);
    let start = Cart::SIZE * (c as usize - 1);
    let end = start + Cart::SIZE;
    act_on(&mut copy[start..end], op);
}

// The operations act on a copy one after the other; the answer is whether each met its cart in the right state.
pub fn try_all(copy: &mut [u8], ops: &[u8]) -> bool
    requires { (length copy.old ≡ copy_size) × (every operation_fields (operations_of ops.now) ≡ true) }
    ensures { (result ≡ meets_all copy.old (operations_of ops.now)) × (copy.new ≡ act_all copy.old (operations_of ops.now)) }
{
    let mut ok = true;
    for operation in ops.chunks_exact(Cart::SIZE) {
        ok &= meets(copy, operation);
        apply(copy, operation);
    }
    ok
}

// The operations act on a copy one after the other.
pub fn apply_all(copy: &mut [u8], ops: &[u8])
    requires { (length copy.old ≡ copy_size) × (every operation_fields (operations_of ops.now) ≡ true) }
    ensures { copy.new ≡ act_all copy.old (operations_of ops.now) }
{
    try_all(copy, ops);
}

// Cart c is held after the operation; `held` says whether it was before.
fn is_held_then(held: bool, op: &[u8], c: u32) -> bool
    requires { length op.now ≡ cart_size }
    ensures { result ≡ cond (eqb (cart_number op.now) c) (cond (is_new (byte op.now 0)) true (cond (is_withdraw (byte op.now 0)) false held)) held }
{
    if bytes::u16_at(op, Cart::NUMBER_AT) != c {
        return held;
    }
    match Kind::of(op[0]) {
        Some(Kind::New) => true,
        Some(Kind::Withdraw) => false,
        _ => held,
    }
}

// Cart c is held after the first n operations; the copy itself is only read.
fn is_held_after(copy: &[u8], ops: &[u8], n: usize, c: u32) -> bool
    requires lengths { (length copy.now ≡ copy_size) × (every operation_fields (operations_of ops.now) ≡ true) }
    requires places { (n ≤ length ops.now / cart_size) × ((1 ≤ c) × (c ≤ cart_count)) }
    ensures { result ≡ held (cart_at (act_all copy.now (parts cart_size n ops.now)) c) }
{
    let mut state = cart::is_held(cart::cart_at(copy, c));
    for op in ops.chunks_exact(Cart::SIZE).take(n) {
        state = is_held_then(state, op, c);
    }
    state
}

// Each operation meets its cart in the right state, after the ones before it.
pub fn meets_all(copy: &[u8], ops: &[u8]) -> bool
    requires { (length copy.now ≡ copy_size) × (every operation_fields (operations_of ops.now) ≡ true) }
    ensures { result ≡ meets_all copy.now (operations_of ops.now) }
{
    let mut ok = true;
    for (i, op) in ops.chunks_exact(Cart::SIZE).enumerate() {
        let held = is_held_after(copy, ops, i, bytes::u16_at(op, Cart::NUMBER_AT));
        ok &= is_right_state(op, held);
    }
    ok
}
