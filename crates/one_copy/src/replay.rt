// The single library of the one-copy order: a lent copy of 10,240 bytes and a count. It is fed operations and requests, and its answers are compared.
ghost use Rattle.std.specs.Prelude.{◌≡◌, cond, ◌+◌, ◌*◌, ◌<◌, ◌≤◌, length};
ghost use Rattle.replication.specs.Memory.{session_size};
ghost use Rattle.carts.specs.Cart.{copy_size, title_size};
ghost use Rattle.carts.specs.Operation.{operations_of, act_all};
ghost use Rattle.one_copy.specs.Replay.{plays, place_agrees, is_held_at, numbers_agree, title_agrees, read_agrees};

use carts::cart::Cart;
use carts::titles::Found;
use carts::{bytes, cart, operation, titles};
use lines::text;
use replication::session::Session;

// The library plays a commit's operations: the answer is its number, or nothing where they are refused.
#[tactic(auto, using(carts::proofs::OperationLaws::forms_fields), unfolding(crate::specs::Replay::plays))]
pub fn play_commit(copy: &mut [u8], count: u32, ops: &[u8]) -> Option<u32>
    requires { (length copy.old ≡ copy_size) × (count < 65536) }
    ensures { (result ≡ cond (plays copy.old ops.now) (Some (count + 1)) None)
        × (copy.new ≡ cond (plays copy.old ops.now) (act_all copy.old (operations_of ops.now)) copy.old) }
{
    if !operation::all_operations(ops) {
        return None;
    }
    if !operation::meets_all(copy, ops) {
        return None;
    }
    operation::apply_all(copy, ops);
    Some(count + 1)
}

// Cart c of the library is what was shown in its place.
#[tactic(auto, using(carts::proofs::ScanLaws::within_true), unfolding(crate::specs::Replay::place_agrees))]
fn place_agrees(copy: &[u8], c: u32, place: &[u8]) -> bool
    requires { length copy.now ≡ copy_size }
    ensures { result ≡ place_agrees copy.now c place.now }
{
    bytes::is_within(1, Cart::COUNT, c) && text::same(cart::cart_at(copy, c), place)
}

// Cart c of the library is held.
#[tactic(auto, using(carts::proofs::ScanLaws::within_true), unfolding(crate::specs::Replay::is_held_at))]
fn is_held_at(copy: &[u8], c: u32) -> bool
    requires { length copy.now ≡ copy_size }
    ensures { result ≡ is_held_at copy.now c }
{
    bytes::is_within(1, Cart::COUNT, c) && cart::is_held(cart::cart_at(copy, c))
}

// The library answers a read by numbers with this found and these carts.
pub fn numbers_agree(copy: &[u8], request: &[u8], found: u32, shown: &[u8]) -> bool
    requires { (length copy.now ≡ copy_size) × (length request.now ≡ session_size) }
    ensures { result ≡ numbers_agree copy.now request.now found shown.now }
{
    let n = bytes::byte_at(request, 1) as usize;
    if Session::NUMBERS_MOST < n {
        return false;
    }
    let mut ok = true;
    let mut held = 0;
    for i in 0..n {
        let c = bytes::u16_at(request, Session::PAYLOAD_AT + 2 * i);
        ok &= place_agrees(copy, c, text::part_of(shown, Cart::SIZE * i, Cart::SIZE));
        held += u32::from(is_held_at(copy, c));
    }
    ok && held == found
}

// The library answers a read by title with this found and this cart.
pub fn title_agrees(copy: &[u8], title: &[u8], found: u32, shown: &[u8]) -> bool
    requires { (length copy.now ≡ copy_size) × (length title.now ≤ title_size) }
    ensures { result ≡ title_agrees copy.now title.now found shown.now }
{
    let searched = titles::search(copy, title);
    let result = searched.found;
    let count = titles::found_count(result);
    let place = text::part_of(shown, 0, Cart::SIZE);
    let Found::One(c) = result else {
        return (count == found) & text::same(&[0; Cart::SIZE], place);
    };
    (count == found) & text::same(cart::cart_at(copy, c), place)
}

// The library, at a count, answers a read with this state, this found and these carts.
#[tactic(auto, unfolding(crate::specs::Replay::read_agrees))]
pub fn read_agrees(
    copy: &[u8],
    count: u32,
    request: &[u8],
    state: u32,
    found: u32,
    shown: &[u8],
) -> bool
    requires { length copy.now ≡ copy_size }
    ensures { result ≡ read_agrees copy.now count request.now state found shown.now }
{
    if state != count {
        return false;
    }
    if request.len() != Session::SIZE {
        return false;
    }
    match request[0] {
        1 => numbers_agree(copy, request, found, shown),
        2 => {
            let n = bytes::byte_at(request, 1) as usize;
            if Cart::TITLE_SIZE < n {
                return false;
            }
            let end = Session::PAYLOAD_AT + n;
            title_agrees(copy, &request[Session::PAYLOAD_AT..end], found, shown)
        }
        _ => false,
    }
}
