// Which operation of a refused commit or preview is at fault.
ghost use Rattle.std.specs.Prelude.{◌≡◌, length};
ghost use Rattle.carts.specs.Cart.{copy_size};
ghost use Rattle.carts.specs.Refusal.{refusal_number};
ghost use Rattle.one_copy.specs.Fault.{allowed, first_fault};

use carts::cart::Cart;
use carts::operation;
use carts::refusal::Refusal;
use lines::text;

// The operations are of their form; for refusal 16 also none has a title that begins or ends with a space, for refusal 8 also
// each meets its cart on the copy.
#[tactic(auto, using(carts::proofs::OperationLaws::forms_fields, carts::proofs::RefusalLaws::other_than_8, crate::proofs::FaultLaws::other_than_16), unfolding(crate::specs::Fault::allowed))]
fn is_allowed(copy: &[u8], ops: &[u8], refusal: Refusal) -> bool
    requires { length copy.now ≡ copy_size }
    ensures { result ≡ allowed copy.now (refusal_number refusal) ops.now }
{
    if !operation::all_operations(ops) {
        return false;
    }
    match refusal {
        Refusal::SpacedTitle => !operation::any_spaced(ops),
        Refusal::WrongState => operation::meets_all(copy, ops),
        _ => true,
    }
}

// The first of at most eight operations that is at fault, by the refusal, counted from 1: out of form, with a space at an end of
// its title, or on its cart in the wrong state.
#[tactic(auto, using(crate::proofs::FaultLaws::none_before, crate::proofs::FaultLaws::none_yet))]
pub fn first_fault(copy: &[u8], ops: &[u8], refusal: Refusal) -> Option<u32>
    requires { length copy.now ≡ copy_size }
    ensures { result ≡ first_fault copy.now (refusal_number refusal) ops.now 8 }
{
    for i in 1..9 {
        let prefix = text::part_of(ops, 0, Cart::SIZE * (i as usize));
        if !is_allowed(copy, prefix, refusal) {
            return Some(i);
        }
    }
    None
}
