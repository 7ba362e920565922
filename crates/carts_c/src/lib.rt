// Scans of carts and the title search, exported for measuring and tests: include/carts.h says the same to C.
#![tactic(auto)]

ghost use Rattle.std.specs.Prelude.{◌≡◌, ◌&&◌, length, eqb};
ghost use Rattle.carts.specs.Bytes.{every, all_zero};
ghost use Rattle.carts.specs.Cart.{copy_size, copy_form};
ghost use Rattle.carts.specs.Operation.{operation_form, operations_of};
ghost use Rattle.carts_c.specs.Search.{search_words};

use crate::search::Words;
use carts::cart::Cart;
use carts::titles;

pub mod search;

// Every byte is zero.
#[unsafe(no_mangle)]
pub extern "C" fn carts_all_zero(s: &[u8]) -> bool
    ensures { result ≡ all_zero s.now }
{
    carts::bytes::all_zero(s)
}

// The bytes are those of a copy, each cart of its form.
#[unsafe(no_mangle)]
pub extern "C" fn carts_is_copy(copy: &[u8]) -> bool
    ensures { result ≡ (eqb (length copy.now) copy_size && copy_form copy.now) }
{
    if copy.len() != Cart::COPY_SIZE {
        return false;
    }
    carts::cart::is_copy(copy)
}

// Each operation is of its form.
#[unsafe(no_mangle)]
pub extern "C" fn carts_all_operations(ops: &[u8]) -> bool
    ensures { result ≡ every operation_form (operations_of ops.now) }
{
    carts::operation::all_operations(ops)
}

// S-5: the carts of a copy that have a title, and how many letters were compared.
#[unsafe(no_mangle)]
pub extern "C" fn carts_search(copy: &[u8], title: &[u8]) -> Words
    ensures { result ≡ search_words copy.now title.now }
{
    let fits = (copy.len() == Cart::COPY_SIZE)
        & ((1 <= title.len()) & (title.len() <= Cart::TITLE_SIZE));
    if !fits {
        return Words::new(Words::WRONG_LENGTH, 0, 0);
    }
    Words::from(titles::search(copy, title))
}
