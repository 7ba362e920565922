// What comes of an input: converted, or refused and why.
ghost use Rattle.std.specs.Prelude.{◌≡◌, length};
ghost use Rattle.carts.specs.Cart.{copy_size};
ghost use Rattle.old_edition.specs.OldFile.{file_size};
ghost use Rattle.convert.specs.Outcome.{marked, file_outcome, copy_outcome, Converted};

use crate::fault::{Rule, first_fault};
use crate::held;
use carts::cart::Cart;
use carts::{bytes, cart};
use old_edition::{file, old_cart};

// What an input was converted to, with so many held carts.
#[derive(Clone, Copy)]
pub enum Made {
    Copy(u32),
    OldFile(u32),
}

// Why an input is refused.
#[derive(Clone, Copy)]
pub enum Fault {
    // The mark of an old file with another length; no mark, and another length than a copy's.
    OtherLength(u64),
    NoWall(u64),
    // The first cart that is out of form, of an old file or of a copy.
    OldCart(u32),
    Cart(u32),
    // The first cart whose title is too long.
    LongTitle { cart: u32, letters: u32 },
}

// What comes of an old file.
fn judge_file(file: &[u8]) -> Result<Made, Fault>
    ensures { result ≡ file_outcome file.now }
{
    if file.len() != file::SIZE {
        return Err(Fault::OtherLength(file.len() as u64));
    }
    let carts = &file[file::CARTS_AT..];
    if let Some(c) = first_fault(carts, Rule::OldForm) {
        return Err(Fault::OldCart(c));
    }
    Ok(Made::Copy(held::count_held(carts, old_cart::SIZE)))
}

// What comes of a copy.
fn judge_copy(copy: &[u8]) -> Result<Made, Fault>
    ensures { result ≡ copy_outcome copy.now }
{
    if copy.len() != Cart::COPY_SIZE {
        return Err(Fault::NoWall(copy.len() as u64));
    }
    if let Some(c) = first_fault(copy, Rule::Form) {
        return Err(Fault::Cart(c));
    }
    if let Some(c) = first_fault(copy, Rule::ShortTitle) {
        let letters = bytes::byte_at(cart::cart_at(copy, c), 1);
        return Err(Fault::LongTitle { cart: c, letters });
    }
    Ok(Made::OldFile(held::count_held(copy, Cart::SIZE)))
}

// The input begins with the mark of an old file.
fn is_marked(input: &[u8]) -> bool
    ensures { result ≡ marked input.now }
{
    input.starts_with(&file::MARK)
}

// The input, converted to a copy where it has the mark, else to an old file. What came of it is what the converter answers, by the
// contract.
pub fn convert(input: &[u8], copy: &mut [u8], file: &mut [u8]) -> Result<Made, Fault>
    requires { (length copy.old ≡ copy_size) × (length file.old ≡ file_size) }
    ensures { Converted input.now copy.old copy.new file.old file.new result }
{
    if is_marked(input) {
        let _ = old_edition::convert::from_old(input, copy);
        return judge_file(input);
    }
    let _ = old_edition::convert::to_old(input, file);
    judge_copy(input)
}
