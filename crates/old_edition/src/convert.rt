// The converter: an old file to one copy of ours, and back. Each way decides, then acts.
ghost use Rattle.std.specs.Prelude.{◌≡◌};
ghost use Rattle.carts.specs.Refusal.{stop_number};
ghost use Rattle.carts.specs.Rows.{stopped};
ghost use Rattle.old_edition.specs.Convert.{convert_answer, from_old_rows, to_old_rows, after, from_old, to_old};

use crate::file;
use carts::cart;
use carts::cart::Cart;
use carts::refusal::Refusal;

// The row that stops the way from old to ours, if any.
fn decide_from_old(file: &[u8], room: usize) -> Result<(), Refusal>
    ensures { stop_number result ≡ stopped (from_old_rows file.now room) }
{
    if !file::is_file(file) {
        return Err(Refusal::FileForm);
    }
    if room != Cart::COPY_SIZE {
        return Err(Refusal::FileForm);
    }
    Ok(())
}

// The row that stops the way from ours to old, if any.
fn decide_to_old(copy: &[u8], room: usize) -> Result<(), Refusal>
    ensures { stop_number result ≡ stopped (to_old_rows copy.now room) }
{
    if copy.len() != Cart::COPY_SIZE {
        return Err(Refusal::FileForm);
    }
    if !cart::is_copy(copy) {
        return Err(Refusal::FileForm);
    }
    if room != file::SIZE {
        return Err(Refusal::FileForm);
    }
    if file::has_long_title(copy) {
        return Err(Refusal::LongTitle);
    }
    Ok(())
}

// Document 02's converter (S-10), from an old file to one copy of ours: the bytes written, or why it is refused.
pub fn from_old(file: &[u8], copy: &mut [u8]) -> Result<u32, Refusal>
    ensures { after (convert_answer result) copy.new ≡ from_old file.now copy.old }
{
    decide_from_old(file, copy.len())?;
    file::put_copy(copy, &file[file::CARTS_AT..]);
    Ok(Cart::COPY_SIZE as u32)
}

// And back: a title longer than 32 letters is refused, never cut.
pub fn to_old(copy: &[u8], file: &mut [u8]) -> Result<u32, Refusal>
    ensures { after (convert_answer result) file.new ≡ to_old copy.now file.old }
{
    decide_to_old(copy, file.len())?;
    file::put_file(file, copy);
    Ok(file::SIZE as u32)
}
