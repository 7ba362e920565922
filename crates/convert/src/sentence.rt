// What came of an input, in a line.
ghost use Rattle.std.specs.Prelude.{◌≡◌, ◌+◌, ◌≤◌, ◌++◌, Err, length};
ghost use Rattle.carts.specs.Cart.{cart_size};
ghost use Rattle.words.specs.Page.{page_size};
ghost use Rattle.convert.specs.Outcome.{outcome_of};
ghost use Rattle.convert.specs.Sentences.{made_text, length_text, wrong_length_text, form_text, long_title_text, converted_text, refused_text, sentence_of};

use crate::outcome::{Fault, Made};
use carts::cart;
use words::page::Page;

// What was converted, with so many held carts, and to what.
#[tactic(auto, unfolding(crate::specs::Sentences::made_text))]
fn made(page: &mut Page, from: &[u8], held: u32, to: &[u8])
    requires { (length from.now ≤ 128) × (length to.now ≤ 128) }
    ensures { page.new ≡ made_text from.now held to.now }
{
    page.clear();
    page.put_counted(from, held, b"cart");
    page.put(to);
}

// A length; 65,536 bytes are the most that are read.
#[tactic(auto, unfolding(crate::specs::Sentences::length_text))]
fn put_length(page: &mut Page, n: u64)
    requires { length page.old + 32 ≤ page_size }
    ensures text { page.new ≡ page.old ++ length_text n }
    ensures fits { length page.new ≤ length page.old + 32 }
{
    page.put_long(n);
    if n == 65536 {
        page.put(b" or more");
    }
}

// Refusal 22 of an input of another length, which stands between words.
#[tactic(auto, unfolding(crate::specs::Sentences::wrong_length_text))]
fn wrong_length(page: &mut Page, words: &[u8], n: u64, more: &[u8])
    requires { (length words.now ≤ 128) × (length more.now ≤ 128) }
    ensures { page.new ≡ wrong_length_text words.now n more.now }
{
    page.clear();
    page.put(words);
    put_length(page, n);
    page.put(more);
}

// Refusal 22 of a cart out of form: whose it is, and how long a title may be there.
#[tactic(auto, unfolding(crate::specs::Sentences::form_text))]
fn out_of_form(page: &mut Page, c: u32, whose: &[u8], longest: u32)
    requires { length whose.now ≤ 128 }
    ensures { page.new ≡ form_text c whose.now longest }
{
    page.clear();
    page.put_between(b"refused (22): cart ", c, whose);
    page.put_between(
        b" is out of form: a held cart has its place as its number, a title of 1 to ",
        longest,
        b" letters and then zeros, audio and length of at least 1, and zeros in bytes 12 to 15; an empty one is all zero\n",
    );
}

// Refusal 23 of cart c, whose title has so many letters.
#[tactic(auto, unfolding(crate::specs::Sentences::long_title_text))]
fn long_title(page: &mut Page, cart: &[u8], c: u32, letters: u32)
    requires { length cart.now ≡ cart_size }
    ensures { page.new ≡ long_title_text cart.now c letters }
{
    page.clear();
    page.put_numbered(b"refused (23): the title of cart ", c);
    page.put_between(
        b" has ",
        letters,
        b" letters, and an old file has room for 32: ",
    );
    page.put_title(cart, letters);
    page.put(b"\n");
}

// What the input was converted to.
fn converted(page: &mut Page, to: Made)
    ensures { page.new ≡ converted_text to }
{
    match to {
        Made::Copy(held) => made(
            page,
            b"an old file with ",
            held,
            b", converted to a copy of 10240 bytes\n",
        ),
        Made::OldFile(held) => made(
            page,
            b"a copy with ",
            held,
            b", converted to an old file of 6150 bytes\n",
        ),
    }
}

// Why the input is refused.
fn refused(page: &mut Page, input: &[u8], fault: Fault)
    requires { Err fault ≡ outcome_of input.now }
    ensures { page.new ≡ refused_text input.now fault }
{
    match fault {
        Fault::OtherLength(n) => wrong_length(
            page,
            b"refused (22): it begins with CART32, as an old file does, but its length is ",
            n,
            b" and not 6150\n",
        ),
        Fault::NoWall(n) => wrong_length(
            page,
            b"refused (22): it is no wall: it does not begin with CART32, as an old file does, and its length is ",
            n,
            b" and not 10240, as a copy's is\n",
        ),
        Fault::OldCart(c) => out_of_form(page, c, b" of the old file", 32),
        Fault::Cart(c) => out_of_form(page, c, b" of the copy", 64),
        Fault::LongTitle { cart, letters } => long_title(
            page,
            cart::cart_at(input, cart),
            cart,
            letters,
        ),
    }
}

// What came of the input.
pub fn sentence(page: &mut Page, input: &[u8], outcome: Result<Made, Fault>)
    requires { outcome ≡ outcome_of input.now }
    ensures { page.new ≡ sentence_of input.now outcome }
{
    match outcome {
        Ok(to) => converted(page, to),
        Err(fault) => refused(page, input, fault),
    }
}
