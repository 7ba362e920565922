// Titles: what a search for a title answers, and the letters that S-5 counts.
ghost use Rattle.std.specs.Prelude.{◌≡◌, true, ◌≤◌, length, take, replicate};
ghost use Rattle.carts.specs.Bytes.{pairwise};
ghost use Rattle.carts.specs.Cart.{cart_size, copy_size, title_size};
ghost use Rattle.carts.specs.Title.{same_letter, titled, titled_in, search_answer, found_count, letters_compared, letters_of, letters_in};

use crate::cart::Cart;
use crate::{bytes, cart};

// One cart by its number, none, or several with their count.
#[derive(Clone, Copy)]
pub enum Found {
    One(u32),
    None,
    Several(u32),
}

// What a search answers, and the letters that S-5 counts.
#[derive(Clone, Copy)]
pub struct Searched {
    pub found: Found,
    pub letters: u32,
}

// Whether a title is the one asked, and its letters that S-5 counts: they are counted either way, so it is no Option.
#[derive(Clone, Copy)]
struct Compared {
    same: bool,
    letters: u32,
}

impl Compared {
    // Letters that are looked at together.
    const BLOCK: usize = 8;

    fn new(same: bool, letters: u32) -> Compared
        ensures { (result.same ≡ same) × (result.letters ≡ letters) }
    {
        Compared { same, letters }
    }
}

// Two letters count as equal.
#[tactic(auto, unfolding(crate::specs::Title::same_letter))]
pub fn same_letter(a: u8, b: u8) -> bool
    ensures { result ≡ same_letter a b }
{
    a == b
}

// Two parts of one length have the same letters.
fn are_same_letters(a: &[u8], b: &[u8]) -> bool
    requires { length a.now ≡ length b.now }
    ensures { result ≡ pairwise same_letter a.now b.now }
{
    let mut ok = true;
    for (x, y) in a.iter().zip(b) {
        ok &= same_letter(*x, *y);
    }
    ok
}

// How many letters at the front are passed over: blocks of eight, as long as all eight are the same. The index is the answer, so
// a `for` over the blocks of both would count beside it what it has passed, and be no plainer.
fn same_front(a: &[u8], b: &[u8]) -> usize
    requires { (length a.now ≡ length b.now) × (length a.now ≤ title_size) }
    ensures { (result ≤ length a.now) × (pairwise same_letter (take result a.now) (take result b.now) ≡ true) }
{
    let mut i = 0;
    while i + Compared::BLOCK <= a.len() {
        let end = i + Compared::BLOCK;
        if !are_same_letters(&a[i..end], &b[i..end]) {
            return i;
        }
        i = end;
    }
    i
}

// Two titles of one length: blocks that are the same are passed over, then letters in order, up to the first that differs.
fn compare_letters(a: &[u8], b: &[u8]) -> Compared
    requires { (length a.now ≡ length b.now) × (length a.now ≤ title_size) }
    ensures { (result.same ≡ pairwise same_letter a.now b.now) × (result.letters ≡ letters_compared a.now b.now) }
{
    for i in same_front(a, b)..a.len() {
        if !same_letter(a[i], b[i]) {
            return Compared::new(false, i as u32 + 1);
        }
    }
    Compared::new(true, a.len() as u32)
}

// The cart is held and has exactly the title. Letters are compared only where it is held and of the length asked.
fn compare_title(cart: &[u8], title: &[u8]) -> Compared
    requires { (length cart.now ≡ cart_size) × (length title.now ≤ title_size) }
    ensures { (result.same ≡ titled title.now cart.now) × (result.letters ≡ letters_of title.now cart.now) }
{
    let held = cart::is_held(cart);
    let fits = bytes::byte_at(cart, 1) as usize == title.len();
    let compares = held & fits;
    if !compares {
        return Compared::new(false, 0);
    }
    compare_letters(&cart[Cart::TITLE_AT..Cart::TITLE_AT + title.len()], title)
}

// The answer for so many carts, the last of them with this number.
#[tactic(auto, using(crate::proofs::TitleLaws::answer_none, crate::proofs::TitleLaws::answer_one, crate::proofs::TitleLaws::answer_several))]
fn found_of(count: u32, last: u32) -> Found
    ensures { result ≡ search_answer (replicate count last) }
{
    match count {
        0 => Found::None,
        1 => Found::One(last),
        _ => Found::Several(count),
    }
}

// The carts of a copy that have the title, and the letters counted in all of them.
pub fn search(copy: &[u8], title: &[u8]) -> Searched
    requires { (length copy.now ≡ copy_size) × (length title.now ≤ title_size) }
    ensures { (result.found ≡ search_answer (titled_in title.now copy.now)) × (result.letters ≡ letters_in title.now copy.now) }
{
    let mut count: u32 = 0;
    let mut last: u32 = 0;
    let mut letters: u32 = 0;
    for c in 1..=Cart::COUNT {
        let compared = compare_title(cart::cart_at(copy, c), title);
        letters += compared.letters;
        if compared.same {
            count += 1;
            last = c;
        }
    }
    let found = found_of(count, last);
    Searched { found, letters }
}

// How many carts a search has found.
pub fn found_count(found: Found) -> u32
    ensures { result ≡ found_count found }
{
    match found {
        Found::One(_) => 1,
        Found::None => 0,
        Found::Several(n) => n,
    }
}
