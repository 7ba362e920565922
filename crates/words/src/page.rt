// A page: text, with words and numbers put at its end.
ghost use Rattle.std.specs.Prelude.{◌≡◌, List, [], ◌++◌, ℕ, ◌+◌, ◌≤◌, length, take};
ghost use Rattle.carts.specs.Cart.{cart_size, title_at};
ghost use Rattle.lines.specs.Text.{part_in};
ghost use Rattle.words.specs.Page.{page_size, decimal, count_of, quoted};

use carts::cart::Cart;
use lines::text;
use std::marker::Model;

// The size of a page: every line fits.
pub const SIZE: usize = 4096;

// Text of at most so many bytes, in fixed memory.
#[derive(Drop)]
pub struct Page {
    bytes: [u8; SIZE],
    used: usize,
}

// A page is the text on it.
impl Model for Page {
    ghost Value = { List ℕ };

    ghost view = { λ p. take p.used p.bytes };

    ghost invariant = { λ p. p.used ≤ page_size };
}

impl Page {
    // A page with no text.
    pub fn new() -> Page
        ensures { result ≡ [] }
    {
        Page {
            bytes: [0; SIZE],
            used: 0,
        }
    }

    // The text on the page.
    pub fn text(&self) -> &[u8]
        ensures text { result.now ≡ self.now }
        ensures fits { length self.now ≤ page_size }
    {
        &self.bytes[..self.used]
    }

    // The page has no text any more.
    pub fn clear(&mut self)
        ensures { self.new ≡ [] }
    {
        self.used = 0;
    }

    // Words.
    pub fn put(&mut self, words: &[u8])
        requires { length self.old + length words.now ≤ page_size }
        ensures text { self.new ≡ self.old ++ words.now }
        ensures fits { length self.new ≡ length self.old + length words.now }
    {
        let end = self.used + words.len();
        self.bytes[self.used..end].copy_from_slice(words);
        self.used = end;
    }

    // A number in base ten, where there is room for its digits.
    fn put_decimal(&mut self, n: u64)
        requires { length self.old + length (decimal n) ≤ page_size }
        ensures { self.new ≡ self.old ++ decimal n }
    {
        let mut digits = [0; 20];
        let count = io::decimal(n, &mut digits);
        self.put(&digits[..count]);
    }

    // A number in base ten, of at most 20 digits.
    #[tactic(auto, using(crate::proofs::PageLaws::decimal_long))]
    pub fn put_long(&mut self, n: u64)
        requires { length self.old + 20 ≤ page_size }
        ensures text { self.new ≡ self.old ++ decimal n }
        ensures fits { length self.new ≤ length self.old + 20 }
    {
        self.put_decimal(n);
    }

    // A number in base ten, of at most ten digits.
    #[tactic(auto, using(crate::proofs::PageLaws::decimal_few))]
    pub fn put_number(&mut self, n: u32)
        requires { length self.old + 10 ≤ page_size }
        ensures text { self.new ≡ self.old ++ decimal n }
        ensures fits { length self.new ≤ length self.old + 10 }
    {
        self.put_decimal(n as u64);
    }

    // Words, and a number after them.
    pub fn put_numbered(&mut self, words: &[u8], n: u32)
        requires { length self.old + length words.now + 10 ≤ page_size }
        ensures text { self.new ≡ self.old ++ (words.now ++ decimal n) }
        ensures fits { length self.new ≤ length self.old + length words.now + 10 }
    {
        self.put(words);
        self.put_number(n);
    }

    // Words, a number and words after it.
    pub fn put_between(&mut self, words: &[u8], n: u32, more: &[u8])
        requires { length self.old + length words.now + length more.now + 10 ≤ page_size }
        ensures text { self.new ≡ self.old ++ (words.now ++ decimal n) ++ more.now }
        ensures fits { length self.new ≤ length self.old + length words.now + length more.now + 10 }
    {
        self.put_numbered(words, n);
        self.put(more);
    }

    // Two numbers, each after words.
    pub fn put_pair(&mut self, words: &[u8], n: u32, more: &[u8], m: u32)
        requires { length self.old + length words.now + length more.now + 20 ≤ page_size }
        ensures text { self.new ≡ self.old ++ (words.now ++ decimal n) ++ (more.now ++ decimal m) }
        ensures fits { length self.new ≤ length self.old + length words.now + length more.now + 20 }
    {
        self.put_numbered(words, n);
        self.put_numbered(more, m);
    }

    // A count of things, with an s where it is not 1.
    #[tactic(auto, unfolding(crate::specs::Page::count_of))]
    fn put_count(&mut self, n: u32, thing: &[u8])
        requires { length self.old + length thing.now + 12 ≤ page_size }
        ensures text { self.new ≡ self.old ++ count_of n thing.now }
        ensures fits { length self.new ≤ length self.old + length thing.now + 12 }
    {
        self.put_number(n);
        self.put(b" ");
        self.put(thing);
        if n != 1 {
            self.put(b"s");
        }
    }

    // Words, and a count of things after them.
    pub fn put_counted(&mut self, words: &[u8], n: u32, thing: &[u8])
        requires { length self.old + length words.now + length thing.now + 12 ≤ page_size }
        ensures text { self.new ≡ self.old ++ words.now ++ count_of n thing.now }
        ensures fits { length self.new ≤ length self.old + length words.now + length thing.now + 12 }
    {
        self.put(words);
        self.put_count(n, thing);
    }

    // A title's letters between quotes.
    #[tactic(auto, unfolding(crate::specs::Page::quoted))]
    pub fn put_quoted(&mut self, letters: &[u8])
        requires { length self.old + length letters.now + 2 ≤ page_size }
        ensures text { self.new ≡ self.old ++ quoted letters.now }
        ensures fits { length self.new ≡ length self.old + length letters.now + 2 }
    {
        self.put(b"\"");
        self.put(letters);
        self.put(b"\"");
    }

    // A title of n letters, in a cart's or a request's 80 bytes.
    pub fn put_title(&mut self, s: &[u8], n: u32)
        requires { (length self.old + 82 ≤ page_size) × (length s.now ≡ cart_size) }
        ensures text { self.new ≡ self.old ++ quoted (part_in s.now title_at n) }
        ensures fits { length self.new ≤ length self.old + 82 }
    {
        self.put_quoted(text::part_of(s, Cart::TITLE_AT, n as usize));
    }
}
