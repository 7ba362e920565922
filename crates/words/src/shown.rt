// The bytes of a line as they are shown: what is not printable by its number in base 16.
ghost use Rattle.std.specs.Prelude.{◌≡◌, ◌++◌, ◌+◌, ◌≤◌, ◌<◌, length};
ghost use Rattle.words.specs.Page.{page_size, hex_digit, shown_byte, shown};

use crate::page::Page;
use carts::bytes;

// A digit in base 16, a capital letter from 10 on; the library's are small letters.
#[tactic(auto, unfolding(crate::specs::Page::hex_digit))]
fn hex_digit(n: u8) -> u8
    requires { n < 16 }
    ensures { result ≡ hex_digit n }
{
    if n < 10 { b'0' + n } else { b'A' - 10 + n }
}

// A byte as it is shown, in one letter or four.
#[tactic(auto, unfolding(crate::specs::Page::shown_byte))]
fn put_shown(page: &mut Page, b: u8)
    requires { length page.old + 4 ≤ page_size }
    ensures text { page.new ≡ page.old ++ shown_byte b }
    ensures fits { length page.new ≤ length page.old + 4 }
{
    if bytes::is_printable(b) | (b == b'\t') {
        page.put(&[b]);
    } else {
        page.put(b"\\x");
        page.put(&[hex_digit(b / 16), hex_digit(b % 16)]);
    }
}

// A part of a line, at most 1,024 bytes, as it is shown.
pub fn line(page: &mut Page, s: &[u8])
    requires { length s.now ≤ 1024 }
    ensures { page.new ≡ shown s.now }
{
    page.clear();
    for b in s {
        put_shown(page, *b);
    }
}
