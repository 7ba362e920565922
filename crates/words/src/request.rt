// The numbers that a request asks for, in words.
ghost use Rattle.std.specs.Prelude.{◌≡◌, ◌++◌, ◌+◌, ◌*◌, ◌≤◌, length};
ghost use Rattle.words.specs.Page.{page_size};
ghost use Rattle.words.specs.Request.{asked_numbers};

use crate::page::Page;
use lines::build;

// The first n numbers that a request asks for.
pub fn put_asked(page: &mut Page, request: &[u8], n: u32)
    requires { length page.old + 11 * n ≤ page_size }
    ensures text { page.new ≡ page.old ++ asked_numbers request.now n }
    ensures fits { length page.new ≤ length page.old + 11 * n }
{
    for i in 0..n {
        page.put_numbered(b" ", build::asked(request, i));
    }
}
