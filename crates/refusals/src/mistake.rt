// Lines that cannot be read, in words.
ghost use Rattle.std.specs.Prelude.{◌≡◌, ◌≤◌, length};
ghost use Rattle.refusals.specs.Sentences.{mistake_sentence};
ghost use Rattle.refusals.specs.Refusals.{unreadable_text};

use lines::cursor::Mistake;
use words::page::Page;

// What is wrong with a line.
fn sentence(mistake: Mistake) -> &'static [u8]
    ensures text { result.now ≡ mistake_sentence mistake }
    ensures fits { length result.now ≤ 128 }
{
    match mistake {
        Mistake::None => b"nothing is wrong",
        Mistake::UnknownWord =>
            b"the line begins with none of setup, commit, preview, send, refresh, read, collect, forward, move, load, retire, van, show",
        Mistake::UnknownOperation => b"an operation begins with new, retitle, re-cut or withdraw",
        Mistake::NumberMissing => b"a number is missing",
        Mistake::NumberTooLarge => b"a number is too large",
        Mistake::ColonMissing => b"a colon is missing",
        Mistake::AudioMissing => b"the word audio is missing",
        Mistake::LengthMissing => b"the word length is missing",
        Mistake::ToMissing => b"the word to is missing",
        Mistake::TitleMissing => b"a title in quotes is missing",
        Mistake::TitleOpen => b"a title's closing quote is missing",
        Mistake::TitleEmpty => b"a title is empty",
        Mistake::TitleTooLong => b"a title has more than 255 letters",
        Mistake::TitleUnprintable => b"a title has a byte that is not printable (32 to 126)",
        Mistake::TooManyOperations => b"there are more than eight operations",
        Mistake::TooManyNumbers => b"there are too many numbers",
        Mistake::TooMuch => b"there is more on the line than the call takes",
    }
}

// A line that is no call, by its number, with the column of the mistake and what it is.
#[tactic(auto, unfolding(crate::specs::Refusals::unreadable_text))]
pub fn unreadable(page: &mut Page, line: u32, column: u64, mistake: Mistake)
    ensures { page.new ≡ unreadable_text line column mistake }
{
    page.clear();
    page.put_between(b"  line ", line, b", column ");
    page.put_long(column);
    page.put(b" cannot be read: ");
    page.put(sentence(mistake));
    page.put(b"\n");
}
