// A cursor over a line: what is read there, and the first mistake, which it keeps.
ghost use Rattle.std.specs.Prelude.{◌≡◌, ◌+◌, ◌-◌, ◌<◌, ◌≤◌, length};
ghost use Rattle.lines.specs.Cursor.{Reading, reading, new_at, moved_to, stopped_by, next_place, next_byte, next_word, word_end, past_word, past_mark, number_at, number_mistake, no_title, title_at, letters_of, is_over, ended_at, Titled};

use crate::text;
use crate::text::{Class, NumberError};
use carts::bytes;
use std::marker::Model;

// What can be wrong with a line. The grammar never gives None (the law mistake_told): it stands for a caller's own cursors.
#[derive(Clone, Copy)]
pub enum Mistake {
    None,
    UnknownWord,
    UnknownOperation,
    NumberMissing,
    NumberTooLarge,
    ColonMissing,
    AudioMissing,
    LengthMissing,
    ToMissing,
    TitleMissing,
    TitleOpen,
    TitleEmpty,
    TitleTooLong,
    TitleUnprintable,
    TooManyOperations,
    TooManyNumbers,
    TooMuch,
}

impl From<NumberError> for Mistake {
    ghost from_gives = { λ error mistake. mistake ≡ number_mistake error };

    fn from(error: NumberError) -> Mistake {
        match error {
            NumberError::Missing => Mistake::NumberMissing,
            NumberError::TooLarge => Mistake::NumberTooLarge,
        }
    }
}

// Where a cursor stands, with its first mistake: a value that can be copied, kept and gone on from.
#[derive(Clone, Copy)]
pub struct Place {
    pub at: usize,
    pub mistake: Option<Mistake>,
}

// A line, the place of its next byte, and the first mistake, where something was wrong. No Copy, which a struct with a lifetime and a
// Model cannot have: a Place is copied.
#[derive(Clone, Drop)]
pub struct Cursor<'a> {
    line: &'a [u8],
    at: usize,
    mistake: Option<Mistake>,
}

impl<'a> Model for Cursor<'a> {
    ghost Value = { Reading };

    ghost view = { λ c. reading c.line.now c.at c.mistake };
}

impl<'a> Cursor<'a> {
    // At the start of a line, with no mistake.
    pub fn new(line: &'a [u8]) -> Cursor<'a>
        ensures { result ≡ new_at line.now 0 }
    {
        Cursor::at(line, 0)
    }

    // At a place of a line, with no mistake.
    pub fn at(line: &'a [u8], at: usize) -> Cursor<'a>
        ensures { result ≡ new_at line.now at }
    {
        Cursor {
            line,
            at,
            mistake: None,
        }
    }

    // As another cursor over the line left it.
    pub fn resume(line: &'a [u8], place: Place) -> Cursor<'a>
        ensures { result ≡ reading line.now place.at place.mistake }
    {
        Cursor {
            line,
            at: place.at,
            mistake: place.mistake,
        }
    }

    // Where it stands.
    pub fn place(&self) -> Place
        ensures { (result.at ≡ self.now.at) × (result.mistake ≡ self.now.mistake) }
    {
        Place {
            at: self.at,
            mistake: self.mistake,
        }
    }

    // The first mistake, where there is one.
    pub fn mistake(&self) -> Option<Mistake>
        ensures { result ≡ self.now.mistake }
    {
        self.mistake
    }

    // To another place; after a mistake it stays where that was.
    pub fn move_to(&mut self, at: usize)
        ensures { self.new ≡ moved_to self.old at }
    {
        if self.mistake.is_none() {
            self.at = at;
        }
    }

    // A mistake; the first is kept.
    pub fn stop(&mut self, mistake: Mistake)
        ensures { self.new ≡ stopped_by self.old mistake }
    {
        if self.mistake.is_none() {
            self.mistake = Some(mistake);
        }
    }

    // The place of the next byte that is no space.
    pub fn next_place(&self) -> usize
        ensures { result ≡ next_place self.now }
    {
        text::run_end(self.line, self.at, Class::Space)
    }

    // The next byte that is no space; 0 at the line's end.
    pub fn peek(&self) -> u8
        ensures { result ≡ next_byte self.now }
    {
        text::letter(self.line, self.next_place())
    }

    // The word at the next byte that is no space.
    pub fn peek_word(&self) -> &'a [u8]
        ensures { result.now ≡ next_word self.now }
    {
        let start = self.next_place();
        let end = text::run_end(self.line, start, Class::Word);
        text::part_of(self.line, start, end - start)
    }

    // Past the word at the next byte that is no space.
    pub fn skip_word(&mut self)
        ensures { self.new ≡ moved_to self.old (word_end self.old) }
    {
        let end = text::run_end(self.line, self.next_place(), Class::Word);
        self.move_to(end);
    }

    // Past a word that has to stand here, or the mistake.
    pub fn word(&mut self, expected: &[u8], mistake: Mistake)
        ensures { self.new ≡ past_word self.old expected.now mistake }
    {
        if text::same(self.peek_word(), expected) {
            self.skip_word();
        } else {
            self.stop(mistake);
        }
    }

    // Past a byte that has to stand here, or the mistake.
    pub fn mark(&mut self, expected: u8, mistake: Mistake)
        ensures { self.new ≡ past_mark self.old expected mistake }
    {
        let at = self.next_place();
        if at < self.line.len() && self.line[at] == expected {
            self.move_to(at + 1);
        } else {
            self.stop(mistake);
        }
    }

    // A number of at most a bound; 0 where it could not be read.
    pub fn number(&mut self, most: u32) -> u32
        ensures value { result ≡ (number_at self.old most).value }
        ensures cursor { self.new ≡ (number_at self.old most).cursor }
        ensures bound { result ≤ most }
    {
        let start = self.next_place();
        let end = text::run_end(self.line, start, Class::Digit);
        match text::number_of(text::part_of(self.line, start, end - start), most) {
            Ok(value) => {
                self.move_to(end);
                value
            }
            Err(error) => {
                self.stop(Mistake::from(error));
                0
            }
        }
    }

    // No title, for a reason.
    fn no_title(&mut self, mistake: Mistake) -> &'a [u8]
        ensures { (result.now ≡ letters_of self.old (no_title self.old mistake)) × (self.new ≡ (no_title self.old mistake).cursor) }
    {
        self.stop(mistake);
        &[]
    }

    // A title between two marks of one kind, " or '; empty where it could not be read. Its letters stand in the line, and their number fits a byte.
    #[tactic(auto, using(crate::proofs::CursorLaws::no_letters), unfolding(crate::specs::Cursor::title_at, crate::specs::Cursor::title_from))]
    pub fn title(&mut self) -> &'a [u8]
        ensures letters { result.now ≡ letters_of self.old (title_at self.old) }
        ensures cursor { self.new ≡ (title_at self.old).cursor }
        ensures stands { Titled self.old.line (title_at self.old).start (title_at self.old).length }
        ensures few { length result.now < 256 }
    {
        let at = self.next_place();
        let open = text::letter(self.line, at);
        if open != b'"' && open != b'\'' {
            return self.no_title(Mistake::TitleMissing);
        }
        let start = at + 1;
        let end = text::run_end(self.line, start, Class::Other(open));
        if self.line.len() <= end {
            return self.no_title(Mistake::TitleOpen);
        }
        let letters = &self.line[start..end];
        if letters.is_empty() {
            return self.no_title(Mistake::TitleEmpty);
        }
        if 255 < letters.len() {
            return self.no_title(Mistake::TitleTooLong);
        }
        if !bytes::all_printable(letters) {
            return self.no_title(Mistake::TitleUnprintable);
        }
        self.move_to(end + 1);
        letters
    }

    // Nothing more on the line but a comment.
    pub fn is_over(&self) -> bool
        ensures { result ≡ is_over self.now }
    {
        let at = self.next_place();
        self.line.len() <= at || self.line[at] == b'#'
    }

    // A mistake, where something more is on the line.
    pub fn end(&mut self)
        ensures { self.new ≡ ended_at self.old }
    {
        if !self.is_over() {
            self.stop(Mistake::TooMuch);
        }
    }
}
