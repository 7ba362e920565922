// A title search's answer as it passes to C: specs/Search.antt gives the words of each answer.
ghost use Rattle.std.specs.Prelude.{◌≡◌};
ghost use Rattle.carts_c.specs.Search.{words, found_words};

use carts::titles::{Found, Searched};

// Numbers for kinds: C reads them.
#[repr(C)]
#[derive(Clone, Copy)]
pub struct Words {
    pub kind: u32,
    pub value: u32,
    pub letters: u32,
}

impl Words {
    pub const NONE: u32 = 0;

    pub const ONE: u32 = 1;

    pub const SEVERAL: u32 = 2;

    pub const WRONG_LENGTH: u32 = 3;

    pub fn new(kind: u32, value: u32, letters: u32) -> Words
        ensures { result ≡ words kind value letters }
    {
        Words {
            kind,
            value,
            letters,
        }
    }
}

// The answer of a search.
impl From<Searched> for Words {
    ghost from_gives = { λ searched given. given ≡ found_words searched.found searched.letters };

    fn from(searched: Searched) -> Words {
        let letters = searched.letters;
        match searched.found {
            Found::None => Words::new(Words::NONE, 0, letters),
            Found::One(c) => Words::new(Words::ONE, c, letters),
            Found::Several(n) => Words::new(Words::SEVERAL, n, letters),
        }
    }
}
