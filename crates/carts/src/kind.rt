// Kinds of operations: byte 0 of an operation.
ghost use Rattle.std.specs.Prelude.{◌≡◌, ◌<◌, ◌≤◌, ◌||◌, MatchOption};
ghost use Rattle.carts.specs.Operation.{is_new, is_retitle, is_recut};
ghost use Rattle.carts.specs.Kind.{kind_byte};

#[derive(Clone, Copy)]
pub enum Kind {
    New = 1,
    Retitle = 2,
    Recut = 3,
    Withdraw = 4,
}

impl Kind {
    // The kind of a byte, none where the byte stands for no kind.
    pub fn of(byte: u8) -> Option<Kind>
        ensures { MatchOption result (1 ≤ byte → 4 < byte) (λ kind. byte ≡ kind_byte kind) }
    {
        match byte {
            1 => Some(Kind::New),
            2 => Some(Kind::Retitle),
            3 => Some(Kind::Recut),
            4 => Some(Kind::Withdraw),
            _ => None,
        }
    }

    // The byte that an operation of the kind begins with.
    pub fn byte(self) -> u8
        ensures { result ≡ kind_byte self }
    {
        self as u8
    }

    // The byte is of a kind that has a title. By comparisons and no match: it runs for each operation, without branches.
    pub fn has_title(byte: u8) -> bool
        ensures { result ≡ (is_new byte || is_retitle byte) }
    {
        (byte == Kind::New as u8) | (byte == Kind::Retitle as u8)
    }

    // The byte is of a kind that has audio and length, likewise.
    pub fn has_audio(byte: u8) -> bool
        ensures { result ≡ (is_new byte || is_recut byte) }
    {
        (byte == Kind::New as u8) | (byte == Kind::Recut as u8)
    }
}
