// Words of the grammar: the commands that lines begin with, and the kinds of operations.
ghost use Rattle.std.specs.Prelude.{◌≡◌};
ghost use Rattle.lines.specs.Parse.{kind_of, has_title, has_recording, command_of, number_command_of};

use crate::text;
use carts::kind::Kind;

// The kind of an operation, by its word. A match over byte strings was tried: it has a goal for each byte at which two words part, and
// many stay open.
#[tactic(auto, unfolding(crate::specs::Parse::kind_of))]
pub fn kind_of(word: &[u8]) -> Option<Kind>
    ensures { result ≡ kind_of word.now }
{
    if text::same(word, b"new") {
        return Some(Kind::New);
    }
    if text::same(word, b"retitle") {
        return Some(Kind::Retitle);
    }
    if text::same(word, b"re-cut") {
        return Some(Kind::Recut);
    }
    if text::same(word, b"withdraw") {
        return Some(Kind::Withdraw);
    }
    None
}

// The line of such an operation has a title.
pub fn has_title(kind: Kind) -> bool
    ensures { result ≡ has_title kind }
{
    matches!(kind, Kind::New | Kind::Retitle)
}

// It has a recording.
pub fn has_recording(kind: Kind) -> bool
    ensures { result ≡ has_recording kind }
{
    matches!(kind, Kind::New | Kind::Recut)
}

// The first word of a line that has a call.
#[derive(Clone, Copy)]
pub enum Command {
    Show,
    Setup,
    Commit,
    Preview,
    Read,
    Forward,
    Move,
    Load,
    Retire,
    Send,
    Refresh,
    Collect,
    Van,
}

impl Command {
    // By its word; a match over byte strings was tried, as at kind_of.
    #[tactic(auto, unfolding(crate::specs::Parse::command_of))]
    pub fn of(word: &[u8]) -> Option<Command>
        ensures { result ≡ command_of word.now }
    {
        if text::same(word, b"show") {
            return Some(Command::Show);
        }
        if text::same(word, b"setup") {
            return Some(Command::Setup);
        }
        if text::same(word, b"commit") {
            return Some(Command::Commit);
        }
        if text::same(word, b"preview") {
            return Some(Command::Preview);
        }
        if text::same(word, b"read") {
            return Some(Command::Read);
        }
        if text::same(word, b"forward") {
            return Some(Command::Forward);
        }
        if text::same(word, b"move") {
            return Some(Command::Move);
        }
        if text::same(word, b"load") {
            return Some(Command::Load);
        }
        if text::same(word, b"retire") {
            return Some(Command::Retire);
        }
        Command::with_number(word)
    }

    // The commands whose call has a number alone.
    #[tactic(auto, unfolding(crate::specs::Parse::number_command_of))]
    fn with_number(word: &[u8]) -> Option<Command>
        ensures { result ≡ number_command_of word.now }
    {
        if text::same(word, b"send") {
            return Some(Command::Send);
        }
        if text::same(word, b"refresh") {
            return Some(Command::Refresh);
        }
        if text::same(word, b"collect") {
            return Some(Command::Collect);
        }
        if text::same(word, b"van") {
            return Some(Command::Van);
        }
        None
    }
}
