// Lines of a transcript, read as calls. docs/TRANSCRIPT.md has the format.
ghost use Rattle.std.specs.Prelude.{◌≡◌, ◌+◌, ◌*◌, ◌<◌, ◌≤◌, length};
ghost use Rattle.lines.specs.Build.{payload_size};
ghost use Rattle.carts.specs.Cart.{cart_size};
ghost use Rattle.lines.specs.Cursor.{letters_of};
ghost use Rattle.lines.specs.Parse.{gathered, title_if, number_if, kind_byte, has_title, has_recording, fields_at, operation_at, operations_at, numbers_at, title_request_at, numbers_request_at, request_at, whole_call, setup_at, edit_call, edit_at, read_at, move_at, line_by, call_of, payload_of, call_fits, Means, Stored};

use crate::cursor::{Cursor, Mistake};
use crate::keyword::Command;
use crate::text::Class;
use crate::{build, keyword, text};
use carts::bytes;
use carts::cart::Cart;
use carts::kind::Kind;

// What a line asks for. The bytes that belong to it stand at the start of the payload: a setup's 16 studio bytes,
// a commit's or a preview's operations of 80 bytes, a read's or a forward's request of 80 bytes.
#[derive(Clone, Copy)]
pub enum Call {
    Nothing,
    Show,
    Setup(u32),
    Commit { session: u32, operations: u32 },
    Preview { session: u32, operations: u32 },
    Send(u32),
    Refresh(u32),
    Read { session: u32, forwards: bool },
    Collect(u32),
    Move { session: u32, studio: u32 },
    Load,
    Retire,
    Van(u32),
    Unreadable { mistake: Mistake, at: usize },
}

// The largest number that two bytes hold.
const TWO_BYTES: u32 = 65535;

// The studios of a setup's sessions, and the numbers of a read, at most.
const STUDIOS: usize = 16;

const NUMBERS: usize = 32;

// The call, where the whole line was read; else what is wrong with it.
fn whole(c: &mut Cursor, call: Call) -> Call
    requires { call_fits call }
    ensures { (result ≡ whole_call c.old call) × call_fits result }
{
    c.end();
    match c.mistake() {
        None => call,
        Some(mistake) => Call::Unreadable {
            mistake,
            at: c.next_place(),
        },
    }
}

// A title, where one is asked for.
#[tactic(auto, unfolding(crate::specs::Parse::title_if))]
fn title_if<'a>(c: &mut Cursor<'a>, asked: bool) -> &'a [u8]
    ensures letters { result.now ≡ letters_of c.old (title_if c.old asked) }
    ensures cursor { c.new ≡ (title_if c.old asked).cursor }
    ensures few { length result.now < 256 }
{
    if asked { c.title() } else { &[] }
}

// A word and the number after it, where they are asked for, and 0 where not: the definition's value, which is then put down.
#[tactic(auto, unfolding(crate::specs::Parse::number_if))]
fn number_if(c: &mut Cursor, word: &[u8], mistake: Mistake, asked: bool) -> u32
    ensures value { result ≡ (number_if c.old word.now mistake asked).value }
    ensures cursor { c.new ≡ (number_if c.old word.now mistake asked).cursor }
{
    if !asked {
        return 0;
    }
    c.word(word, mistake);
    c.number(u32::MAX)
}

// The fields of an operation: its cart, a title and a recording where its kind has them.
#[tactic(auto, unfolding(crate::specs::Parse::fields_at))]
fn fields(c: &mut Cursor, op: &mut [u8], kind: Kind)
    requires { length op.old ≡ cart_size }
    ensures { gathered op.new c.new ≡ fields_at c.old (kind_byte kind) (has_title kind) (has_recording kind) }
{
    let recorded = keyword::has_recording(kind);
    let cart = c.number(TWO_BYTES);
    let title = title_if(c, keyword::has_title(kind));
    let audio = number_if(c, b"audio", Mistake::AudioMissing, recorded);
    let milliseconds = number_if(c, b"length", Mistake::LengthMissing, recorded);
    build::put_operation(op, kind.byte(), cart, audio, milliseconds, title);
}

// One operation, by its word.
fn operation(c: &mut Cursor, op: &mut [u8])
    requires { length op.old ≡ cart_size }
    ensures { gathered op.new c.new ≡ operation_at c.old }
{
    match keyword::kind_of(c.peek_word()) {
        Some(kind) => {
            c.skip_word();
            fields(c, op, kind);
        }
        None => {
            bytes::clear(op);
            c.stop(Mistake::UnknownOperation);
        }
    }
}

// One to eight operations, with a semicolon between two; their number.
fn operations(c: &mut Cursor, payload: &mut [u8]) -> usize
    requires { length payload.old ≡ payload_size }
    ensures { Stored cart_size (operations_at c.old) payload.old payload.new result c.new × (1 ≤ result) × (result ≤ 8) }
{
    operation(c, &mut payload[0..Cart::SIZE]);
    for n in 1..8 {
        if c.peek() != b';' {
            return n;
        }
        c.mark(b';', Mistake::TooMuch);
        let start = Cart::SIZE * n;
        operation(c, &mut payload[start..start + Cart::SIZE]);
    }
    if c.peek() == b';' {
        c.stop(Mistake::TooManyOperations);
    }
    8
}

// One number or more, each at most a bound, as many as there is room for; how many were read.
fn numbers(c: &mut Cursor, most: u32, out: &mut [u32]) -> usize
    ensures { Stored 1 (numbers_at (length out.old) c.old most) out.old out.new result c.new × (result ≤ length out.old) }
{
    for (n, number) in out.iter_mut().enumerate() {
        *number = c.number(most);
        if !text::is_in(Class::Digit, c.peek()) {
            return n + 1;
        }
    }
    c.stop(Mistake::TooManyNumbers);
    out.len()
}

// Setup: the number of studios, then each session's studio.
fn setup(c: &mut Cursor, payload: &mut [u8]) -> Call
    requires { length payload.old ≡ payload_size }
    ensures { Means (setup_at c.old) payload.old payload.new result }
{
    let studios = c.number(u32::MAX);
    c.mark(b':', Mistake::ColonMissing);
    let mut places = [0u32; STUDIOS];
    let n = numbers(c, 255, &mut places);
    build::put_studios(&mut payload[0..STUDIOS], &places[..n]);
    whole(c, Call::Setup(studios))
}

// The call of a session's operations: a preview of the commit, or the commit. A flag and no closure: the definitions read both calls
// alike and tell them apart by it, as those of read and forward do.
#[tactic(auto, unfolding(crate::specs::Parse::edit_call))]
fn edit_call(session: u32, operations: u32, previews: bool) -> Call
    requires { (1 ≤ operations) × (operations ≤ 8) }
    ensures { (result ≡ edit_call session operations previews) × call_fits result }
{
    if previews {
        Call::Preview {
            session,
            operations,
        }
    } else {
        Call::Commit {
            session,
            operations,
        }
    }
}

// Commit and preview: the session, then the operations.
fn edit(c: &mut Cursor, payload: &mut [u8], previews: bool) -> Call
    requires { length payload.old ≡ payload_size }
    ensures { Means (edit_at c.old previews) payload.old payload.new result }
{
    let session = c.number(u32::MAX);
    c.mark(b':', Mistake::ColonMissing);
    let n = operations(c, payload);
    let call = edit_call(session, n as u32, previews);
    whole(c, call)
}

// A request by title.
#[tactic(auto, unfolding(crate::specs::Parse::title_request_at))]
fn title_request(c: &mut Cursor, request: &mut [u8])
    requires { length request.old ≡ cart_size }
    ensures { gathered request.new c.new ≡ title_request_at c.old }
{
    let title = c.title();
    build::put_operation(request, 2, 0, 0, 0, title);
}

// A request by numbers.
fn numbers_request(c: &mut Cursor, request: &mut [u8])
    requires { length request.old ≡ cart_size }
    ensures { gathered request.new c.new ≡ numbers_request_at c.old }
{
    let mut carts = [0u32; NUMBERS];
    let n = numbers(c, TWO_BYTES, &mut carts);
    build::put_numbers(request, &carts[..n]);
}

// Cart numbers or a title; the mark of a title tells which.
#[tactic(auto, unfolding(crate::specs::Parse::request_at))]
fn request(c: &mut Cursor, request: &mut [u8])
    requires { length request.old ≡ cart_size }
    ensures { gathered request.new c.new ≡ request_at c.old }
{
    let next = c.peek();
    if next == b'"' || next == b'\'' {
        title_request(c, request);
    } else {
        numbers_request(c, request);
    }
}

// Read and forward: the session, then cart numbers or a title.
fn read(c: &mut Cursor, payload: &mut [u8], forwards: bool) -> Call
    requires { length payload.old ≡ payload_size }
    ensures { Means (read_at c.old forwards) payload.old payload.new result }
{
    let session = c.number(u32::MAX);
    let call = Call::Read { session, forwards };
    c.mark(b':', Mistake::ColonMissing);
    request(c, &mut payload[0..Cart::SIZE]);
    whole(c, call)
}

// Move: the session, the word to, the studio.
#[tactic(auto, unfolding(crate::specs::Parse::move_at))]
fn move_session(c: &mut Cursor) -> Call
    ensures { (result ≡ move_at c.old) × call_fits result }
{
    let session = c.number(u32::MAX);
    c.word(b"to", Mistake::ToMissing);
    let studio = c.number(u32::MAX);
    whole(c, Call::Move { session, studio })
}

// The call of a line, past its first word.
#[tactic(auto, using(crate::proofs::ParseLaws::call_alone), unfolding(crate::specs::Parse::line_by))]
fn call_by(c: &mut Cursor, command: Command, payload: &mut [u8]) -> Call
    requires { length payload.old ≡ payload_size }
    ensures { Means (line_by c.old command) payload.old payload.new result }
{
    match command {
        Command::Show => whole(c, Call::Show),
        Command::Setup => setup(c, payload),
        Command::Commit => edit(c, payload, false),
        Command::Preview => edit(c, payload, true),
        Command::Read => read(c, payload, false),
        Command::Forward => read(c, payload, true),
        Command::Move => move_session(c),
        Command::Load => whole(c, Call::Load),
        Command::Retire => whole(c, Call::Retire),
        Command::Send => {
            let studio = c.number(u32::MAX);
            whole(c, Call::Send(studio))
        }
        Command::Refresh => {
            let studio = c.number(u32::MAX);
            whole(c, Call::Refresh(studio))
        }
        Command::Collect => {
            let session = c.number(u32::MAX);
            whole(c, Call::Collect(session))
        }
        Command::Van => {
            let edit = c.number(u32::MAX);
            whole(c, Call::Van(edit))
        }
    }
}

// A line of a transcript.
pub fn parse(s: &[u8], payload: &mut [u8]) -> Call
    requires { length payload.old ≡ payload_size }
    ensures { (result ≡ call_of s.now) × (payload.new ≡ payload_of s.now payload.old) × call_fits result }
{
    let mut c = Cursor::new(s);
    if c.is_over() {
        return Call::Nothing;
    }
    let Some(command) = Command::of(c.peek_word()) else {
        return Call::Unreadable {
            mistake: Mistake::UnknownWord,
            at: 0,
        };
    };
    c.skip_word();
    call_by(&mut c, command, payload)
}
