// Sessions and requests: 80 bytes each, 16 sessions, counted from 1.
ghost use Rattle.std.specs.Prelude.{◌≡◌, ◌<◌, ◌≤◌, length};
ghost use Rattle.replication.specs.Memory.{session_size, sessions_size, session_count, session_at, with_session, with_sequence, with_number};
ghost use Rattle.replication.specs.Request.{numbers_form, request_fields, request_form};
ghost use Rattle.replication.specs.Layout.{waiting_form, session_form_of};
ghost use Rattle.replication.specs.Values.{session_value, waiting_value, waits_by, needed_by};

use carts::cart::Cart;
use carts::{bytes, cart};
use edit_log::cell;

// The read that a session has waiting: nothing, a count of numbers, or the length of a title. Their bytes stay beside it.
#[derive(Clone, Copy)]
pub enum Waiting {
    Nothing,
    Numbers(u32),
    Title(u32),
}

// A session's number and its waiting read; a request has the number 0. Its 80 bytes are a slice, as a cart's are.
#[derive(Clone, Copy)]
pub struct Session {
    pub number: u32,
    pub waiting: Waiting,
}

impl Session {
    pub const SIZE: usize = 80;

    pub const COUNT: u32 = 16;

    pub const MEMORY_SIZE: usize = 1280;

    // Where the number begins, the unused bytes, and the payload; how many numbers a read may ask for.
    pub const NUMBER_AT: usize = 2;

    pub const UNUSED_AT: usize = 4;

    pub const PAYLOAD_AT: usize = 16;

    pub const NUMBERS_MOST: usize = 32;

    // The session, or the request, in 80 bytes.
    #[tactic(auto, unfolding(crate::specs::Values::session_value, crate::specs::Memory::sequence_of))]
    pub fn from_bytes(x: &[u8]) -> Session
        requires { length x.now ≡ session_size }
        ensures { (result ≡ session_value x.now) × (result.number < 65536) }
    {
        let number = bytes::u16_at(x, Session::NUMBER_AT);
        let waiting = waiting_in(x);
        Session { number, waiting }
    }

    // A read is waiting.
    pub fn is_waiting(self) -> bool
        ensures { result ≡ waits_by self.waiting }
    {
        !matches!(self.waiting, Waiting::Nothing)
    }

    // The bytes of output that the waiting read asks for.
    pub fn needed(self) -> usize
        ensures { result ≡ needed_by self.waiting }
    {
        match self.waiting {
            Waiting::Nothing => 0,
            Waiting::Numbers(n) => Cart::SIZE * (n as usize),
            Waiting::Title(_) => Cart::SIZE,
        }
    }
}

// The read in byte 0, and the count in byte 1.
#[tactic(auto, unfolding(crate::specs::Values::waiting_value))]
fn waiting_in(x: &[u8]) -> Waiting
    requires { length x.now ≡ session_size }
    ensures { result ≡ waiting_value x.now }
{
    let n = bytes::byte_at(x, 1);
    match x[0] {
        1 => Waiting::Numbers(n),
        2 => Waiting::Title(n),
        _ => Waiting::Nothing,
    }
}

// Byte 1 and bytes 16 to 79 are 1 to 32 cart numbers, then zeros.
fn is_numbers(x: &[u8]) -> bool
    requires { length x.now ≡ session_size }
    ensures { result ≡ numbers_form x.now }
{
    let n = bytes::byte_at(x, 1) as usize;
    if n < 1 {
        return false;
    }
    if Session::NUMBERS_MOST < n {
        return false;
    }
    let mut ok = true;
    for i in 0..n {
        let c = bytes::u16_at(x, Session::PAYLOAD_AT + 2 * i);
        ok &= bytes::is_within(1, Cart::COUNT, c);
    }
    let end = Session::PAYLOAD_AT + 2 * n;
    ok & bytes::all_zero(&x[end..Session::SIZE])
}

// Byte 0 is 1 or 2, and the read's fields are of their form.
#[tactic(auto, unfolding(crate::specs::Request::request_fields, carts::specs::Cart::has_title))]
fn is_read(x: &[u8]) -> bool
    requires { length x.now ≡ session_size }
    ensures { result ≡ request_fields x.now }
{
    match x[0] {
        1 => is_numbers(x),
        2 => cart::is_title_as_asked(x, true),
        _ => false,
    }
}

// The bytes are those of a read request.
pub fn is_request(x: &[u8]) -> bool
    ensures { result ≡ request_form x.now }
{
    if x.len() != Session::SIZE {
        return false;
    }
    is_read(x) & bytes::all_zero(&x[Session::NUMBER_AT..Session::PAYLOAD_AT])
}

// A waiting read of its form, or nothing waiting and zeros.
fn is_waiting_form(x: &[u8]) -> bool
    requires { length x.now ≡ session_size }
    ensures { result ≡ waiting_form x.now }
{
    if x[0] == 0 {
        return cart::is_title_as_asked(x, false);
    }
    is_read(x)
}

// The session of a studio (0: unused) is of the layout after so many commits.
pub fn is_session(x: &[u8], studio: u32, commits: u32) -> bool
    requires { length x.now ≡ session_size }
    ensures { result ≡ session_form_of studio commits x.now }
{
    if studio == 0 {
        return bytes::all_zero(x);
    }
    (bytes::u16_at(x, Session::NUMBER_AT) <= commits)
        & bytes::all_zero(&x[Session::UNUSED_AT..Session::PAYLOAD_AT])
        & is_waiting_form(x)
}

// The 80 bytes of a session. Its two lines stand at cart_at and record_at too: each promises a definition of its own.
pub fn session_at(sessions: &[u8], session: u32) -> &[u8]
    requires { (length sessions.now ≡ sessions_size) × ((1 ≤ session) × (session ≤ session_count)) }
    ensures { (result.now ≡ session_at sessions.now session) × (length result.now ≡ session_size) }
{
    let start = Session::SIZE * (session as usize - 1);
    &sessions[start..start + Session::SIZE]
}

// The bytes of a session become x, with a number.
pub fn store(sessions: &mut [u8], session: u32, x: &[u8], number: u32)
    requires memory { (length sessions.old ≡ sessions_size) × ((1 ≤ session) × (session ≤ session_count)) }
    requires bytes { (length x.now ≡ session_size) × (number < 65536) }
    ensures { sessions.new ≡ with_session sessions.old session (with_sequence number x.now) }
{
    cell::fill(sessions, session, x, Session::NUMBER_AT, number);
}

// A session has another number.
pub fn put_number(sessions: &mut [u8], session: u32, number: u32)
    requires memory { (length sessions.old ≡ sessions_size) × ((1 ≤ session) × (session ≤ session_count)) }
    requires number { number < 65536 }
    ensures { sessions.new ≡ with_number sessions.old session number }
{
    cell::put(sessions, session, Session::NUMBER_AT, number);
}
