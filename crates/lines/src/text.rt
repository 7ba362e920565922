// Text: bytes, parts, runs and numbers of a line. Every function is total: a place past the end reads as 0.
ghost use Rattle.std.specs.Prelude.{◌≡◌, ◌+◌, ◌*◌, ◌-◌, ◌<◌, ◌≤◌, length, eqb};
ghost use Rattle.carts.specs.Bytes.{byte, pairwise};
ghost use Rattle.lines.specs.Text.{in_class, run_end, part_in, number_of};

// A class of bytes: spaces, letters of a word, digits, or every byte but one.
#[derive(Clone, Copy)]
pub enum Class {
    Space,
    Word,
    Digit,
    Other(u8),
}

// Why a run of digits says no number.
#[derive(Clone, Copy)]
pub enum NumberError {
    Missing,
    TooLarge,
}

// The byte at a place, or 0 past the end.
pub fn letter(s: &[u8], at: usize) -> u8
    ensures { result ≡ byte s.now at }
{
    s.get(at).copied().unwrap_or(0)
}

// The n bytes from a place on, or none where they are not all there.
pub fn part_of(s: &[u8], at: usize, n: usize) -> &[u8]
    ensures { result.now ≡ part_in s.now at n }
{
    if s.len() < at || s.len() - at < n {
        return &[];
    }
    &s[at..at + n]
}

// Two texts are the same, byte for byte.
pub fn same(a: &[u8], b: &[u8]) -> bool
    ensures { result ≡ pairwise eqb a.now b.now }
{
    a == b
}

// The byte is of the class.
pub fn is_in(class: Class, b: u8) -> bool
    ensures { result ≡ in_class class b }
{
    match class {
        Class::Space => matches!(b, b' ' | b'\t' | b'\r'),
        Class::Word => matches!(b, b'a'..=b'z' | b'-'),
        Class::Digit => b.is_ascii_digit(),
        Class::Other(x) => b != x,
    }
}

// Where a run of bytes of one class, from a place on, ends.
pub fn run_end(s: &[u8], at: usize, class: Class) -> usize
    ensures { (result ≡ run_end s.now at class) × (at ≤ result) × (at ≤ length s.now → result ≤ length s.now) }
{
    for i in at..s.len() {
        if !is_in(class, s[i]) {
            return i;
        }
    }
    at.max(s.len())
}

// The number that digits say in base ten, where it is at most a bound.
pub fn number_of(digits: &[u8], most: u32) -> Result<u32, NumberError>
    ensures { result ≡ number_of most digits.now }
{
    if digits.is_empty() {
        return Err(NumberError::Missing);
    }
    let mut value: u64 = 0;
    for digit in digits {
        value = 10 * value + u64::from(digit.saturating_sub(b'0'));
        if u64::from(most) < value {
            return Err(NumberError::TooLarge);
        }
    }
    Ok(value as u32)
}
