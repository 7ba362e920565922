// The bytes of a transcript before they are lines: a mark at the start, what is no text, and the return before a line's end.
ghost use Rattle.std.specs.Prelude.{◌≡◌};
ghost use Rattle.lines.specs.Text.{part_in};
ghost use Rattle.lines.specs.Input.{mark_length, is_text, line_length};

// How many bytes the byte-order mark of UTF-8 takes at the start: 3, or 0 where there is none.
pub fn mark_length(s: &[u8]) -> usize
    ensures { result ≡ mark_length s.now }
{
    if s.starts_with(b"\xef\xbb\xbf") {
        return 3;
    }
    0
}

// A byte-order mark of UTF-16 or a zero byte is no text.
pub fn is_text(s: &[u8]) -> bool
    ensures { result ≡ is_text s.now }
{
    if s.starts_with(b"\xff\xfe") || s.starts_with(b"\xfe\xff") {
        return false;
    }
    !s.contains(&0)
}

// A line without the return at its end.
pub fn without_return(s: &[u8]) -> &[u8]
    ensures { result.now ≡ part_in s.now 0 (line_length s.now) }
{
    s.strip_suffix(b"\r").unwrap_or(s)
}
