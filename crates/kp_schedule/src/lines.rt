//! A text, line by line.

ghost use Rattle.std.specs.Prelude.{◌≡◌, ◌<◌, ◌∷◌, length, nat_lt};
ghost use Rattle.kp_schedule.specs.Lines.{lines};

use memchr::memchr;

/// The first line, and what stands behind its end.
pub fn cut_line(text: &[u8]) -> (&[u8], &[u8])
    requires { 0 < length text.now }
    ensures line { lines text.now ≡ result.0.now ∷ lines result.1.now }
    ensures shorter { length result.1.now < length text.now }
{
    match memchr(b'\n', text) {
        Some(end) => (&text[..end], &text[end + 1..]),
        None => (text, &[]),
    }
}

/// Whether a text has more lines than this.
pub fn has_more_lines(limit: u64, text: &[u8]) -> bool
    ensures { result ≡ nat_lt limit (length (lines text.now)) }
{
    let mut left = limit;
    let mut rest = text;
    while !rest.is_empty() {
        if left == 0 {
            return true;
        }
        let (_, behind) = cut_line(rest);
        left -= 1;
        rest = behind;
    }
    false
}
