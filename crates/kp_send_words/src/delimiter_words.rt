//! The byte that the word for a delimiter names, and the word for a header.

ghost use Rattle.std.specs.Prelude.{◌≡◌, [], ◌∷◌};
ghost use Rattle.kp_command_line.specs.BrokerWords.{Finds};
ghost use Rattle.kp_send_words.specs.DelimiterWords.{NamesByte, NamesEscape, WritesByte, is_header};

/// The byte that a word names: a character of ASCII, or an escape.
pub(crate) fn byte_named(word: &str) -> Option<u8>
    ensures { Finds (NamesByte word.now) result }
{
    if let Some(byte) = only_byte(word) {
        return Some(byte);
    }
    match word.strip_prefix('\\') {
        Some(rest) => byte_escaped(rest),
        None => None,
    }
}

/// The byte of a word that has one alone.
fn only_byte(word: &str) -> Option<u8>
    ensures { Finds (λ byte. word.now ≡ byte ∷ []) result }
{
    match word.as_bytes() {
        [byte] => Some(*byte),
        _ => None,
    }
}

/// The byte that is named behind a backslash.
fn byte_escaped(rest: &str) -> Option<u8>
    ensures { Finds (NamesEscape rest.now) result }
{
    match rest {
        "n" => Some(b'\n'),
        "r" => Some(b'\r'),
        "t" => Some(b'\t'),
        "0" => Some(0),
        _ => match rest.strip_prefix('x') {
            Some(digits) => byte_written(digits),
            None => None,
        },
    }
}

/// The byte that two hexadecimal digits write.
fn byte_written(digits: &str) -> Option<u8>
    ensures { Finds (WritesByte digits.now) result }
{
    match digits.as_bytes() {
        [b'+', _] => None,
        [_, _] => u8::from_str_radix(digits, 16).ok(),
        _ => None,
    }
}

/// Whether a word is `NAME=VALUE`, with a name that is not empty.
pub(crate) fn is_header(word: &str) -> bool
    ensures { result ≡ is_header word.now }
{
    match word.split_once('=') {
        Some((name, _)) => !name.is_empty(),
        None => false,
    }
}
