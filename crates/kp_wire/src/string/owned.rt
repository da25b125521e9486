//! STRING and NULLABLE_STRING as texts of their own memory.

ghost use Rattle.std.specs.Prelude.{◌≡◌, ◌++◌, OnOk, OnErr};
ghost use Rattle.kp_wire.specs.Reading.{Gives};
ghost use Rattle.kp_wire.specs.Sizes.{IsSize};
ghost use Rattle.kp_wire.specs.Strings.{string, nullable_string};

use super::{LENGTH_SIZE, put_nullable, put_string, read_nullable, read_string};
use crate::codec::ReadField;
use crate::fault::ReadError;
use crate::measured::MeasuredField;
use crate::text::Text;
use std::alloc::{AllocError, Global};

/// The most bytes that a text has.
const TEXT_LIMIT: usize = 32767;

/// The STRING at the front, and the bytes behind it.
pub fn read_text(alloc: Global, bytes: &[u8]) -> Result<(Text, &[u8]), ReadError>
    ensures { Gives (λ x. (x.0, x.1.now)) result (string.read bytes.now) }
{
    let (text, rest) = read_string(bytes)?;
    Ok((Text::from_str(alloc, text)?, rest))
}

/// The NULLABLE_STRING at the front, None where it is null, and the bytes behind it.
pub fn read_nullable_text(alloc: Global, bytes: &[u8]) -> Result<(Option<Text>, &[u8]), ReadError>
    ensures { Gives (λ x. (x.0, x.1.now)) result (nullable_string.read bytes.now) }
{
    let (text, rest) = read_nullable(bytes)?;
    match text {
        None => Ok((None, rest)),
        Some(text) => Ok((Some(Text::from_str(alloc, text)?), rest)),
    }
}

/// How many bytes the STRING has. None where the text is longer than 32767 bytes.
pub fn size_of_text(text: &Text) -> Option<u64>
    ensures { IsSize (string.Fits text.now) (string.spell text.now) result }
{
    let text = text.as_str();
    if text.len() > TEXT_LIMIT {
        return None;
    }
    Some((LENGTH_SIZE + text.len()) as u64)
}

/// How many bytes the NULLABLE_STRING has. None where the text is longer than 32767 bytes.
pub fn size_of_nullable_text(text: &Option<Text>) -> Option<u64>
    ensures { IsSize (nullable_string.Fits text.now) (nullable_string.spell text.now) result }
{
    match text {
        None => Some(LENGTH_SIZE as u64),
        Some(text) => size_of_text(text),
    }
}

/// Appends the STRING. An `Err` leaves `out` as it was.
pub fn put_text(out: &mut Vec<u8>, text: &Text) -> Result<(), AllocError>
    requires { string.Fits text.now }
    ensures ok { OnOk result (out.new.items ≡ out.old.items ++ string.spell text.now) }
    ensures err { OnErr result (out.new.items ≡ out.old.items) }
{
    put_string(out, text.as_str())
}

/// Appends the NULLABLE_STRING, null for None. An `Err` leaves `out` as it was.
pub fn put_nullable_text(out: &mut Vec<u8>, text: &Option<Text>) -> Result<(), AllocError>
    requires { nullable_string.Fits text.now }
    ensures ok { OnOk result (out.new.items ≡ out.old.items ++ nullable_string.spell text.now) }
    ensures err { OnErr result (out.new.items ≡ out.old.items) }
{
    match text {
        None => put_nullable(out, None),
        Some(text) => put_text(out, text),
    }
}

impl ReadField for Text {
    ghost use Rattle.kp_wire.specs.Strings.{string};

    ghost reads = { λ after. string.read };

    fn read(alloc: Global, bytes: &[u8], _after: usize) -> Result<(Self, &[u8]), ReadError> {
        read_text(alloc, bytes)
    }
}

impl MeasuredField for Text {
    ghost use Rattle.kp_wire.specs.Strings.{string};

    ghost spells = { string.spell };

    ghost fits = { string.Fits };

    fn size(&self) -> Option<u64> {
        size_of_text(self)
    }

    fn put(&self, out: &mut Vec<u8>) -> Result<(), AllocError> {
        put_text(out, self)
    }
}
