//! STRING and NULLABLE_STRING, Kafka's texts of at most 32767 bytes (protocol guide, "Protocol Primitive Types").

ghost use Rattle.std.specs.Prelude.{◌≡◌, ◌≤◌, ◌++◌, List, ℕ, Option, length, take, option_map, OnOk, OnErr, IfOk, IfSome, IsOkAnd};
ghost use Rattle.kp_wire.specs.Reading.{IsRead, Took};
ghost use Rattle.kp_wire.specs.Codec.{by_length, by_nullable_length, utf8};
ghost use Rattle.kp_wire.specs.Strings.{string, nullable_string};

mod owned;

use crate::fault::WireFault;
use crate::field::read_utf8;
use crate::number::{put_i16, read_i16};
pub use owned::{
    put_nullable_text, put_text, read_nullable_text, read_text, size_of_nullable_text, size_of_text,
};
use std::alloc::AllocError;

/// How many bytes a text's length takes.
const LENGTH_SIZE: usize = 2;

/// The length of null.
const NULL: i16 = -1;

#[tactic(auto, unfolding(crate::specs::Codec::by_length))]
fn read_string_by(bytes: &[u8], len: i16) -> Result<(&str, &[u8]), WireFault>
    ensures { IsRead (λ x. (x.0.now, x.1.now)) result (by_length (λ n. (utf8 n).read) len bytes.now) }
{
    if len < 0 {
        return Err(WireFault::BadLength);
    }
    read_utf8(bytes, len as usize)
}

#[tactic(auto, unfolding(crate::specs::Codec::by_nullable_length))]
fn read_nullable_by(bytes: &[u8], len: i16) -> Result<(Option<&str>, &[u8]), WireFault>
    ensures { IsRead (λ x. (option_map (λ s. s.now) x.0, x.1.now)) result (by_nullable_length (λ n. (utf8 n).read) len bytes.now) }
{
    if len < NULL {
        return Err(WireFault::BadLength);
    }
    if len == NULL {
        return Ok((None, bytes));
    }
    let (text, rest) = read_utf8(bytes, len as usize)?;
    Ok((Some(text), rest))
}

/// The STRING at the front, and the bytes behind it.
pub fn read_string(bytes: &[u8]) -> Result<(&str, &[u8]), WireFault>
    ensures { IsRead (λ x. (x.0.now, x.1.now)) result (string.read bytes.now) }
{
    let (len, rest) = read_i16(bytes)?;
    read_string_by(rest, len)
}

/// The NULLABLE_STRING at the front, None where it is null, and the bytes behind it.
pub fn read_nullable(bytes: &[u8]) -> Result<(Option<&str>, &[u8]), WireFault>
    ensures { IsRead (λ x. (option_map (λ s. s.now) x.0, x.1.now)) result (nullable_string.read bytes.now) }
{
    let (len, rest) = read_i16(bytes)?;
    read_nullable_by(rest, len)
}

/// Appends the STRING. An `Err` leaves `out` as it was.
pub fn put_string(out: &mut Vec<u8>, text: &str) -> Result<(), AllocError>
    requires { length text.now ≤ 32767 }
    ensures ok { OnOk result (out.new.items ≡ out.old.items ++ string.spell text.now) }
    ensures err { OnErr result (out.new.items ≡ out.old.items) }
{
    let int16 = (text.len() as i16).to_be_bytes();
    out.reserve(LENGTH_SIZE + text.len())?;
    out.extend_from_slice(&int16)?;
    out.extend_from_slice(text.as_bytes())
}

/// Appends the NULLABLE_STRING, null for None. An `Err` leaves `out` as it was.
pub fn put_nullable(out: &mut Vec<u8>, text: Option<&str>) -> Result<(), AllocError>
    requires { IfSome text (λ s. length s.now ≤ 32767) }
    ensures ok { OnOk result (out.new.items ≡ out.old.items ++ nullable_string.spell (option_map (λ s. s.now) text.entry)) }
    ensures err { OnErr result (out.new.items ≡ out.old.items) }
{
    match text {
        None => put_i16(out, NULL),
        Some(text) => put_string(out, text),
    }
}

fn counted_string(bytes: &[u8]) -> Result<(&str, usize), WireFault>
    ensures { Took (λ s. s.now) bytes.now result (string.read bytes.now) }
{
    let (text, rest) = read_string(bytes)?;
    Ok((text, bytes.len() - rest.len()))
}

/// The STRING at the front, and how many bytes it takes.
pub fn take_string(bytes: &[u8]) -> Result<(&str, usize), WireFault>
    // What is read is spelled so.
    ensures found { IfOk result (λ x. take x.1 bytes.now ≡ string.spell x.0.now) }
    // What is spelled so is read.
    ensures only { (s : List ℕ) (rest : List ℕ) → string.Fits s → bytes.now ≡ string.spell s ++ rest
        → IsOkAnd result (λ x. (x.0.now ≡ s) × (x.1 ≡ length (string.spell s))) }
    // Which fault it is.
    ensures exact { Took (λ s. s.now) bytes.now result (string.read bytes.now) }
{
    counted_string(bytes)
}

fn counted_nullable(bytes: &[u8]) -> Result<(Option<&str>, usize), WireFault>
    ensures { Took (option_map (λ s. s.now)) bytes.now result (nullable_string.read bytes.now) }
{
    let (text, rest) = read_nullable(bytes)?;
    Ok((text, bytes.len() - rest.len()))
}

/// The NULLABLE_STRING at the front, None where it is null, and how many bytes it takes.
pub fn take_nullable(bytes: &[u8]) -> Result<(Option<&str>, usize), WireFault>
    // What is read is spelled so.
    ensures found { IfOk result (λ x. take x.1 bytes.now ≡ nullable_string.spell (option_map (λ s. s.now) x.0)) }
    // What is spelled so is read.
    ensures only { (s : Option (List ℕ)) (rest : List ℕ) → nullable_string.Fits s → bytes.now ≡ nullable_string.spell s ++ rest
        → IsOkAnd result (λ x. (option_map (λ t. t.now) x.0 ≡ s) × (x.1 ≡ length (nullable_string.spell s))) }
    // Which fault it is.
    ensures exact { Took (option_map (λ s. s.now)) bytes.now result (nullable_string.read bytes.now) }
{
    counted_nullable(bytes)
}
