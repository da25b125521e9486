//! The fields of a header, out of bytes.

ghost use Rattle.std.specs.Prelude.{◌≡◌, length, option_map, IfOk};
ghost use Rattle.kp_wire.specs.Reading.{IsRead};
ghost use Rattle.kp_wire.specs.Codec.{by_length, by_nullable_length, within, plain, utf8};
ghost use Rattle.kp_batch.specs.Record.{length_field, bytes_or_null, text, header};

use crate::record::Header;
use kp_wire::{
    Blob, ReadError, ReadField, Text, WireFault, end_before, read_bytes, read_utf8, read_varint,
};
use std::alloc::{AllocError, Global};

/// A length at the front, behind which `after` bytes stand or more.
#[inline]
#[tactic(auto, unfolding(crate::specs::Record::length_field))]
pub fn read_length(bytes: &[u8], after: usize) -> Result<(i32, &[u8]), WireFault>
    ensures { IsRead (λ x. (x.0, x.1.now)) result ((length_field after).read bytes.now) }
{
    end_before(read_varint(bytes)?, after)
}

fn read_bytes_within(bytes: &[u8], len: usize, after: usize) -> Result<(&[u8], &[u8]), WireFault>
    ensures { IsRead (λ x. (x.0.now, x.1.now)) result ((within after (plain len)).read bytes.now) }
{
    let (front, rest) = read_bytes(bytes, len)?;
    if rest.len() < after {
        return Err(WireFault::BadLength);
    }
    Ok((front, rest))
}

fn read_utf8_within(bytes: &[u8], len: usize, after: usize) -> Result<(&str, &[u8]), WireFault>
    ensures { IsRead (λ x. (x.0.now, x.1.now)) result ((within after (utf8 len)).read bytes.now) }
{
    let (front, rest) = read_utf8(bytes, len)?;
    if rest.len() < after {
        return Err(WireFault::BadLength);
    }
    Ok((front, rest))
}

/// The bytes that stand behind their length, or None behind a length of -1.
#[inline]
#[tactic(auto, unfolding(kp_wire::specs::Codec::by_nullable_length))]
fn read_bytes_by(bytes: &[u8], len: i32, after: usize) -> Result<(Option<&[u8]>, &[u8]), WireFault>
    ensures { IsRead (λ x. (option_map (λ s. s.now) x.0, x.1.now)) result (by_nullable_length (λ n. (within after (plain n)).read) len bytes.now) }
{
    if len < -1 {
        return Err(WireFault::BadLength);
    }
    if len == -1 {
        return Ok((None, bytes));
    }
    let (front, rest) = read_bytes_within(bytes, len as usize, after)?;
    Ok((Some(front), rest))
}

/// The bytes behind their length at the front, or None behind a length of -1, with `after` bytes behind them or more.
#[inline]
#[tactic(auto, unfolding(crate::specs::Record::bytes_or_null))]
pub fn read_bytes_or_null(bytes: &[u8], after: usize) -> Result<(Option<&[u8]>, &[u8]), WireFault>
    ensures { IsRead (λ x. (option_map (λ s. s.now) x.0, x.1.now)) result ((bytes_or_null after).read bytes.now) }
{
    let (len, rest) = read_length(bytes, after)?;
    read_bytes_by(rest, len, after)
}

/// A copy of the bytes, where there are any.
#[inline]
pub fn copied(alloc: Global, bytes: Option<&[u8]>) -> Result<Option<Blob>, AllocError>
    ensures { IfOk result (λ copy. copy ≡ option_map (λ s. s.now) bytes.entry) }
{
    match bytes {
        None => Ok(None),
        Some(bytes) => Ok(Some(Blob::from_slice(alloc, bytes)?)),
    }
}

/// The text that stands behind its length.
#[tactic(auto, unfolding(kp_wire::specs::Codec::by_length))]
fn read_text_by(bytes: &[u8], len: i32, after: usize) -> Result<(&str, &[u8]), WireFault>
    ensures { IsRead (λ x. (x.0.now, x.1.now)) result (by_length (λ n. (within after (utf8 n)).read) len bytes.now) }
{
    if len < 0 {
        return Err(WireFault::BadLength);
    }
    read_utf8_within(bytes, len as usize, after)
}

#[tactic(auto, unfolding(crate::specs::Record::text))]
fn read_text(bytes: &[u8], after: usize) -> Result<(&str, &[u8]), WireFault>
    ensures { IsRead (λ x. (x.0.now, x.1.now)) result ((text after).read bytes.now) }
{
    let (len, rest) = read_length(bytes, after)?;
    read_text_by(rest, len, after)
}

impl ReadField for Header {
    ghost reads = { λ after. (header after).read };

    #[tactic(auto, unfolding(crate::specs::Record::header))]
    fn read(alloc: Global, bytes: &[u8], after: usize) -> Result<(Self, &[u8]), ReadError> {
        let (key, rest) = read_text(bytes, after)?;
        let (value, rest) = read_bytes_or_null(rest, after)?;
        let header = Header {
            key: Text::from_str(alloc, key)?,
            value: copied(alloc, value)?,
        };
        Ok((header, rest))
    }
}
