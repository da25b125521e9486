//! Records are made of the bytes of C.

ghost use Rattle.std.specs.Prelude.{◌≡◌, ◌++◌, ◌∷◌, [], pos, take, drop, IfOk, IfSome, OnOk};
ghost use Rattle.kp_c.specs.Records.{given, headers_in, header_at, behind};

use crate::status::Refusal;
use crate::values::KpSpan;
use kp_batch::{Header, Record, Timestamp};
use kp_wire::{Blob, Seq, Text};
use std::alloc::{AllocError, Global};

/// The record of these parts.
#[inline(always)]
pub(crate) fn record_of(
    alloc: Global,
    timestamp_ms: i64,
    has_key: bool,
    key: &[u8],
    has_value: bool,
    value: &[u8],
    headers: Seq<Header>,
) -> Result<Record, Refusal>
    ensures timestamp { IfOk result (λ r. timestamp_ms ≡ pos r.timestamp) }
    ensures key { IfOk result (λ r. r.key ≡ given has_key key.now) }
    ensures value { IfOk result (λ r. r.value ≡ given has_value value.now) }
    ensures headers { IfOk result (λ r. r.headers ≡ headers) }
{
    let Some(timestamp) = Timestamp::from_millis(timestamp_ms) else {
        return Err(Refusal::Timestamp);
    };
    Ok(Record {
        timestamp,
        key: bytes_or_null(alloc, has_key, key)?,
        value: bytes_or_null(alloc, has_value, value)?,
        headers,
    })
}

#[inline]
fn bytes_or_null(alloc: Global, is_there: bool, bytes: &[u8]) -> Result<Option<Blob>, AllocError>
    ensures { IfOk result (λ copy. copy ≡ given is_there bytes.now) }
{
    if !is_there {
        return Ok(None);
    }
    Ok(Some(Blob::from_slice(alloc, bytes)?))
}

/// The headers whose names and values stand one after the other, by their lengths.
pub(crate) fn headers_of(
    alloc: Global,
    spans: &[KpSpan],
    bytes: &[u8],
) -> Result<Seq<Header>, Refusal>
    ensures { IfOk result (λ headers. headers ≡ headers_in spans.now bytes.now) }
{
    let mut headers = Vec::with_capacity(alloc, spans.len())?;
    let mut rest = bytes;
    for span in spans {
        match put_header(alloc, &mut headers, span, rest) {
            Ok(others) => rest = others,
            Err(refusal) => return Err(refusal),
        }
    }
    if !rest.is_empty() {
        return Err(Refusal::Lengths);
    }
    Ok(Seq::new(headers))
}

/// The header at the front of the bytes joins the others: what stands behind it.
fn put_header<'a>(
    alloc: Global,
    headers: &mut Vec<Header>,
    span: &KpSpan,
    bytes: &'a [u8],
) -> Result<&'a [u8], Refusal>
    ensures put { OnOk result (headers.new.items ≡ headers.old.items ++ header_at span.now bytes.now ∷ []) }
    ensures rest { IfOk result (λ rest. rest.now ≡ behind span.now bytes.now) }
{
    match header_of(alloc, span, bytes) {
        Ok((header, rest)) => match headers.push(header) {
            Ok(()) => Ok(rest),
            Err(_) => Err(Refusal::OutOfMemory),
        },
        Err(refusal) => Err(refusal),
    }
}

/// The header at the front of the bytes, and what stands behind it.
fn header_of<'a>(
    alloc: Global,
    span: &KpSpan,
    bytes: &'a [u8],
) -> Result<(Header, &'a [u8]), Refusal>
    ensures header { IfOk result (λ x. x.0 ≡ header_at span.now bytes.now) }
    ensures rest { IfOk result (λ x. x.1.now ≡ behind span.now bytes.now) }
{
    let Some((name, rest)) = front_of(bytes, span.name_len) else {
        return Err(Refusal::Lengths);
    };
    let value_len = if span.has_value { span.value_len } else { 0 };
    let Some((value, rest)) = front_of(rest, value_len) else {
        return Err(Refusal::Lengths);
    };
    let Ok(name) = str::from_utf8(name) else {
        return Err(Refusal::Lengths);
    };
    let Ok(key) = Text::from_str(alloc, name) else {
        return Err(Refusal::OutOfMemory);
    };
    let Ok(value) = bytes_or_null(alloc, span.has_value, value) else {
        return Err(Refusal::OutOfMemory);
    };
    Ok((Header { key, value }, rest))
}

/// The first bytes, so many, and those behind them.
pub(crate) fn front_of(bytes: &[u8], count: u64) -> Option<(&[u8], &[u8])>
    ensures { IfSome result (λ x. (x.0.now ≡ take count bytes.now) × (x.1.now ≡ drop count bytes.now)) }
{
    if count > bytes.len() as u64 {
        return None;
    }
    Some(bytes.split_at(count as usize))
}
