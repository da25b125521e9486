//! Bytes as text, and back.

use kp_cases::{StepFault, Words};
use kp_wire::Blob;
use std::fmt::Write;

/// Goes on with a list.
pub(crate) fn separate(out: &mut String) -> Result<(), StepFault> {
    Ok(out.push_str(if out.is_empty() { "" } else { "; " })?)
}

/// Bytes in hexadecimal; `-` is none at all.
pub(crate) fn put_bytes(out: &mut String, bytes: &[u8]) -> Result<(), StepFault> {
    if bytes.is_empty() {
        return Ok(out.push_str("-")?);
    }
    for byte in bytes {
        write!(out, "{byte:02x}")?;
    }
    Ok(())
}

/// The same, or this word where there are none to be told.
pub(crate) fn put_bytes_or(
    out: &mut String,
    bytes: &Option<Blob>,
    none: &str,
) -> Result<(), StepFault> {
    match bytes {
        Some(bytes) => put_bytes(out, bytes.as_slice()),
        None => Ok(out.push_str(none)?),
    }
}

/// The next word: bytes in hexadecimal, or `none`.
pub(crate) fn bytes_or_none(words: &mut Words<'_>) -> Result<Option<Blob>, StepFault> {
    match words.word()? {
        "none" => Ok(None),
        "some" => Ok(Some(Blob::new(words.bytes()?))),
        _ => Err(StepFault::NotUnderstood),
    }
}

/// A text of lines, each behind `NAME: `, with `; ` between them.
pub(crate) fn put_lines(out: &mut String, name: &str, text: &[u8]) -> Result<(), StepFault> {
    let text = std::str::from_utf8(text).map_err(|_| "it is no text")?;
    for line in text.lines() {
        separate(out)?;
        write!(out, "{name}: {line}")?;
    }
    Ok(())
}
