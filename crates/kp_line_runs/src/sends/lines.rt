//! A stream that is cut into lines, chunk by chunk.

use crate::sends::texts::put_bytes;
use kp_cases::{StepFault, put, refused, seen_of};
use kp_lines::{Line, LineFault, Lines};
use std::fmt::Write;

/// A line, as `NUMBER:BYTES`.
fn put_line(line: &Line, came: &mut String) -> Result<(), StepFault> {
    if !came.is_empty() {
        came.push_str(" ")?;
    }
    write!(came, "{}:", line.number)?;
    put_bytes(came, &line.bytes)
}

/// The next line of a chunk, and what stands behind it.
fn next_line<'a>(
    lines: &mut Lines,
    chunk: &'a [u8],
) -> Result<Option<(Line, &'a [u8])>, StepFault> {
    let before = seen_of(lines);
    match lines.next_line(chunk) {
        Ok(told) => Ok(told),
        Err(LineFault::OutOfMemory) => Err(refused(seen_of(lines) == before)),
        Err(LineFault::Spent) => Err("every number was used".into()),
    }
}

/// Takes a chunk, and tells its lines.
pub(crate) fn take(lines: &mut Lines, chunk: &[u8], came: &mut String) -> Result<(), StepFault> {
    let mut rest = chunk;
    for _ in 0..=chunk.len() {
        let Some((line, behind)) = next_line(lines, rest)? else {
            return Ok(());
        };
        put_line(&line, came)?;
        rest = behind;
    }
    Err("a line takes nothing of its chunk".into())
}

/// Ends the stream, and tells its last line, if that has no delimiter.
pub(crate) fn finish(lines: Lines, came: &mut String) -> Result<(), StepFault> {
    match lines.finish() {
        Some(line) => put_line(&line, came),
        None => put(came, &"none"),
    }
}
