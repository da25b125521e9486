//! Lines as records.

use crate::sends::texts::{bytes_or_none, put_bytes_or};
use kp_batch::{Header, Record, Timestamp};
use kp_cases::{StepFault, Words};
use kp_embed::Target;
use kp_send::Form;
use kp_wire::{Blob, Seq, Text};
use std::alloc::Global;
use std::fmt::Write;

/// A form that changes nothing of a line.
pub(crate) fn plain(alloc: Global) -> Form {
    Form {
        target: Target::Any,
        key_delimiter: None,
        null_values: false,
        headers: Seq::new(Vec::new(alloc)),
    }
}

/// A header: its name and its value in hexadecimal.
fn header_of(alloc: Global, words: &mut Words<'_>) -> Result<Header, StepFault> {
    let key = Text::from_str(alloc, words.word()?)?;
    let value = Some(Blob::new(words.bytes()?));
    Ok(Header { key, value })
}

/// So many headers as the next word says.
fn headers_of(alloc: Global, words: &mut Words<'_>) -> Result<Vec<Header>, StepFault> {
    let mut headers = Vec::new(alloc);
    for _ in 0..words.number::<u32>()? {
        headers.push(header_of(alloc, words)?)?;
    }
    Ok(headers)
}

/// The form of these words: its delimiter, `nulls` or `values`, and its headers.
pub(crate) fn form_of(alloc: Global, words: &mut Words<'_>) -> Result<Form, StepFault> {
    let key_delimiter = bytes_or_none(words)?;
    let null_values = match words.word()? {
        "nulls" => true,
        "values" => false,
        _ => return Err(StepFault::NotUnderstood),
    };
    Ok(Form {
        target: Target::Any,
        key_delimiter,
        null_values,
        headers: Seq::new(headers_of(alloc, words)?),
    })
}

/// A record: `MOMENT KEY VALUE`, and `NAME=VALUE` for each header.
fn put_parts(record: &Record, came: &mut String) -> Result<(), StepFault> {
    write!(came, "{} ", record.timestamp.millis())?;
    put_bytes_or(came, &record.key, "null")?;
    came.push_str(" ")?;
    put_bytes_or(came, &record.value, "null")?;
    for header in record.headers.as_slice() {
        write!(came, " {}=", header.key.as_str())?;
        put_bytes_or(came, &header.value, "null")?;
    }
    Ok(())
}

/// Tells the record of a line at a moment.
pub(crate) fn put_record(
    alloc: Global,
    form: &Form,
    words: &mut Words<'_>,
    came: &mut String,
) -> Result<(), StepFault> {
    let timestamp = Timestamp::from_millis(words.number()?).ok_or("there is no such moment")?;
    let line = words.bytes()?;
    put_parts(&form.record_of(alloc, timestamp, &line)?, came)
}
