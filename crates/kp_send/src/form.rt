//! How a line is made into a record.

ghost use Rattle.std.specs.Prelude.{◌≡◌, IfOk};
ghost use Rattle.std.specs.Option.{option_map};
ghost use Rattle.kp_send.specs.Form.{Cuts, IsCut, IsRecordOf, value_of};

use kp_batch::{Header, Record, Timestamp};
use kp_embed::Target;
use kp_wire::{Blob, Seq};
use memchr::memmem;
use std::alloc::{AllocError, Global};

/// How lines are made into records.
#[derive(Debug, Drop)]
pub struct Form {
    /// Where each record goes.
    pub target: Target,
    /// What stands between a line's key and its value; a line without it has no key. None: no line has one.
    pub key_delimiter: Option<Blob>,
    /// Whether a value without a byte is Kafka's null.
    pub null_values: bool,
    /// The headers of each record.
    pub headers: Seq<Header>,
}

impl Form {
    /// A line's record.
    pub fn record_of(
        &self,
        alloc: Global,
        timestamp: Timestamp,
        line: &[u8],
    ) -> Result<Record, AllocError>
        ensures { IfOk result (IsRecordOf self.now timestamp line.now) }
    {
        let (key, value) = self.cut(line);
        Ok(Record {
            timestamp,
            key: copy_of(alloc, key)?,
            value: copy_of(alloc, self.value_of(value))?,
            headers: copy_of_headers(alloc, self.headers.as_slice())?,
        })
    }

    /// A line's key and its value.
    fn cut<'a>(&self, line: &'a [u8]) -> (Option<&'a [u8]>, &'a [u8])
        ensures { IsCut self.now.key_delimiter line.now
            (option_map (λ key. key.now) result.0) result.1.now }
    {
        let Some(delimiter) = &self.key_delimiter else {
            return (None, line);
        };
        cut(delimiter.as_slice(), line)
    }

    /// A value, or Kafka's null.
    fn value_of<'a>(&self, value: &'a [u8]) -> Option<&'a [u8]>
        ensures { option_map (λ v. v.now) result ≡ value_of self.now.null_values value.now }
    {
        if self.null_values && value.is_empty() {
            None
        } else {
            Some(value)
        }
    }
}

/// What stands before the first delimiter, and what behind it; or all of the line.
fn cut<'a>(delimiter: &[u8], line: &'a [u8]) -> (Option<&'a [u8]>, &'a [u8])
    ensures { Cuts delimiter.now line.now (option_map (λ key. key.now) result.0) result.1.now }
{
    match memmem::find(line, delimiter) {
        Some(at) => (Some(&line[..at]), &line[at + delimiter.len()..]),
        None => (None, line),
    }
}

/// A copy of bytes, or Kafka's null.
fn copy_of(alloc: Global, bytes: Option<&[u8]>) -> Result<Option<Blob>, AllocError>
    ensures { IfOk result (λ copy. copy ≡ option_map (λ b. b.now) bytes.entry) }
{
    match bytes {
        Some(bytes) => Ok(Some(Blob::from_slice(alloc, bytes)?)),
        None => Ok(None),
    }
}

fn copy_of_headers(alloc: Global, headers: &[Header]) -> Result<Seq<Header>, AllocError>
    ensures { IfOk result (λ copy. copy ≡ headers.now) }
{
    let mut copy = Vec::with_capacity(alloc, headers.len())?;
    for header in headers {
        copy.push(header.copy(alloc)?)?;
    }
    Ok(Seq::new(copy))
}
