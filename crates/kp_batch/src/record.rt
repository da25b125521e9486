//! A record as its sender made it.

ghost use Rattle.std.specs.Prelude.{◌≡◌, ◌<◌, ◌^◌, ℕ, ◌↔◌, pos, ◌≤ℤ◌, IsSome, IfSome, IfOk};

use kp_wire::{Blob, Seq, Text};
use std::alloc::{AllocError, Global};
use std::marker::Model;

/// A moment in milliseconds since the beginning of 1970, and never before it: seen as that number.
#[derive(Clone, Copy, Debug, PartialEq, Eq, PartialOrd, Ord)]
pub struct Timestamp {
    millis: u64,
}

impl Model for Timestamp {
    ghost Value = { ℕ };

    ghost view = { λ t. t.millis };

    ghost invariant = { λ t. t.millis < 2 ^ 63 };

    ghost inverse = { λ n. record { millis = n } };
}

impl Timestamp {
    /// The moment so many milliseconds after the beginning of 1970; none below 0.
    pub fn from_millis(millis: i64) -> Option<Timestamp>
        ensures known { IsSome result ↔ (pos 0 ≤ℤ millis) }
        ensures value { IfSome result (λ t. millis ≡ pos t) }
    {
        if millis < 0 {
            return None;
        }
        Some(Timestamp {
            millis: millis.unsigned_abs(),
        })
    }

    /// The milliseconds since the beginning of 1970.
    pub fn millis(self) -> i64
        ensures value { result ≡ pos self }
        ensures fits { self < 2 ^ 63 }
    {
        self.millis as i64
    }
}

/// A name and a value that go with a record. One name may stand several times.
#[derive(Debug, Drop)]
pub struct Header {
    pub key: Text,
    /// None is Kafka's null.
    pub value: Option<Blob>,
}

impl Header {
    /// An equal header of its own memory.
    pub fn copy(&self, alloc: Global) -> Result<Header, AllocError>
        ensures { IfOk result (λ h. h ≡ self.now) }
    {
        Ok(Header {
            key: Text::from_str(alloc, self.key.as_str())?,
            value: copy_of(alloc, &self.value)?,
        })
    }
}

/// What a sender hands over: Kafka's record.
#[derive(Debug, Drop)]
pub struct Record {
    pub timestamp: Timestamp,
    /// None is Kafka's null.
    pub key: Option<Blob>,
    /// None is Kafka's null.
    pub value: Option<Blob>,
    pub headers: Seq<Header>,
}

impl Record {
    /// An equal record of its own memory.
    pub fn copy(&self, alloc: Global) -> Result<Record, AllocError>
        ensures { IfOk result (λ r. r ≡ self.now) }
    {
        Ok(Record {
            timestamp: self.timestamp,
            key: copy_of(alloc, &self.key)?,
            value: copy_of(alloc, &self.value)?,
            headers: copy_of_headers(alloc, self.headers.as_slice())?,
        })
    }
}

fn copy_of(alloc: Global, bytes: &Option<Blob>) -> Result<Option<Blob>, AllocError>
    ensures { IfOk result (λ copy. copy ≡ bytes.now) }
{
    match bytes {
        None => Ok(None),
        Some(bytes) => Ok(Some(Blob::from_slice(alloc, bytes.as_slice())?)),
    }
}

fn copy_of_headers(alloc: Global, headers: &[Header]) -> Result<Seq<Header>, AllocError>
    ensures { IfOk result (λ copy. copy ≡ headers.now) }
{
    let mut copy = Vec::with_capacity(alloc, headers.len())?;
    for header in headers {
        copy.push(header.copy(alloc)?)?;
    }
    Ok(Seq::new(copy))
}
