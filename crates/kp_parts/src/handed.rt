//! A batch that was handed over, or may be, as it goes out.

ghost use Rattle.std.specs.Prelude.{◌≡◌, ◌≤◌, ◌<◌, length};
ghost use Rattle.kp_accum.specs.Queue.{size_of};

use kp_accum::{Item, Pending};
use kp_batch::SIZE_LIMIT;
use std::marker::Model;

/// A batch that was handed over, or may be, as it goes out: its items stay where they stand.
#[derive(Debug, Drop)]
pub struct HandedBatch<'a> {
    number: u64,
    id: u64,
    sequence: u64,
    batch: &'a Pending,
}

impl<'a> Model for HandedBatch<'a> {
    ghost use Rattle.kp_rules.specs.Records as seen;

    ghost Value = { seen.HandedBatch };

    ghost view = { λ b. record { number = b.number; id = b.id; sequence = b.sequence; items = b.batch.now.items } };
}

impl<'a> HandedBatch<'a> {
    /// The batch that would get this number, this id and this sequence.
    pub fn new(number: u64, id: u64, sequence: u64, batch: &'a Pending) -> HandedBatch<'a>
        ensures number { result.number ≡ number }
        ensures id { result.id ≡ id }
        ensures sequence { result.sequence ≡ sequence }
        ensures items { result.items ≡ batch.now.items }
    {
        HandedBatch {
            number,
            id,
            sequence,
            batch,
        }
    }

    pub fn id(&self) -> u64
        ensures { result ≡ self.now.id }
    {
        self.id
    }

    pub fn sequence(&self) -> u64
        ensures { result ≡ self.now.sequence }
    {
        self.sequence
    }

    /// Its items, in the order in which they were appended.
    pub fn items(&self) -> &[Item]
        ensures value { result.now ≡ self.now.items }
        ensures some { 0 < length self.now.items }
    {
        let batch = self.batch;
        batch.items()
    }

    /// Its size, in bytes.
    pub fn size(&self) -> u64
        ensures value { result ≡ size_of self.now.items }
        ensures fits { result ≤ SIZE_LIMIT }
    {
        let batch = self.batch;
        batch.size()
    }
}
