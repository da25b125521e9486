//! A batch offered to a log, and offered again.

ghost use Rattle.std.specs.Prelude.{◌≡◌, ◌<◌, ◌≤◌, length, MatchResult};
ghost use Rattle.kp_batch.specs.Spelling.{size_of_batch};

use crate::fault::PackFault;
use kp_batch::{BatchHead, Record, SIZE_LIMIT, write_batch};
use kp_log::{Answer, PartitionLog};
use std::alloc::Global;

/// The first batch of a producer.
const HEAD: BatchHead = BatchHead {
    producer_id: 1000,
    epoch: 0,
    base_sequence: 0,
};

/// A log that was offered a batch twice, and its answers.
#[derive(Drop)]
pub struct Offered {
    pub log: PartitionLog,
    pub first: Answer,
    pub repeat: Answer,
}

impl Offered {
    ghost use Rattle.kp_packing.specs.Offered.{StoredOnce};

    /// A new log that was offered the batch of these records twice.
    pub fn new(alloc: Global, records: &[Record]) -> Result<Offered, PackFault>
        requires some { 0 < length records.now }
        requires fits { size_of_batch records.now ≤ SIZE_LIMIT }
        ensures { MatchResult result (StoredOnce HEAD.producer_id records.now)
            (λ fault. fault ≡ PackFault.OutOfMemory) }
    {
        let batch = write_batch(alloc, HEAD, records)?;
        let mut log = PartitionLog::new(alloc);
        let first = log.offer(batch.as_slice())?;
        let repeat = log.offer(batch.as_slice())?;
        Ok(Offered { log, first, repeat })
    }
}
