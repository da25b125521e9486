//! A batch as its reader sees it.

use crate::record::Record;
use kp_wire::Seq;

/// Whose batch it is, and where it stands in that producer's sequence (KIP-98).
#[derive(Clone, Copy, Debug, PartialEq, Eq)]
pub struct BatchHead {
    pub producer_id: i64,
    pub epoch: i16,
    /// The number of the batch's first record among the producer's records for the partition, from 0.
    pub base_sequence: i32,
}

/// Records in their order, and what stands before them.
#[derive(Debug, Drop)]
pub struct Batch {
    /// A writer's 0; the broker puts the offset here.
    pub base_offset: i64,
    /// A writer's -1; the broker puts its own here.
    pub leader_epoch: i32,
    pub head: BatchHead,
    pub records: Seq<Record>,
}
