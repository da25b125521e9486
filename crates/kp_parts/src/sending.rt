//! A partition's batch in a request, and its bytes.

ghost use Rattle.std.specs.Prelude.{◌≡◌, ◌<◌, ◌≤◌, ◌^◌, length, map, pos, IfOk};
ghost use Rattle.kp_batch.specs.Spelling.{Spells, written};
ghost use Rattle.kp_accum.specs.Queue.{body_of, size_of};
ghost use Rattle.kp_rules.specs.Framing.{data_of};
ghost use Rattle.kp_parts.specs.Written.{IsWritable};

use crate::handed::HandedBatch;
use kp_accum::Item;
use kp_batch::{BatchHead, SIZE_LIMIT, write_batch};
use kp_frames::PartitionProduceData;
use kp_wire::Blob;
use std::alloc::{AllocError, Global};
use std::marker::Model;

/// A partition's batch in a request.
#[derive(Debug, Drop)]
pub struct Sending<'a> {
    /// The partition's number, from 0.
    pub partition: u32,
    pub batch: HandedBatch<'a>,
}

impl<'a> Model for Sending<'a> {
    ghost use Rattle.kp_rules.specs.Next as next;

    ghost Value = { next.Sending };

    ghost view = { λ x. record { partition = x.partition; batch = x.batch } };
}

impl Sending<'_> {
    /// What the message says of it, with the bytes of the batch.
    pub fn partition_data(&self, alloc: Global) -> Result<PartitionProduceData, AllocError>
        requires { IsWritable self.now }
        ensures { IfOk result (λ d. d ≡ data_of self.now) }
    {
        let batch = &self.batch;
        let head = batch_head(batch.id(), batch.sequence());
        Ok(PartitionProduceData {
            partition: self.partition as i32,
            records: batch_bytes(alloc, head, batch.items())?,
        })
    }
}

/// The head of a batch under this producer id, whose first record has this sequence number.
pub(crate) fn batch_head(id: u64, sequence: u64) -> BatchHead
    requires id { id < 2 ^ 63 }
    requires sequence { sequence < 2 ^ 31 }
    ensures { result ≡ record {
      producer_id = pos id;
      epoch = pos 0;
      base_sequence = pos sequence;
    } }
{
    BatchHead {
        producer_id: id as i64,
        epoch: 0,
        base_sequence: sequence as i32,
    }
}

/// The batch of these items.
#[tactic(auto, unfolding(kp_accum::specs::Queue::size_of))]
pub(crate) fn batch_bytes(
    alloc: Global,
    head: BatchHead,
    items: &[Item],
) -> Result<Blob, AllocError>
    requires some { 0 < length items.now }
    requires fits { size_of items.now ≤ SIZE_LIMIT }
    ensures { IfOk result (λ bytes. Spells bytes (written head (map body_of items.now))) }
{
    Ok(Blob::new(write_batch(alloc, head, items)?))
}
