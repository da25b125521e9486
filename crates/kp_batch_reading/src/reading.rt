//! A batch out of bytes.

ghost use Rattle.std.specs.Prelude.{◌≡◌, List, ℕ, pos, nat_abs, IfOk, MatchResult};
ghost use Rattle.std.specs.Ordering.{int_eq};
ghost use Rattle.kp_batch.specs.declared.batch.Batch.{Batch as BatchValue};
ghost use Rattle.kp_batch.specs.Spelling.{Spells};
ghost use Rattle.kp_wire.specs.Reading.{Answers};
ghost use Rattle.kp_batch.specs.Reading.{Refuses, batch_at};

use crate::gathering::gather;
use crate::opening::open;
use kp_batch::{Batch, BatchFault, BatchHead, Front, Record, Summary};
use kp_wire::{ReadError, Seq, WireFault};
use std::alloc::Global;

/// How many records the batch says that it has.
fn count_of(summary: &Summary) -> u32
    ensures { result ≡ nat_abs summary.now.count }
{
    summary.count.unsigned_abs()
}

/// Whether the batch names this moment as its greatest.
fn names_greatest(summary: &Summary, greatest: u64) -> bool
    ensures { result ≡ int_eq summary.now.max_timestamp (pos greatest) }
{
    summary.max_timestamp >= 0 && summary.max_timestamp as u64 == greatest
}

fn batch_of(front: &Front, head: BatchHead, records: Seq<Record>) -> Batch
    ensures { result ≡ record { base_offset = front.now.base_offset; leader_epoch = front.now.leader_epoch; head = head; records = records } }
{
    Batch {
        base_offset: front.base_offset,
        leader_epoch: front.leader_epoch,
        head,
        records,
    }
}

/// The batch that the bytes spell, all of the bytes.
#[tactic(auto, unfolding(kp_batch::specs::Reading::batch_at))]
fn read_whole(alloc: Global, bytes: &[u8]) -> Result<Batch, BatchFault>
    ensures { Answers (Refuses bytes.now) (λ b. b) result (batch_at bytes.now) }
{
    let (front, summary, records) = open(bytes)?;
    let (gathered, rest) = match gather(alloc, &summary, count_of(&summary), records) {
        Ok(x) => x,
        Err(ReadError::Memory) => return Err(BatchFault::OutOfMemory),
        Err(ReadError::Fault(fault)) => return Err(BatchFault::BadRecord(fault)),
    };
    if !rest.is_empty() {
        return Err(BatchFault::BadRecord(WireFault::BadLength));
    }
    if !gathered.in_places {
        return Err(BatchFault::Deltas);
    }
    if !gathered.timed || !names_greatest(&summary, gathered.greatest) {
        return Err(BatchFault::Timestamps);
    }
    Ok(batch_of(&front, summary.head, gathered.records))
}

/// The batch that the bytes spell, all of the bytes; else the first fault. Where a growth was refused, it is
/// `OutOfMemory`, which comes only behind the faults up to `Count`.
pub fn read_batch(alloc: Global, bytes: &[u8]) -> Result<Batch, BatchFault>
    // What is read is spelled so.
    ensures found { IfOk result (Spells bytes.now) }

    // What is spelled so is read, unless memory is refused.
    ensures only { (b : BatchValue) → Spells bytes.now b
        → MatchResult result (λ x. x ≡ b) (λ fault. fault ≡ BatchFault.OutOfMemory) }

    // Which fault it is.
    ensures exact { Answers (Refuses bytes.now) (λ b. b) result (batch_at bytes.now) }
{
    read_whole(alloc, bytes)
}
