//! What stands before a batch's records, and the faults that are found there.

ghost use Rattle.std.specs.Prelude.{◌≡◌, ◌+◌, length, IsErrOf};
ghost use Rattle.kp_wire.specs.Reading.{IsRead};
ghost use Rattle.kp_batch.specs.Spelling.{front, head, summary};
ghost use Rattle.kp_batch.specs.Reading.{is_short, is_misfit, is_counted, opened, opened_of};

use kp_batch::layout::{LENGTH_END, MAGIC, RECORDS_AT};
use kp_batch::{BatchFault, BatchHead, Front, Summary};
use kp_wire::{WireFault, crc32c, read_i8, read_i16, read_i32, read_i64, read_u32};

/// The batch length of a batch that has no record.
const LEAST_LENGTH: i32 = (RECORDS_AT - LENGTH_END) as i32;

#[tactic(auto, unfolding(kp_batch::specs::Spelling::front))]
fn read_front(bytes: &[u8]) -> Result<(Front, &[u8]), WireFault>
    ensures { IsRead (λ x. (x.0, x.1.now)) result (front.read bytes.now) }
{
    let (base_offset, rest) = read_i64(bytes)?;
    let (batch_length, rest) = read_i32(rest)?;
    let (leader_epoch, rest) = read_i32(rest)?;
    let (magic, rest) = read_i8(rest)?;
    let (checksum, rest) = read_u32(rest)?;
    let front = Front {
        base_offset,
        batch_length,
        leader_epoch,
        magic,
        checksum,
    };
    Ok((front, rest))
}

#[tactic(auto, unfolding(kp_batch::specs::Spelling::head))]
fn read_head(bytes: &[u8]) -> Result<(BatchHead, &[u8]), WireFault>
    ensures { IsRead (λ x. (x.0, x.1.now)) result (head.read bytes.now) }
{
    let (producer_id, rest) = read_i64(bytes)?;
    let (epoch, rest) = read_i16(rest)?;
    let (base_sequence, rest) = read_i32(rest)?;
    let head = BatchHead {
        producer_id,
        epoch,
        base_sequence,
    };
    Ok((head, rest))
}

#[tactic(auto, unfolding(kp_batch::specs::Spelling::summary))]
fn read_summary(bytes: &[u8]) -> Result<(Summary, &[u8]), WireFault>
    ensures { IsRead (λ x. (x.0, x.1.now)) result (summary.read bytes.now) }
{
    let (attributes, rest) = read_i16(bytes)?;
    let (last_offset_delta, rest) = read_i32(rest)?;
    let (base_timestamp, rest) = read_i64(rest)?;
    let (max_timestamp, rest) = read_i64(rest)?;
    let (head, rest) = read_head(rest)?;
    let (count, rest) = read_i32(rest)?;
    let summary = Summary {
        attributes,
        last_offset_delta,
        base_timestamp,
        max_timestamp,
        head,
        count,
    };
    Ok((summary, rest))
}

#[tactic(auto, unfolding(kp_batch::specs::Reading::is_short))]
fn is_short(front: &Front, size: usize) -> bool
    ensures { result ≡ is_short front.now size }
{
    front.batch_length >= LEAST_LENGTH && size < front.batch_length as usize + LENGTH_END
}

#[tactic(auto, unfolding(kp_batch::specs::Reading::is_misfit))]
fn is_misfit(front: &Front, size: usize) -> bool
    ensures { result ≡ is_misfit front.now size }
{
    front.batch_length < LEAST_LENGTH || front.batch_length as usize + LENGTH_END < size
}

#[tactic(auto, unfolding(kp_batch::specs::Reading::is_counted))]
fn is_counted(summary: &Summary) -> bool
    ensures { result ≡ is_counted summary.now }
{
    summary.count >= 1 && summary.last_offset_delta == summary.count - 1
}

/// What stands before the records, and the bytes of the records.
#[tactic(auto, unfolding(kp_batch::specs::Reading::opened))]
pub(crate) fn open(bytes: &[u8]) -> Result<(Front, Summary, &[u8]), BatchFault>
    ensures exact { IsRead (λ x. opened_of x.0 x.1 x.2.now) result (opened bytes.now) }
    ensures no_memory { IsErrOf result BatchFault.OutOfMemory → ⊥ }
{
    let Ok((front, covered)) = read_front(bytes) else {
        return Err(BatchFault::Short);
    };
    let Ok((summary, records)) = read_summary(covered) else {
        return Err(BatchFault::Short);
    };
    if is_short(&front, bytes.len()) {
        return Err(BatchFault::Short);
    }
    if is_misfit(&front, bytes.len()) {
        return Err(BatchFault::Length);
    }
    if front.magic != MAGIC {
        return Err(BatchFault::Magic);
    }
    if crc32c(covered) != front.checksum {
        return Err(BatchFault::Checksum);
    }
    if summary.attributes != 0 {
        return Err(BatchFault::Attributes);
    }
    if !is_counted(&summary) {
        return Err(BatchFault::Count);
    }
    Ok((front, summary, records))
}
