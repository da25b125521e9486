//! What is seen of a producer: whether it takes lines, and why it never will.

use crate::words::{put_refusal, put_spent};
use kp_drive::{Embed, Phase, SendFault};
use kp_rules::{Meaning, meaning_of};
use std::alloc::AllocError;

/// The least memory of records that are queued, in bytes, at which the input is not read on at once.
const ENOUGH: u64 = 524_288;

/// Whether brokers that have refused a producer with this code may take it later: they do not know its topic yet, or have no leader,
/// or what gives producer ids is not ready.
fn may_get_better(code: i16) -> bool {
    meaning_of(code) == Meaning::Retry || matches!(code, 14 | 15 | 16 | 51)
}

/// The error code for which nothing will be sent, where brokers have answered one that does not get better.
fn refusal(producer: &Embed) -> Option<i16> {
    match producer.statistics().refused {
        Some(code) if producer.phase() != Phase::Ready && !may_get_better(code) => Some(code),
        _ => None,
    }
}

/// Whether every correlation id was used, so that nothing can be sent any more.
pub(crate) fn is_spent(producer: &Embed) -> bool {
    producer.phase() == Phase::Spent
}

/// Whether a line that is refused so is to stay the next one: there will be room, or a broker that is ready; or the stream is
/// given up before it.
pub(crate) fn stays(producer: &Embed, fault: SendFault) -> bool {
    match fault {
        SendFault::BufferFull => true,
        SendFault::Spent => is_spent(producer),
        SendFault::NotReady => producer.phase() != Phase::Failed && refusal(producer).is_none(),
        _ => false,
    }
}

/// Whether so much is queued that no request waits for more lines: two batches for each partition, and `ENOUGH`. What is queued
/// for longer only leaves the processor's caches.
pub(crate) fn has_enough(producer: &Embed, batch_size: u64) -> bool {
    let seen = producer.statistics();
    let partitions = producer.partitions() as u64;
    let batches = batch_size.saturating_mul(2).saturating_mul(partitions);
    match seen.buffer_used.checked_div(seen.untold) {
        Some(each) => each.saturating_mul(producer.records_queued()) >= batches.max(ENOUGH),
        None => false,
    }
}

/// Puts why nothing will be sent, where that is known: whether it is.
pub(crate) fn put_why(producer: &Embed, text: &mut Vec<u8>) -> Result<bool, AllocError> {
    if let Some(code) = refusal(producer) {
        put_refusal(text, code)?;
        return Ok(true);
    }
    if is_spent(producer) {
        put_spent(text)?;
        return Ok(true);
    }
    Ok(false)
}
