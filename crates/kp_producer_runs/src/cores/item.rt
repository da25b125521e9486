//! Items as words.

use kp_accum::Item;
use kp_batch::{BatchFault, Record};
use kp_batch_reading::read_batch;
use kp_cases::{StepFault, Words};
use std::alloc::Global;

/// The last record of a batch.
fn record_of(alloc: Global, bytes: &[u8]) -> Result<Record, StepFault> {
    match read_batch(alloc, bytes) {
        Ok(batch) => Ok(batch.records.into_vec().pop().ok_or("no record")?),
        Err(BatchFault::OutOfMemory) => Err(StepFault::OutOfMemory),
        Err(_) => Err("bytes that are no batch".into()),
    }
}

/// The item of these words, `SENDER PARTITION NUMBER BATCH`, accepted at this moment.
pub(crate) fn item_of(alloc: Global, at: u64, words: &mut Words<'_>) -> Result<Item, StepFault> {
    Ok(Item {
        sender: words.number()?,
        partition: words.number()?,
        number: words.number()?,
        at,
        body: record_of(alloc, &words.bytes()?)?,
    })
}
