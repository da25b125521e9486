//! Works of a partition log.

use crate::samples::record_of;
use kp_batch::{BatchHead, Record, SIZE_LIMIT, batch_size, write_batch};
use kp_batch_reading::read_batch;
use kp_log::{PartitionLog, Stored};
use std::alloc::{AllocError, Global};
use std::mem;

const PRODUCER_ID: i64 = 1000;

/// How many records a batch has.
const RECORDS: u32 = 100;

/// So many batches keep the sequence numbers below 2^31.
const BATCHES: u32 = 20_000_000;

/// How often a record is looked up.
const LOOKS: u32 = 100_000;

/// How far apart two records are that are looked up one after the other.
const STRIDE: u64 = 999_983;

fn records_of(alloc: Global) -> Result<Vec<Record>, AllocError> {
    let mut records = Vec::new(alloc);
    for _ in 0..RECORDS {
        records.push(record_of(alloc)?)?;
    }
    Ok(records)
}

/// The bytes of the producer's batch with this number, from 0.
fn batch_bytes(alloc: Global, records: &[Record], number: u32) -> Result<Vec<u8>, AllocError> {
    if records.is_empty() || batch_size(records) > SIZE_LIMIT {
        return Err(AllocError);
    }
    let head = BatchHead {
        producer_id: PRODUCER_ID,
        epoch: 0,
        base_sequence: (number % BATCHES * RECORDS) as i32,
    };
    write_batch(alloc, head, records)
}

/// The bytes of so many batches, one after the other.
pub(crate) fn spells(alloc: Global, batches: u32) -> Result<u64, AllocError> {
    let records = records_of(alloc)?;
    let mut sum = 0u64;
    for number in 0..batches {
        sum = sum.wrapping_add(batch_bytes(alloc, &records, number)?.len() as u64);
    }
    Ok(sum)
}

fn offer(log: &mut PartitionLog, bytes: &[u8]) -> Result<(), AllocError> {
    match log.offer(bytes) {
        Ok(_) => Ok(()),
        Err(_) => Err(AllocError),
    }
}

/// Offers so many batches to a log, each written as it is offered.
fn offer_all(
    alloc: Global,
    log: &mut PartitionLog,
    records: &[Record],
    batches: u32,
) -> Result<(), AllocError> {
    for number in 0..batches {
        offer(log, &batch_bytes(alloc, records, number)?)?;
    }
    Ok(())
}

/// A log to which so many batches were offered.
fn log_of(alloc: Global, batches: u32) -> Result<PartitionLog, AllocError> {
    let records = records_of(alloc)?;
    let mut log = PartitionLog::new(alloc);
    offer_all(alloc, &mut log, &records, batches)?;
    Ok(log)
}

/// The length of a log to which so many batches were offered. It is not dropped, even at the end.
pub(crate) fn offers(alloc: Global, batches: u32) -> Result<u64, AllocError> {
    let log = log_of(alloc, batches)?;
    let length = log.len();
    mem::forget(log);
    Ok(length)
}

/// The sum of the producer ids of records of a log to which so many batches were offered, looked up all over it.
pub(crate) fn looks(alloc: Global, batches: u32) -> Result<u64, AllocError> {
    let log = log_of(alloc, batches)?;
    let length = log.len();
    let mut sum = 0u64;
    let mut offset = 0u64;
    for _ in 0..LOOKS {
        if let Some(stored) = log.get(offset) {
            sum = sum.wrapping_add(stored.producer_id.unsigned_abs());
        }
        offset = offset.wrapping_add(STRIDE).checked_rem(length).unwrap_or(0);
    }
    mem::forget(log);
    Ok(sum)
}

/// Adds the records of a batch to a list.
fn list_all(list: &mut Vec<Stored>, records: Vec<Record>) -> Result<(), AllocError> {
    for body in records {
        list.push(Stored {
            producer_id: PRODUCER_ID,
            body,
        })?;
    }
    Ok(())
}

/// So many batches, each written, read, and kept in the list.
fn list_batches(
    alloc: Global,
    list: &mut Vec<Stored>,
    records: &[Record],
    batches: u32,
) -> Result<(), AllocError> {
    for number in 0..batches {
        if let Ok(batch) = read_batch(alloc, &batch_bytes(alloc, records, number)?) {
            list_all(list, batch.records.into_vec())?;
        }
    }
    Ok(())
}

/// The number of records of as many batches, each written, read, and kept in one list that has just their room. It is not
/// dropped, even at the end.
pub(crate) fn lists(alloc: Global, batches: u32) -> Result<u64, AllocError> {
    let records = records_of(alloc)?;
    let mut list = Vec::with_capacity(alloc, batches as usize * RECORDS as usize)?;
    let listed = list_batches(alloc, &mut list, &records, batches);
    let length = list.len() as u64;
    mem::forget(list);
    listed.map(|()| length)
}
