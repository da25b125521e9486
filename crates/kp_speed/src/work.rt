//! The works whose cost is measured.

use kp_batch::{BatchHead, Record, SIZE_LIMIT, Timestamp, batch_size, write_batch};
use kp_batch_reading::read_batch;
use kp_wire::{Blob, Seq, crc32c};
use std::alloc::{AllocError, Global};
use std::mem;

/// How many bytes a checksum is taken of.
const CHECKED: usize = 16384;

/// How many records the batch has.
const RECORDS: u8 = 149;

/// A record's value: a hundred bytes.
const VALUE: [u8; 100] = [b'v'; 100];

const HEAD: BatchHead = BatchHead {
    producer_id: 1000,
    epoch: 0,
    base_sequence: 0,
};

fn records_of(alloc: Global) -> Result<Vec<Record>, AllocError> {
    let mut records = Vec::new(alloc);
    for millis in 0..RECORDS {
        records.push(Record {
            timestamp: Timestamp::from_millis(i64::from(millis)).ok_or(AllocError)?,
            key: None,
            value: Some(Blob::from_slice(alloc, &VALUE)?),
            headers: Seq::new(Vec::new(alloc)),
        })?;
    }
    Ok(records)
}

fn batch_of(alloc: Global, records: &[Record]) -> Result<Vec<u8>, AllocError> {
    if records.is_empty() || batch_size(records) > SIZE_LIMIT {
        return Err(AllocError);
    }
    write_batch(alloc, HEAD, records)
}

/// The sum of so many checksums.
pub(crate) fn checksums(alloc: Global, times: u32) -> Result<u64, AllocError> {
    let mut bytes = Vec::new(alloc);
    bytes.resize(CHECKED, b'c')?;
    let mut sum = 0u64;
    for time in 0..times {
        if let Some(first) = bytes.first_mut() {
            *first = (time % 256) as u8;
        }
        sum = sum.wrapping_add(u64::from(crc32c(&bytes)));
    }
    Ok(sum)
}

/// The bytes of so many batches.
pub(crate) fn writes(alloc: Global, times: u32) -> Result<u64, AllocError> {
    let records = records_of(alloc)?;
    if records.is_empty() || batch_size(&records) > SIZE_LIMIT {
        return Err(AllocError);
    }
    let mut sum = 0u64;
    for _ in 0..times {
        sum = sum.wrapping_add(write_batch(alloc, HEAD, &records)?.len() as u64);
    }
    Ok(sum)
}

/// The records of so many batches. What was read is kept, as a broker's log keeps it, and not dropped even at the
/// end: so the cost is that of reading alone.
pub(crate) fn reads(alloc: Global, times: u32) -> Result<u64, AllocError> {
    let bytes = batch_of(alloc, &records_of(alloc)?)?;
    let mut log = Vec::new(alloc);
    let mut sum = 0u64;
    for _ in 0..times {
        if let Ok(batch) = read_batch(alloc, &bytes) {
            sum = sum.wrapping_add(batch.records.len() as u64);
            log.push(batch)?;
        }
    }
    mem::forget(log);
    Ok(sum)
}

/// The same, where each batch is dropped before the next is read.
pub(crate) fn reads_and_drops(alloc: Global, times: u32) -> Result<u64, AllocError> {
    let bytes = batch_of(alloc, &records_of(alloc)?)?;
    let mut sum = 0u64;
    for _ in 0..times {
        if let Ok(batch) = read_batch(alloc, &bytes) {
            sum = sum.wrapping_add(batch.records.len() as u64);
        }
    }
    Ok(sum)
}
