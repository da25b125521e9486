//! Batches of numbered records, as a step names them.

use kp_batch::{BatchHead, Record, SIZE_LIMIT, Timestamp, batch_size, write_batch};
use kp_cases::{StepFault, Words};
use kp_wire::{Blob, Seq};
use std::alloc::Global;
use std::str::FromStr;

/// A record without key and headers, whose value is this number in two bytes.
fn record_of(alloc: Global, number: u16) -> Result<Record, StepFault> {
    Ok(Record {
        timestamp: Timestamp::from_millis(0).ok_or("there is no such moment")?,
        key: None,
        value: Some(Blob::from_slice(alloc, &number.to_be_bytes())?),
        headers: Seq::new(Vec::new(alloc)),
    })
}

/// So many records, numbered from this number on.
pub(crate) fn records_of(alloc: Global, first: u16, count: u16) -> Result<Vec<Record>, StepFault> {
    let mut records = Vec::new(alloc);
    for number in 0..count {
        records.push(record_of(alloc, first.wrapping_add(number))?)?;
    }
    Ok(records)
}

fn number_of<T: FromStr>(word: &str) -> Result<T, StepFault>
where
    T::Err: Drop,
{
    word.parse().map_err(|_| StepFault::NotUnderstood)
}

/// The head of a batch of this producer, which is told by its id, or as `ID:EPOCH` where its epoch is not 0.
fn head_of(producer: &str, base_sequence: u16) -> Result<BatchHead, StepFault> {
    let (id, epoch) = producer.split_once(':').unwrap_or((producer, "0"));
    Ok(BatchHead {
        producer_id: number_of(id)?,
        epoch: number_of(epoch)?,
        base_sequence: i32::from(base_sequence),
    })
}

fn write(alloc: Global, head: BatchHead, records: &[Record]) -> Result<Vec<u8>, StepFault> {
    if records.is_empty() || batch_size(records) > SIZE_LIMIT {
        return Err("so many records are no batch".into());
    }
    Ok(write_batch(alloc, head, records)?)
}

/// The bytes that the words name: those in hexadecimal behind `bytes`; or a batch, by its producer, base sequence and count
/// of records, which are numbered from the base sequence on, with the bytes behind it that are left.
pub(crate) fn bytes_of(alloc: Global, words: &mut Words<'_>) -> Result<Vec<u8>, StepFault> {
    let producer = words.word()?;
    if producer == "bytes" {
        return words.rest_bytes();
    }
    let base_sequence = words.number()?;
    let head = head_of(producer, base_sequence)?;
    let records = records_of(alloc, base_sequence, words.number()?)?;
    let mut bytes = write(alloc, head, &records)?;
    bytes.extend_from_slice(&words.rest_bytes()?)?;
    Ok(bytes)
}
