//! Records, each of which a case gives as a batch, and the batches of them. They are told as Rust's `Debug` has them.

use crate::fault::{Done, Left, Played};
use crate::told::{Told, put_hex};
use kp_batch::{
    AsRecord, Batch, BatchFault, BatchHead, Record, SIZE_LIMIT, batch_size, charge, record_size,
    write_batch,
};
use kp_batch_reading::read_batch;
use kp_cases::{StepFault, Words, put, put_debug};
use std::alloc::Global;

/// A batch that is one.
fn batch_of(alloc: Global, bytes: &[u8]) -> Result<Batch, StepFault> {
    match read_batch(alloc, bytes) {
        Ok(batch) => Ok(batch),
        Err(BatchFault::OutOfMemory) => Err(StepFault::OutOfMemory),
        Err(_) => Err("it is no batch".into()),
    }
}

/// The last record of the batch that is next.
fn record_of(alloc: Global, words: &mut Words<'_>) -> Result<Record, StepFault> {
    let mut records = batch_of(alloc, &words.bytes()?)?.records.into_vec();
    Ok(records.pop().ok_or("there is no record")?)
}

/// The batch of these records, which is within the limit.
fn written<T: AsRecord>(alloc: Global, head: BatchHead, items: &[T]) -> Result<Vec<u8>, StepFault> {
    if items.is_empty() || batch_size(items) > SIZE_LIMIT {
        return Err("no batch, or one beyond the limit".into());
    }
    Ok(write_batch(alloc, head, items)?)
}

/// A batch: its records.
pub(crate) fn read_records<'a>(bytes: &'a [u8], told: &mut Told) -> Left<'a> {
    let batch = read_batch(told.alloc, bytes)?;
    told.show(&batch.records.as_slice())?;
    told.size = Some(batch_size(batch.records.as_slice()));
    told.written = written(told.alloc, batch.head, batch.records.as_slice())?;
    told.wanted.clear();
    Ok(&[])
}

/// Tells what stands before the records of a batch.
pub(crate) fn tell_head(alloc: Global, bytes: &[u8], came: &mut String) -> Done {
    let batch = batch_of(alloc, bytes)?;
    let (offset, epoch, head) = (batch.base_offset, batch.leader_epoch, batch.head);
    Ok(write!(came, "base offset {offset}, leader epoch {epoch}, {head:?}")?)
}

/// Whose the batch is.
const HEAD: BatchHead = BatchHead {
    producer_id: 1000,
    epoch: 0,
    base_sequence: 0,
};

/// A record that is sent, in a thing that may keep another beside it.
#[derive(Debug, Drop)]
struct Item {
    sent: Record,
    kept: Option<Record>,
}

impl AsRecord for Item {
    ghost body = { λ item. item.sent };

    fn as_record(&self) -> &Record {
        &self.sent
    }
}

/// The records that a case has made.
#[derive(Drop)]
pub(crate) struct Held {
    alloc: Global,
    items: Vec<Item>,
}

impl Held {
    pub(crate) fn new(alloc: Global) -> Held {
        Held {
            alloc,
            items: Vec::new(alloc),
        }
    }

    fn add(&mut self, words: &mut Words<'_>) -> Done {
        let sent = record_of(self.alloc, words)?;
        Ok(self.items.push(Item { sent, kept: None })?)
    }

    fn last(&mut self) -> Result<&mut Item, StepFault> {
        self.items.last_mut().ok_or("there is no record".into())
    }

    /// Puts a copy into the place of each record.
    fn copy(&mut self) -> Done {
        for item in &mut self.items {
            item.sent = item.sent.copy(self.alloc)?;
        }
        Ok(())
    }

    /// Tells the charges of the records, and of those that are kept beside them.
    fn tell_charges(&self, came: &mut String) -> Done {
        for (k, item) in self.items.iter().enumerate() {
            let comma = if k > 0 { ", " } else { "" };
            write!(came, "{comma}{}", charge(&item.sent))?;
            if let Some(kept) = &item.kept {
                write!(came, " beside {}", charge(kept))?;
            }
        }
        Ok(())
    }

    /// Keeps a record beside the last one.
    fn keep(&mut self, words: &mut Words<'_>) -> Done {
        self.last()?.kept = Some(record_of(self.alloc, words)?);
        Ok(())
    }

    /// Tells the size of the last record, as the first of a batch.
    fn tell_size(&mut self, came: &mut String) -> Done {
        put(came, &record_size(&self.last()?.sent, 0, 0))
    }

    /// Tells the batch of these records.
    fn tell_written(&self, came: &mut String) -> Done {
        let bytes = written(self.alloc, HEAD, self.items.as_slice())?;
        Ok(put_hex(came, &bytes)?)
    }

    /// Plays a step about these records; false where it is none.
    pub(crate) fn play(&mut self, step: &str, words: &mut Words<'_>, came: &mut String) -> Played {
        let done = match step {
            "record" => self.add(words),
            "beside" => self.keep(words),
            "copy" => self.copy(),
            "told" => put_debug(came, &self.items),
            "charges" => self.tell_charges(came),
            "record_size" => self.tell_size(came),
            "batch_size" => put(came, &batch_size(self.items.as_slice())),
            "write" => self.tell_written(came),
            _ => return Ok(false),
        };
        done.map(|()| true)
    }
}
