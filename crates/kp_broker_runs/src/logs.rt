//! Plays the life of a partition log: what it answers to batches, and how the records lie in it then. An answer is Kafka's
//! two numbers, as `CODE@BASE_OFFSET`.

mod batch;

use batch::{bytes_of, records_of};
use kp_cases::{StepFault, Words, put, put_debug, refused, seen_of};
use kp_log::{ErrorCode, LogFault, PartitionLog, Whim};
use std::alloc::Global;

#[derive(Drop)]
pub(crate) struct Logs {
    alloc: Global,
    log: PartitionLog,
}

fn out_of_memory(_fault: LogFault) -> StepFault {
    StepFault::OutOfMemory
}

/// The next word, which is the number of an error code that a log may be told to answer.
fn code_of(words: &mut Words<'_>) -> Result<ErrorCode, StepFault> {
    Ok(ErrorCode::new(words.number()?).ok_or("it is no error code")?)
}

/// The producer ids of the words.
fn ids_of(alloc: Global, words: &mut Words<'_>) -> Result<Vec<i64>, StepFault> {
    let mut ids = Vec::new(alloc);
    for word in words.rest().split_whitespace() {
        ids.push(word.parse().map_err(|_| StepFault::NotUnderstood)?)?;
    }
    Ok(ids)
}

impl Logs {
    pub(crate) fn new(alloc: Global) -> Logs {
        Logs {
            alloc,
            log: PartitionLog::new(alloc),
        }
    }

    /// Offers the bytes of the words to the log, which is told this, or else goes by the rule.
    fn offer(
        &mut self,
        told: Option<Whim>,
        words: &mut Words<'_>,
        came: &mut String,
    ) -> Result<(), StepFault> {
        let bytes = bytes_of(self.alloc, words)?;
        let before = seen_of(&self.log);
        let answer = match told {
            None => self.log.offer(&bytes),
            Some(whim) => self.log.offer_then(&bytes, whim),
        };
        let Ok(answer) = answer else {
            return Err(refused(seen_of(&self.log) == before));
        };
        write!(came, "{}@{}", answer.code(), answer.base_offset())?;
        Ok(())
    }

    /// Appends so many records of another producer, which are numbered from 0 on.
    fn append_others(&mut self, count: u16) -> Result<(), StepFault> {
        let records = records_of(self.alloc, 0, count)?;
        if self.log.len().saturating_add(records.len() as u64) > i64::MAX.unsigned_abs() {
            return Err("the log is full".into());
        }
        let before = seen_of(&self.log);
        match self.log.append_other(records) {
            Ok(()) => Ok(()),
            Err(LogFault::OutOfMemory) => Err(refused(seen_of(&self.log) == before)),
        }
    }

    /// Tells the producer id of the record at this offset, and its number.
    fn tell_record(&self, offset: u64, came: &mut String) -> Result<(), StepFault> {
        let Some(stored) = self.log.get(offset) else {
            return put(came, &"none");
        };
        write!(came, "{}", stored.producer_id)?;
        if let Some([high, low]) = stored.body.value.as_ref().map(|value| value.as_slice()) {
            write!(came, " {}", u16::from_be_bytes([*high, *low]))?;
        }
        Ok(())
    }

    /// Tells the offsets of the records under the producer ids of the words.
    fn tell_own(&self, words: &mut Words<'_>, came: &mut String) -> Result<(), StepFault> {
        let ids = ids_of(self.alloc, words)?;
        let offsets = match ids.as_slice() {
            [id] => self.log.own(*id),
            ids => self.log.own_any(ids),
        };
        put_debug(came, &offsets.map_err(out_of_memory)?.as_slice())
    }
}

impl Logs {
    /// Begins a case: nothing is left of the one before.
    pub(crate) fn begin(&mut self) {
        self.log = PartitionLog::new(self.alloc);
    }

    /// Plays a step.
    pub(crate) fn play(
        &mut self,
        step: &str,
        words: &mut Words<'_>,
        came: &mut String,
    ) -> Result<(), StepFault> {
        match step {
            "offer" => self.offer(None, words, came),
            "refuse" => self.offer(Some(Whim::Refuse(code_of(words)?)), words, came),
            "late" => self.offer(Some(Whim::Late(code_of(words)?)), words, came),
            "others" => self.append_others(words.number()?),
            "len" => put(came, &self.log.len()),
            "segments" => put(came, &self.log.segments()),
            "record" => self.tell_record(words.number()?, came),
            "own" => self.tell_own(words, came),
            "code" => {
                let code = ErrorCode::new(words.number()?);
                put_debug(came, &code.map(|code| code.get()))
            }
            _ => Err(StepFault::NotUnderstood),
        }
    }
}
