//! A partition's log.

ghost use Rattle.std.specs.Prelude.{◌≡◌, ◌+◌, ◌≤◌, [], ◌∷◌, length, slice_get, IfOk, IfErr, IsOk, MatchResult};
ghost use Rattle.std.specs.Option.{option_copied};
ghost use Rattle.kp_batch.specs.Reading.{batch_at, opened};

use crate::answer::{Answer, Refusal};
use crate::fault::LogFault;
use crate::kept::Kept;
use crate::offering::take_batch;
use crate::segments::Segments;
use crate::stored::Stored;
use crate::whim::Whim;
use kp_batch::{BatchFault, Record};
use kp_batch_reading::read_batch;
use std::alloc::Global;
use std::collections::BTreeMap;
use std::marker::Model;

/// The producer id under which records stand that came without one.
const NO_ID: i64 = -1;

/// A partition's records, each at its offset, and what the rule needs to know of each producer.
#[derive(Debug, Drop)]
pub struct PartitionLog {
    alloc: Global,
    segments: Segments,
    kept: BTreeMap<i64, Kept>,
}

impl Model for PartitionLog {
    ghost use Rattle.kp_log.specs.Log.{Log, log_of, IsSound};

    ghost Value = { Log };

    ghost view = { λ log. log_of log.segments log.kept.entries };

    ghost invariant = { λ log. IsSound (log_of log.segments log.kept.entries) };
}

impl PartitionLog {
    ghost use Rattle.kp_log.specs.Log.{empty, others_appended, LENGTH_LIMIT};
    ghost use Rattle.kp_log.specs.declared.error_code.ErrorCode.{ErrorCode};
    ghost use Rattle.kp_log.specs.History.{own_offsets};
    ghost use Rattle.kp_log.specs.SequenceRule.{offered, offered_then};

    /// A log with no record. It takes no memory.
    pub fn new(alloc: Global) -> PartitionLog
        ensures { result ≡ empty }
    {
        PartitionLog {
            alloc,
            segments: Segments::new(alloc),
            kept: BTreeMap::new(alloc),
        }
    }

    /// How many records it has: the offset of the next.
    pub fn len(&self) -> u64
        ensures { result ≡ length self.now.records }
    {
        self.segments.len()
    }

    /// The record at this offset, if there is one.
    pub fn get(&self, offset: u64) -> Option<&Stored>
        ensures { option_copied result ≡ slice_get self.now.records offset }
    {
        self.segments.get(offset)
    }

    /// How many segments its records lie in.
    pub fn segments(&self) -> usize
        ensures { result ≡ length self.now.segments }
    {
        self.segments.count()
    }

    /// The offsets, upwards, of the records under this producer id.
    pub fn own(&self, producer_id: i64) -> Result<Vec<u64>, LogFault>
        ensures { IfOk result
            (λ offsets. offsets.items ≡ own_offsets (producer_id ∷ []) self.now.records) }
    {
        self.own_any(&[producer_id])
    }

    /// The offsets, upwards, of the records under one of these producer ids.
    pub fn own_any(&self, ids: &[i64]) -> Result<Vec<u64>, LogFault>
        ensures { IfOk result
            (λ offsets. offsets.items ≡ own_offsets ids.now self.now.records) }
    {
        Ok(self.segments.offsets_of(ids)?)
    }

    /// Takes a batch as bytes, and answers it. Where a growth is refused, the log is as it was.
    pub fn offer(&mut self, bytes: &[u8]) -> Result<Answer, LogFault>
        ensures exact { MatchResult result
            (λ a. offered self.old (batch_at bytes.now) ≡ record { answer = a; log = self.new })
            (λ _. self.new ≡ self.old) }

        // Memory is wanting only where the bytes open as a batch: any other fault of theirs is answered.
        ensures opened { IfErr result (λ _. IsOk (opened bytes.now)) }
    {
        match read_batch(self.alloc, bytes) {
            Ok(batch) => take_batch(&mut self.segments, &mut self.kept, batch),
            Err(BatchFault::OutOfMemory) => Err(LogFault::OutOfMemory),
            Err(_) => Ok(Answer::Refused(Refusal::CorruptMessage)),
        }
    }

    /// Takes a batch as bytes, and answers as it is told to. Told to refuse, it takes no memory; else, where a growth is
    /// refused, the log is as it was.
    pub fn offer_then(&mut self, bytes: &[u8], whim: Whim) -> Result<Answer, LogFault>
        ensures exact { MatchResult result
            (λ a. offered_then self.old whim (batch_at bytes.now) ≡ record { answer = a; log = self.new })
            (λ _. self.new ≡ self.old) }
        ensures opened { IfErr result (λ _. IsOk (opened bytes.now)) }
        ensures refused { (code : ErrorCode) → whim ≡ Whim.Refuse code → IsOk result }
    {
        match whim {
            Whim::Refuse(code) => Ok(Answer::Error(code)),
            Whim::Late(code) => {
                self.offer(bytes)?;
                Ok(Answer::Error(code))
            }
        }
    }

    /// Appends another producer's records, which have no producer id. Where a growth is refused, the log is as it was.
    pub fn append_other(&mut self, records: Vec<Record>) -> Result<(), LogFault>
        requires { length self.old.records + length records.items ≤ LENGTH_LIMIT }
        ensures { MatchResult result
            (λ _. self.new ≡ others_appended self.old records.items)
            (λ _. self.new ≡ self.old) }
    {
        self.segments.reserve(records.len())?;
        self.segments.append_reserved(NO_ID, records);
        Ok(())
    }
}
