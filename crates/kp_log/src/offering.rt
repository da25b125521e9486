//! What is done with a batch: it is judged, and appended if it is the next.

ghost use Rattle.std.specs.Prelude.{◌≡◌, ◌+◌, ◌≤◌, ◌++◌, ℤ, pos, length, int_le, ◌+ℤ◌, ◌-ℤ◌, FitsSigned, IsTrue, MatchResult, vec_len};
ghost use Rattle.std.specs.Int.{w64};
ghost use Rattle.std.specs.Option.{option_copied};
ghost use Rattle.std.specs.Vec.{vec_capacity};
ghost use Rattle.kp_log.specs.Log.{log_of, count_of, appended, IsSound};
ghost use Rattle.kp_log.specs.SequenceRule.{is_repeat, repeated, is_next, is_older, verdict, judged};

use crate::answer::{Answer, Refusal};
use crate::fault::LogFault;
use crate::kept::{Kept, Span, kept_count, kept_spans, kept_with};
use crate::segments::Segments;
use kp_batch::Batch;
use std::collections::BTreeMap;

/// The first number that no sequence number may reach: they are int32s.
const SEQUENCE_LIMIT: i64 = 1 << 31;

/// The greatest length of a log: offsets are int64s.
const LENGTH_LIMIT: u64 = (1 << 63) - 1;

/// What is to be done with a batch.
pub(crate) enum Verdict {
    Refuse(Refusal),
    /// It repeats a batch whose first record has this offset.
    Repeat(i64),
    Append,
}

// ---- the tests

/// Whether so many sequence numbers, from the first on, end at `end` or before it.
fn ends_by(first: i32, count: usize, end: i64) -> bool
    requires { FitsSigned w64 (end -ℤ first) }
    ensures { result ≡ int_le (first +ℤ pos count) end }
{
    let room = end - i64::from(first);
    room >= 0 && count as u64 <= room.unsigned_abs()
}

fn is_repeat(batch: &Batch, span: Span) -> bool
    ensures { result ≡ is_repeat batch.now span }
{
    batch.head.base_sequence == span.base_sequence
        && batch.records.len() as u64 == u64::from(span.count)
}

/// The kept batch that this one repeats.
fn find_repeated(batch: &Batch, spans: &[Span]) -> Option<Span>
    ensures { result ≡ repeated batch.now spans.now }
{
    spans.iter().copied().find(|span| is_repeat(batch, *span))
}

/// Whether the batch is the next of a producer that has so many records here.
fn is_next(batch: &Batch, segments: &Segments, count: u32) -> bool
    requires counted { count ≡ count_of batch.now.head.producer_id segments.now.records }
    requires in_length { length segments.now.records ≤ LENGTH_LIMIT }
    ensures { result ≡ is_next segments.now.records batch.now }
{
    let first = batch.head.base_sequence;
    let added = batch.records.len();
    i64::from(first) == i64::from(count)
        && ends_by(first, added, SEQUENCE_LIMIT)
        && added as u64 <= LENGTH_LIMIT - segments.len()
}

/// Whether the batch is older than those kept.
fn is_older(batch: &Batch, spans: &[Span]) -> bool
    ensures { result ≡ is_older batch.now spans.now }
{
    match spans {
        [] => false,
        [oldest, ..] => {
            let first = batch.head.base_sequence;
            first >= 0 && ends_by(first, batch.records.len(), i64::from(oldest.base_sequence))
        }
    }
}

// ---- the rule

/// What the rule says of the batch.
fn judge(segments: &Segments, kept: &BTreeMap<i64, Kept>, batch: &Batch) -> Verdict
    requires { IsSound (log_of segments.now kept.now.entries) }
    ensures { result ≡ verdict (log_of segments.now kept.now.entries) batch.now }
{
    let head = &batch.head;
    if head.producer_id < 0 {
        return Verdict::Refuse(Refusal::InvalidRequest);
    }
    if head.epoch != 0 {
        return Verdict::Refuse(Refusal::InvalidProducerEpoch);
    }
    let kept = kept.get(&head.producer_id);
    let spans = kept_spans(kept);
    if let Some(span) = find_repeated(batch, spans) {
        return Verdict::Repeat(span.base_offset);
    }
    if is_next(batch, segments, kept_count(kept)) {
        return Verdict::Append;
    }
    if is_older(batch, spans) {
        return Verdict::Refuse(Refusal::DuplicateSequenceNumber);
    }
    Verdict::Refuse(Refusal::OutOfOrderSequenceNumber)
}

// ---- an append

/// Appends a batch that is the next. All memory is found before anything changes.
fn append(
    segments: &mut Segments,
    kept: &mut BTreeMap<i64, Kept>,
    batch: Batch,
) -> Result<(), LogFault>
    requires sound { IsSound (log_of segments.old kept.old.entries) }
    requires next { verdict (log_of segments.old kept.old.entries) batch ≡ Verdict.Append }
    ensures exact { let old = log_of segments.old kept.old.entries in
        let new = log_of segments.new kept.new.entries in
        MatchResult result (λ _. new ≡ appended old batch) (λ _. new ≡ old) }
{
    let id = batch.head.producer_id;
    let added = batch.records.len();
    segments.reserve(added)?;
    let span = Span {
        base_sequence: batch.head.base_sequence,
        count: added as u32,
        base_offset: segments.len() as i64,
    };
    let updated = kept_with(kept.get(&batch.head.producer_id), span);
    if kept.insert(id, updated).is_err() {
        return Err(LogFault::OutOfMemory);
    }
    segments.append_reserved(id, batch.records.into_vec());
    Ok(())
}

/// Judges the batch, and appends it if it is the next.
pub(crate) fn take_batch(
    segments: &mut Segments,
    kept: &mut BTreeMap<i64, Kept>,
    batch: Batch,
) -> Result<Answer, LogFault>
    requires { IsSound (log_of segments.old kept.old.entries) }
    ensures exact { let old = log_of segments.old kept.old.entries in
        let new = log_of segments.new kept.new.entries in
        MatchResult result (λ a. judged old batch ≡ record { answer = a; log = new }) (λ _. new ≡ old) }
    ensures sound { IsSound (log_of segments.new kept.new.entries) }
{
    match judge(segments, kept, &batch) {
        Verdict::Refuse(refusal) => Ok(Answer::Refused(refusal)),
        Verdict::Repeat(offset) => Ok(Answer::Stored(offset)),
        Verdict::Append => {
            let offset = segments.len() as i64;
            append(segments, kept, batch)?;
            Ok(Answer::Stored(offset))
        }
    }
}
