//! Whether a response is one to its request, and which entry answers which partition.

ghost use Rattle.std.specs.Prelude.{◌≡◌, ◌<◌, ◌++◌, ◌∷◌, [], List, length, is_some, IfOk, IfSome};
ghost use Rattle.std.specs.List.{AllByRecursion, list_all};
ghost use Rattle.std.specs.Option.{option_copied};
ghost use Rattle.kp_frames.specs.declared.produce.PartitionProduceResponse.{PartitionProduceResponse as Seen};
ghost use Rattle.kp_rules.specs.Mismatch.{answers_id, entries_of, has_offsets, is_one_topic};
ghost use Rattle.kp_rules.specs.Partitions.{partition_at};
ghost use Rattle.kp_core.specs.Matching.{AreEntries, IsEntry, answers_one};

use kp_frames::{InitProducerIdResponse, PartitionProduceResponse, ProduceResponse};
use kp_parts::{Open, Partition};
use kp_wire::Text;
use std::alloc::{AllocError, Global};

/// What a response says of one partition.
#[derive(Clone, Copy, Debug)]
pub(crate) enum Entry<'a> {
    Missing,
    One(&'a PartitionProduceResponse),
    Several,
}

impl<'a> Entry<'a> {
    /// With one entry more.
    fn with(self, entry: &'a PartitionProduceResponse) -> Entry<'a>
        ensures { (xs : List Seen) → IsEntry self.entry xs → IsEntry result (xs ++ entry.now ∷ []) }
    {
        match self {
            Entry::Missing => Entry::One(entry),
            _ => Entry::Several,
        }
    }
}

/// What a response says of each of so many partitions.
pub(crate) fn entries_by_partition<'a>(
    alloc: Global,
    entries: &'a [PartitionProduceResponse],
    partitions: usize,
) -> Result<Vec<Entry<'a>>, AllocError>
    ensures { IfOk result (λ found. AreEntries partitions entries.now found.items) }
{
    let mut found = Vec::with_capacity(alloc, partitions)?;
    for _ in 0..partitions {
        found.push(Entry::Missing)?;
    }
    for entry in entries {
        put_entry(&mut found, entry);
    }
    Ok(found)
}

/// With one entry more, which stands behind the others. An entry of a partition that is not there is passed over.
fn put_entry<'a>(found: &mut Vec<Entry<'a>>, entry: &'a PartitionProduceResponse)
    ensures { (xs : List Seen) → AreEntries (length found.old.items) xs found.old.items
        → AreEntries (length found.old.items) (xs ++ entry.now ∷ []) found.new.items }
{
    if entry.partition < 0 {
        return;
    }
    let place = entry.partition as usize;
    if place < found.len() {
        let entries = found[place].with(entry);
        found[place] = entries;
    }
}

/// The entries of the one topic, which has this name.
pub(crate) fn entries_of_topic<'a>(
    response: &'a ProduceResponse,
    topic: &Text,
) -> Option<&'a [PartitionProduceResponse]>
    ensures one { is_some result ≡ is_one_topic topic.now response.now.topics }
    ensures entries { IfSome result (λ entries. entries.now ≡ entries_of response.now) }
{
    match response.topics.as_slice() {
        [only] if only.topic.as_str() == topic.as_str() => Some(only.partitions.as_slice()),
        _ => None,
    }
}

/// Whether each of these partitions has one entry, and the offsets that it gives are there.
pub(crate) fn answers_each(
    partitions: &[Partition],
    correlation: u32,
    chosen: &[u32],
    found: &[Entry<'_>],
) -> bool
    requires { AllByRecursion (λ p. p < length partitions.now) chosen.now }
    ensures { (xs : List Seen) → AreEntries (length partitions.now) xs found.now
        → result ≡ list_all (λ p. answers_one xs correlation p (partition_at p partitions.now)) chosen.now }
{
    chosen.iter().all(|place| answers_one(partitions, correlation, *place, found))
}

/// Whether this partition has one entry, and the offsets that it gives are there.
fn answers_one(partitions: &[Partition], correlation: u32, place: u32, found: &[Entry<'_>]) -> bool
    requires { place < length partitions.now }
    ensures { (xs : List Seen) → AreEntries (length partitions.now) xs found.now
        → result ≡ answers_one xs correlation place (partition_at place partitions.now) }
{
    match found.get(place as usize) {
        Some(Entry::One(entry)) => {
            has_offsets(partitions[place as usize].awaiting(correlation), entry)
        }
        _ => false,
    }
}

/// Where the entry stores a batch whose attempt is still in flight: whether each of its records has an offset, an int64
/// that is not below 0.
fn has_offsets(attempt: Option<&Open>, entry: &PartitionProduceResponse) -> bool
    ensures { result ≡ has_offsets (option_copied attempt.entry) entry.now }
{
    match attempt {
        None => true,
        Some(open) => {
            entry.error_code != 0
                || (entry.base_offset >= 0
                    && open.batch().items().len() as u64 <= (i64::MAX - entry.base_offset) as u64)
        }
    }
}

/// Whether a response to a request for an id is one: an id that is given is not below 0, and its epoch is 0.
pub(crate) fn answers_id(response: &InitProducerIdResponse) -> bool
    ensures { result ≡ answers_id response.now }
{
    response.error_code != 0 || (response.producer_id >= 0 && response.producer_epoch == 0)
}
