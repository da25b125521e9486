//! What is to be seen of a partition, and counted.

ghost use Rattle.std.specs.Prelude.{◌≡◌, length};
ghost use Rattle.std.specs.Option.{option_copied};
ghost use Rattle.kp_rules.specs.Counts.{in_flight};
ghost use Rattle.kp_rules.specs.Partitions.{items_queued};

use crate::partition::Partition;
use kp_rules::Run;

impl Partition {
    pub fn is_fenced(&self) -> bool
        ensures { result ≡ self.now.fenced }
    {
        self.fenced
    }

    /// How many of its batches await a reply.
    pub fn batches_in_flight(&self) -> u64
        ensures { result ≡ in_flight self.now }
    {
        let awaited = self.open_batches.iter().filter(|open| !open.is_waiting());
        awaited.count() as u64
    }

    /// How many of its batches were handed over.
    pub fn batches_handed_over(&self) -> u64
        ensures { result ≡ self.now.next_number }
    {
        self.next_number
    }

    /// How many items are queued, in batches that were not handed over.
    pub fn items_queued(&self) -> usize
        ensures { result ≡ length (items_queued self.now.queue) }
    {
        self.queued
    }

    /// How often its batches went out, first or again.
    pub fn attempts_sent(&self) -> u64
        ensures { result ≡ self.now.attempts_sent }
    {
        self.attempts_sent
    }

    /// Its producer ids, the present one last.
    pub fn ids(&self) -> &[u64]
        ensures { result.now ≡ self.now.ids }
    {
        &self.ids
    }

    /// The items that were handed over, where an audit is kept.
    pub fn audit(&self) -> Option<&[Run]>
        ensures { option_copied result ≡ self.now.audit }
    {
        self.audit.as_ref().map(|audit| audit.runs())
    }
}
