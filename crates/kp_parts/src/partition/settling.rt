//! What a broker's answer to a batch of a partition does to the partition (error codes of the protocol guide).

ghost use Rattle.std.specs.Prelude.{◌≡◌, ◌≤◌, true, not, ◌||◌, filter, map, vec_capacity};
ghost use Rattle.kp_rules.specs.Attempts.{awaiting, awaits};
ghost use Rattle.kp_rules.specs.Mismatch.{has_offsets};
ghost use Rattle.kp_rules.specs.Settling.{is_first_under_id, put_off, retry_later, settle_batch, without_attempt};
ghost use Rattle.kp_parts.specs.Desk.{tell_desk, Covers};

use crate::desk::Desk;
use crate::open::Open;
use crate::partition::Partition;
use crate::partition::sending::last_id;
use kp_frames::PartitionProduceResponse;
use kp_rules::{Meaning, Outcome, meaning_of};

impl Partition {
    /// What its entry in the reply to this request does, heard at this moment. An entry for an attempt that a fence ended
    /// does nothing. Where the entry stores the batch, each of its records has an offset.
    pub fn settle_batch(
        &mut self,
        now: u64,
        correlation: u32,
        entry: &PartitionProduceResponse,
        desk: &mut Desk,
    )
        requires offsets { has_offsets (awaiting correlation self.old) entry.now ≡ true }
        requires covered { Covers desk.old (settle_batch now correlation self.old entry.now).told }
        ensures after { self.new ≡ (settle_batch now correlation self.old entry.now).after }
        ensures told { desk.new ≡ tell_desk (settle_batch now correlation self.old entry.now).told desk.old }
    {
        let Some(open) = self.awaiting(correlation) else {
            return;
        };
        match meaning_of(entry.error_code) {
            Meaning::Stored => {
                open.tell_offsets(entry.base_offset, desk);
                let first = self.is_first_under_id(open);
                self.acknowledge(correlation, first);
            }
            Meaning::Duplicate => {
                open.tell(Outcome::DeliveredNoOffset, desk);
                let first = self.is_first_under_id(open);
                self.acknowledge(correlation, first);
            }
            Meaning::Retry => self.put_off(correlation, now),
            Meaning::Reject => {
                open.tell(Outcome::Rejected(entry.error_code), desk);
                self.take_attempt(correlation);
                self.fence(desk);
            }
        }
    }

    /// The batch that awaits the reply to this request stands in the log. The first under the present id confirms it.
    fn acknowledge(&mut self, correlation: u32, first: bool)
        ensures { self.new ≡ record (without_attempt correlation self.old) {
          acknowledged = self.old.acknowledged || first;
        } }
    {
        self.take_attempt(correlation);
        self.acknowledged = self.acknowledged || first;
    }

    /// Whether this batch is the first under its present id.
    fn is_first_under_id(&self, batch: &Open) -> bool
        ensures { result ≡ is_first_under_id self.now batch.now.batch }
    {
        batch.sequence() == 0 && batch.id() == last_id(&self.ids)
    }

    /// Takes the batch away that awaits the reply to this request.
    fn take_attempt(&mut self, correlation: u32)
        ensures { self.new ≡ without_attempt correlation self.old }
    {
        take_awaiting(&mut self.open_batches, correlation);
    }

    /// The batch that awaits the reply to this request waits for a retry from this moment on.
    fn put_off(&mut self, correlation: u32, now: u64)
        ensures { self.new ≡ (retry_later now correlation self.old).after }
    {
        put_off_all(&mut self.open_batches, correlation, now);
    }
}

fn take_awaiting(open_batches: &mut Vec<Open>, correlation: u32)
    ensures items { open_batches.new.items ≡ filter (λ o. not (awaits correlation o)) open_batches.old.items }
    ensures capacity { vec_capacity open_batches.old ≤ vec_capacity open_batches.new }
{
    open_batches.retain(|open| !open.awaits(correlation));
}

fn put_off_all(open_batches: &mut Vec<Open>, correlation: u32, now: u64)
    ensures items { open_batches.new.items ≡ map (put_off now correlation) open_batches.old.items }
    ensures capacity { vec_capacity open_batches.new ≡ vec_capacity open_batches.old }
{
    for place in 0..open_batches.len() {
        let open = &mut open_batches[place];
        open.put_off(correlation, now);
    }
}
