//! What a partition may send.

ghost use Rattle.std.specs.Prelude.{◌≡◌, find, unwrap_or, is_some, None};
ghost use Rattle.std.specs.List.{last_or};
ghost use Rattle.std.specs.Option.{option_copied};
ghost use Rattle.kp_rules.specs.Attempts.{awaits, awaiting, is_waiting, lowest_waiting};
ghost use Rattle.kp_rules.specs.MaySend.{is_confirmed, is_id_spent, is_in_span, is_within_limit, may_hand_over, sends, wants_id};
ghost use Rattle.kp_parts.specs.PartitionRooms.{is_idle};

use crate::handed::HandedBatch;
use crate::open::Open;
use crate::partition::Partition;
use kp_accum::{Config, Flags, Pending};

impl Partition {
    /// Whether nothing is queued or open, so that it needs no look.
    #[inline]
    #[tactic(auto, unfolding(crate::specs::PartitionRooms::is_idle))]
    pub fn is_idle(&self) -> bool
        ensures { result ≡ is_idle self.now }
    {
        if !self.open_batches.is_empty() {
            return false;
        }
        self.queue.len() == 0
    }

    /// The batch that awaits the reply to this request.
    pub fn awaiting(&self, correlation: u32) -> Option<&Open>
        ensures { option_copied result ≡ awaiting correlation self.now }
    {
        find_awaiting(&self.open_batches, correlation)
    }

    /// Whether one of its batches awaits the reply to this request.
    pub fn awaits(&self, correlation: u32) -> bool
        ensures { result ≡ is_some (awaiting correlation self.now) }
    {
        self.awaiting(correlation).is_some()
    }

    /// The lowest of its batches that wait for a retry.
    pub fn lowest_waiting(&self) -> Option<&Open>
        ensures { option_copied result ≡ lowest_waiting self.now }
    {
        find_waiting(&self.open_batches)
    }

    /// Whether more than its first batch may be handed over.
    #[tactic(auto, unfolding(kp_rules::specs::MaySend::is_confirmed))]
    fn is_confirmed(&self) -> bool
        ensures { result ≡ is_confirmed self.now }
    {
        self.next_sequence == 0 || self.acknowledged
    }

    /// Whether a new batch's number is near enough to that of its lowest open batch.
    fn is_in_span(&self, config: &Config) -> bool
        ensures { result ≡ is_in_span config.now self.now.next_number self.now.open_batches }
    {
        is_in_span(&self.open_batches, config, self.next_number)
    }

    /// Whether the producer id has sequence numbers for this batch.
    #[tactic(auto, unfolding(kp_rules::specs::MaySend::is_within_limit))]
    fn is_within_limit(&self, config: &Config, front: &Pending) -> bool
        ensures { result ≡ is_within_limit config.now self.now front.now }
    {
        let count = front.items().len() as u64;
        self.next_sequence <= config.sequence_limit
            && count <= config.sequence_limit - self.next_sequence
    }

    /// Whether this batch, the front of its queue, may be handed over.
    pub fn may_hand_over(&self, config: &Config, flags: Flags, now: u64, front: &Pending) -> bool
        ensures { result ≡ may_hand_over config.now flags now self.now front.now }
    {
        self.queue.is_ready(config, flags, now)
            && self.is_confirmed()
            && self.is_in_span(config)
            && self.is_within_limit(config, front)
    }

    /// The batch that it may send, while one request more may be in flight.
    #[inline]
    pub fn sends(&self, config: &Config, flags: Flags, now: u64) -> Option<HandedBatch<'_>>
        ensures { result ≡ sends config.now flags now self.now }
    {
        if self.is_idle() {
            return None;
        }
        self.next_batch(config, flags, now)
    }

    /// The same, where something waits.
    fn next_batch(&self, config: &Config, flags: Flags, now: u64) -> Option<HandedBatch<'_>>
        ensures { result ≡ sends config.now flags now self.now }
    {
        if self.fenced {
            return None;
        }
        if let Some(lowest) = self.lowest_waiting() {
            if lowest.is_rested(config, now) {
                return Some(lowest.batch());
            }
            return None;
        }
        let front = self.queue.front()?;
        if !self.may_hand_over(config, flags, now, front) {
            return None;
        }
        let id = last_id(&self.ids);
        Some(HandedBatch::new(self.next_number, id, self.next_sequence, front))
    }

    /// Whether its present producer id has too few sequence numbers for its front batch.
    fn is_id_spent(&self, config: &Config) -> bool
        ensures { result ≡ is_id_spent config.now self.now }
    {
        match self.queue.front() {
            None => false,
            Some(front) => !self.is_within_limit(config, front),
        }
    }

    /// Whether it can send no more until it has a fresh producer id.
    #[inline]
    pub fn wants_id(&self, config: &Config) -> bool
        ensures { result ≡ wants_id config.now self.now }
    {
        if self.is_idle() {
            return false;
        }
        self.is_stuck(config)
    }

    /// The same, where something waits.
    fn is_stuck(&self, config: &Config) -> bool
        ensures { result ≡ wants_id config.now self.now }
    {
        !self.fenced && self.open_batches.is_empty() && self.is_id_spent(config)
    }
}

fn find_awaiting(open_batches: &[Open], correlation: u32) -> Option<&Open>
    ensures { option_copied result ≡ find (awaits correlation) open_batches.now }
{
    open_batches.iter().find(|open| open.awaits(correlation))
}

fn find_waiting(open_batches: &[Open]) -> Option<&Open>
    ensures { option_copied result ≡ find is_waiting open_batches.now }
{
    open_batches.iter().find(|open| open.is_waiting())
}

#[tactic(auto, unfolding(kp_rules::specs::MaySend::is_in_span))]
fn is_in_span(open_batches: &[Open], config: &Config, number: u64) -> bool
    ensures { result ≡ is_in_span config.now number open_batches.now }
{
    match open_batches {
        [] => true,
        [lowest, ..] => {
            number.saturating_sub(lowest.number()) < config.max_in_flight_requests_per_connection
        }
    }
}

/// The last of the ids, which is the present one.
pub(super) fn last_id(ids: &[u64]) -> u64
    ensures { result ≡ unwrap_or (last_or None ids.now) 0 }
{
    match ids {
        [] => 0,
        [.., last] => *last,
    }
}
