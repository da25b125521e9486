//! When a partition is next to be looked at.

ghost use Rattle.std.specs.Prelude.{◌≡◌, ◌+◌, map};
ghost use Rattle.kp_rules.specs.Attempts.{lowest_waiting};
ghost use Rattle.kp_rules.specs.Due.{earliest, front_moments, partition_moments, retry_moments};
ghost use Rattle.kp_parts.specs.PartitionRooms.{sooner};

use crate::moments::{moment, sooner};
use crate::open::Open;
use crate::partition::Partition;
use kp_accum::Config;
use kp_rules::Attempt;

impl Partition {
    /// The earliest moment, from this one on, at which it is to be looked at. A moment past 64 bits never comes.
    #[inline]
    pub fn next_moment(&self, config: &Config, from: u64) -> Option<u64>
        ensures { result ≡ earliest from (partition_moments config.now self.now) }
    {
        if self.is_idle() {
            return None;
        }
        self.earliest_moment(config, from)
    }

    /// The same, where something waits.
    fn earliest_moment(&self, config: &Config, from: u64) -> Option<u64>
        ensures { result ≡ earliest from (partition_moments config.now self.now) }
    {
        let deadline = earliest_deadline(&self.open_batches, config, from);
        let queued = sooner(deadline, self.front_moment(config, from));
        sooner(queued, self.retry_moment(config, from))
    }

    /// When its front batch is late, or has lingered.
    fn front_moment(&self, config: &Config, from: u64) -> Option<u64>
        ensures { result ≡ earliest from (front_moments config.now self.now.queue) }
    {
        let begun = self.queue.front()?.begun();
        sooner(
            moment(begun, config.delivery_timeout_ms, from),
            moment(begun, config.linger_ms, from),
        )
    }

    /// When the lowest of its batches that wait has waited long enough.
    fn retry_moment(&self, config: &Config, from: u64) -> Option<u64>
        ensures { result ≡ earliest from (retry_moments config.now (lowest_waiting self.now)) }
    {
        match self.lowest_waiting()?.attempt() {
            Attempt::InFlight(_) => None,
            Attempt::Waiting(since) => moment(since, config.retry_backoff_ms, from),
        }
    }
}

fn earliest_deadline(open_batches: &[Open], config: &Config, from: u64) -> Option<u64>
    ensures { result ≡ earliest from (map (λ o. o.begun + config.now.delivery_timeout_ms) open_batches.now) }
{
    let mut earliest = None;
    for open in open_batches {
        earliest = sooner(
            earliest,
            moment(open.begun(), config.delivery_timeout_ms, from),
        );
    }
    earliest
}
