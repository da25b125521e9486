//! When a core is next to be looked at.

ghost use Rattle.std.specs.Prelude.{◌≡◌};
ghost use Rattle.kp_rules.specs.Due.{earliest, id_moments, next_due, next_due_from};

use crate::machine::Core;
use crate::requests::{any_asks_for_id, earliest_timeout};
use kp_parts::{moment, sooner};

impl Core {
    /// The moment at which the core is next to be looked at; None where there is none, or none of 64 bits. A moment that
    /// has passed may be told too.
    pub fn next_due(&self) -> Option<u64>
        ensures { result ≡ next_due self.now }
    {
        self.next_due_from(0)
    }

    /// The same, of the moments from this one on: what was due before it and could not be done waits for a call.
    pub fn next_due_from(&self, from: u64) -> Option<u64>
        ensures { result ≡ next_due_from from self.now }
    {
        let timeout = earliest_timeout(&self.requests, &self.config, from);
        let partitions = self.partitions.earliest_moment(&self.config, from);
        sooner(sooner(timeout, partitions), self.id_moment(from))
    }

    /// Where a partition wants an id and none is asked for: when it may be.
    fn id_moment(&self, from: u64) -> Option<u64>
        ensures { result ≡ earliest from (id_moments self.now) }
    {
        if any_asks_for_id(&self.requests) || !self.partitions.any_wants_id(&self.config) {
            return None;
        }
        match self.id_waits {
            None if from > 0 => None,
            None => Some(0),
            Some(since) => moment(since, self.config.retry_backoff_ms, from),
        }
    }
}
