//! When a producer is next to be looked at.

ghost use Rattle.std.specs.Prelude.{◌≡◌, ◌≤◌, IfSome};
ghost use Rattle.kp_cluster.specs.Actions.{earlier, next_due};
ghost use Rattle.kp_embed.specs.Due.{NotLater, core_due, due_of, following, no_sooner};

use crate::embed::Embed;
use kp_core::Core;

impl Embed {
    /// The moment after `now` at which there may be something to do again, once all that there is now was done: an action, bytes
    /// to take, a tick. What is due and can't be done, as where a leader is away, waits for another call, and is told by none.
    pub fn next_due(&self, now: u64) -> Option<u64>
        ensures ready { IfSome self.now.core (λ s. result ≡ due_of now s self.now.cluster) }
        ensures cluster { NotLater (no_sooner (following now) (next_due self.now.cluster)) result }
        ensures later { IfSome result (λ at. following now ≤ at) }
    {
        let from = now.saturating_add(1);
        let producer = match &self.core {
            Some(core) => core_due(core, from),
            None => self.opening_due(from),
        };
        earlier(producer, no_sooner(self.cluster.next_due(), from))
    }

    /// Where there is no core yet: when a producer id may be asked for again, or the answer is late, or all of the opening, of
    /// these moments from this one on the earliest.
    fn opening_due(&self, from: u64) -> Option<u64>
        ensures { IfSome result (λ at. from ≤ at) }
    {
        if self.is_failed {
            return None;
        }
        let timeout = self.config.producer.request_timeout_ms;
        let identity = match self.identity.over {
            Some(_) => self.identity.asked_at.checked_add(timeout),
            None if self.cluster.partitions() > 0 => Some(self.identity.not_before),
            None => None,
        };
        earlier(coming(Some(self.open_until), from), coming(identity, from))
    }
}

/// The core's earliest moment from this one on.
fn core_due(core: &Core, from: u64) -> Option<u64>
    ensures { result ≡ core_due from core.now }
{
    if core.can_only_end() {
        return Some(from);
    }
    core.next_due_from(from)
}

/// The earlier of two moments, where there is one.
fn earlier(one: Option<u64>, other: Option<u64>) -> Option<u64>
    ensures { result ≡ earlier one other }
{
    match (one, other) {
        (Some(one), Some(other)) => Some(one.min(other)),
        (Some(one), None) => Some(one),
        (None, other) => other,
    }
}

/// The moment, where it is not before this one.
fn coming(due: Option<u64>, from: u64) -> Option<u64>
    ensures { IfSome result (λ at. from ≤ at) }
{
    match due {
        Some(due) if due >= from => Some(due),
        _ => None,
    }
}

/// The moment, or this one where it was before.
fn no_sooner(due: Option<u64>, from: u64) -> Option<u64>
    ensures { result ≡ no_sooner from due }
{
    match due {
        Some(due) => Some(due.max(from)),
        None => None,
    }
}
