//! When the next connection is made.

ghost use Rattle.std.specs.Prelude.{◌≡◌, ◌+◌, ◌-◌, ◌^◌, max, min, IfSome, IfNone};
ghost use Rattle.kp_running.specs.Over.{IsSpent};
ghost use Rattle.kp_client.specs.Policy.{limit_of, made_after_reply, none_made, wait_after, MayMake};

use kp_settings::Policy;

/// The wait before the second new connection in a row, in milliseconds.
const SHORTEST: u64 = 10;

/// The longest wait, in milliseconds, unless `retry.backoff.ms` is longer.
const LONGEST: u64 = 1000;

/// The new connections of a producer, as its policy counts them.
#[derive(Debug, Drop)]
pub(crate) struct Again {
    policy: Policy,
    /// How many were made: in all, or since the last reply. Above u32::MAX it counts no further.
    made: u32,
    /// The wait before the next one, in milliseconds.
    wait: u64,
    /// The longest wait, in milliseconds.
    longest: u64,
}

impl Again {
    pub(crate) fn new(policy: Policy, retry_backoff_ms: u64) -> Again
        ensures { result ≡ none_made policy retry_backoff_ms }
    {
        Again {
            policy,
            made: 0,
            wait: 0,
            longest: retry_backoff_ms.max(LONGEST),
        }
    }

    /// The wait before the next new connection, in milliseconds, or none, where the policy allows no more.
    pub(crate) fn next(&mut self) -> Option<u64>
        ensures next { IfSome result (λ wait. (wait ≡ self.old.wait) × MayMake (limit_of self.old.policy) self.old.made) }
        ensures counted { IfSome result (λ _. self.new.made ≡ min (self.old.made + 1) (2 ^ 32 - 1)) }
        ensures longer { IfSome result (λ _. self.new.wait ≡ wait_after self.old.longest self.old.wait) }
        ensures none { IfNone result (IsSpent (limit_of self.old.policy) self.old.made × (self.new ≡ self.old)) }
        ensures same { (self.new.policy ≡ self.old.policy) × (self.new.longest ≡ self.old.longest) }
    {
        if let Policy::InAll(limit) | Policy::InARow(limit) = self.policy {
            if self.made >= limit {
                return None;
            }
        }
        let wait = self.wait;
        self.made = self.made.saturating_add(1);
        self.wait = if wait == 0 {
            SHORTEST
        } else {
            wait.saturating_mul(2).min(self.longest)
        };
        Some(wait)
    }

    /// How many new connections were made: in all, or since the last reply.
    pub(crate) fn made(&self) -> u32
        ensures { result ≡ self.now.made }
    {
        self.made
    }

    /// A reply came.
    pub(crate) fn note_reply(&mut self)
        ensures again { self.new.wait ≡ 0 }
        ensures made { self.new.made ≡ made_after_reply self.old.policy self.old.made }
        ensures same { (self.new.policy ≡ self.old.policy) × (self.new.longest ≡ self.old.longest) }
    {
        self.wait = 0;
        if let Policy::InARow(_) = self.policy {
            self.made = 0;
        }
    }
}
