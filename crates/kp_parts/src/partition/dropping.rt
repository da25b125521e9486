//! Attempts that are given up: what was in flight waits for a retry.

ghost use Rattle.std.specs.Prelude.{◌≡◌, map, vec_capacity};
ghost use Rattle.kp_rules.specs.Dropping.{drop_attempt, drop_attempts};

use crate::open::Open;
use crate::partition::Partition;

impl Partition {
    /// What was in flight waits from this moment on.
    pub fn drop_attempts(&mut self, now: u64)
        ensures { self.new ≡ drop_attempts now self.old }
    {
        drop_all(&mut self.open_batches, now);
    }
}

fn drop_all(open_batches: &mut Vec<Open>, now: u64)
    ensures items { open_batches.new.items ≡ map (drop_attempt now) open_batches.old.items }
    ensures capacity { vec_capacity open_batches.new ≡ vec_capacity open_batches.old }
{
    for place in 0..open_batches.len() {
        let open = &mut open_batches[place];
        open.drop_attempt(now);
    }
}
