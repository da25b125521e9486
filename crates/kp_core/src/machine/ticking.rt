//! What the time does, and a lost connection.

ghost use Rattle.std.specs.Prelude.{◌≡◌, false, Some, if◌then◌else◌, ◌&&◌, ◌==◌};
ghost use Rattle.std.specs.List.{list_any};
ghost use Rattle.kp_rules.specs.Attempts.{asks_for_id, goes_to};
ghost use Rattle.kp_rules.specs.Calls.{Step, Tick};
ghost use Rattle.kp_rules.specs.Dropping.{drop_requests};
ghost use Rattle.kp_rules.specs.Telling.{at_each};
ghost use Rattle.kp_rules.specs.Tick.{heed_deadlines};

use crate::machine::Core;
use crate::requests::{Request, any_asks_there, drop_there, keep_live};
use kp_rules::Ticked;

impl Core {
    /// Where a request to this node has timed out, all attempts there are dropped; then each partition is looked at,
    /// upwards.
    pub(super) fn look_at(&mut self, node: u32, now: u64) -> Ticked
        requires { self.old.ended ≡ false }
        ensures { Step self.old (Tick node now result) self.new }
    {
        if self.is_late(node, now) {
            self.drop_requests(node, now);
            return Ticked {
                reports: self.heed_deadlines(now),
                reconnect: true,
            };
        }
        Ticked {
            reports: self.heed_deadlines(now),
            reconnect: false,
        }
    }

    /// Nothing is in flight to this node any more.
    pub(super) fn drop_requests(&mut self, node: u32, now: u64)
        ensures { self.new ≡ drop_requests node now self.old }
    {
        self.id_waits = waits_after(&self.requests, self.id_waits, node, now);
        self.partitions.drop_each(node, now);
        drop_there(&mut self.requests, node);
    }

    /// What is late is given up, at each partition, upwards. How many items were told of.
    fn heed_deadlines(&mut self, now: u64) -> usize
        ensures after { self.new ≡ (at_each (heed_deadlines self.old.config now) self.old).after }
        ensures told { result ≡ (at_each (heed_deadlines self.old.config now) self.old).answer }
    {
        let untold = self.desk.untold();
        self.partitions.heed_each(&mut self.desk, &self.config, now);
        let reports = untold - self.desk.untold();
        keep_live(&mut self.requests, self.partitions.all());
        self.exhausted = is_still_exhausted(self.exhausted, reports);
        reports as usize
    }
}

/// Since when an id may be asked for again, once the requests to this node are dropped.
fn waits_after(requests: &[Request], id_waits: Option<u64>, node: u32, now: u64) -> Option<u64>
    ensures { result ≡ (if list_any (λ r. goes_to node r && asks_for_id r) requests.now then Some now else id_waits) }
{
    if any_asks_there(requests, node) {
        Some(now)
    } else {
        id_waits
    }
}

/// An append was refused for want of memory, and none was given back by so many reports.
pub(super) fn is_still_exhausted(exhausted: bool, reports: u64) -> bool
    ensures { result ≡ (exhausted && reports == 0) }
{
    exhausted && reports == 0
}
