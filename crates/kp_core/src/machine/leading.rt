//! A node leads a partition from now on.

ghost use Rattle.std.specs.Prelude.{◌≡◌};
ghost use Rattle.kp_rules.specs.Leading.{lead_step};

use crate::machine::Core;
use crate::requests::keep_live;

impl Core {
    /// A request of which no attempt is in flight then is so no more.
    pub(super) fn lead_by(&mut self, partition: u32, leader: u32, now: u64)
        ensures { self.new ≡ lead_step partition leader now self.old }
    {
        self.partitions.lead_one(partition, leader, now);
        keep_live(&mut self.requests, self.partitions.all());
    }
}
