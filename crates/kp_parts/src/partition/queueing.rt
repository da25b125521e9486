//! An item joins the queue of a partition.

ghost use Rattle.std.specs.Prelude.{◌≡◌, ◌≤◌, Ok, Some, OnOk, OnErr};
ghost use Rattle.kp_accum.specs.Config.{checked};
ghost use Rattle.kp_accum.specs.Queue.{charge_of};
ghost use Rattle.kp_rules.specs.Appending.{enqueue};
ghost use Rattle.kp_rules.specs.Replies.{go_on_under};

use crate::audit::reserve_audit;
use crate::partition::Partition;
use kp_accum::{Config, Item};
use kp_batch::SIZE_LIMIT;
use std::alloc::AllocError;

impl Partition {
    /// Puts the item, which has this charge, last in the queue. The audit's place for it is made with it. Where memory is
    /// refused, or no more items can be counted, it is put into `refused`.
    #[inline(always)]
    pub fn enqueue(
        &mut self,
        config: &Config,
        charge: u64,
        item: Item,
        refused: &mut Option<Item>,
    ) -> Result<(), AllocError>
        requires allowed { checked config.now ≡ Ok tt }
        requires is_its { charge ≡ charge_of item }
        requires fits { charge ≤ SIZE_LIMIT }
        ensures ok { OnOk result (self.new ≡ enqueue config.now item self.old) }
        ensures err { OnErr result (self.new ≡ self.old) }
        ensures back { OnErr result (refused.new ≡ Some item) }
        ensures still { OnOk result (refused.new ≡ refused.old) }
    {
        if self.queued == usize::MAX || reserve_audit(&mut self.audit, self.queued).is_err() {
            *refused = Some(item);
            return Err(AllocError);
        }
        self.queue.append(config, charge, item, refused)?;
        self.queued += 1;
        Ok(())
    }

    /// It goes on under this producer id, from sequence number 0.
    pub fn go_on_under(&mut self, id: u64) -> Result<(), AllocError>
        ensures ok { OnOk result (self.new ≡ go_on_under id self.old) }
        ensures err { OnErr result (self.new ≡ self.old) }
    {
        self.ids.push(id)?;
        self.next_sequence = 0;
        self.acknowledged = false;
        Ok(())
    }
}
