//! An item is appended.

ghost use Rattle.std.specs.Prelude.{◌≡◌, true, false, Some, OnErr, OnOk};
ghost use Rattle.kp_accum.specs.Queue.{charge_of};
ghost use Rattle.kp_batch.specs.Spelling.{measured};
ghost use Rattle.kp_rules.specs.Appending.{append_step, may_append, turn_away, would_exhaust};
ghost use Rattle.kp_rules.specs.Calls.{Append, Step};
ghost use Rattle.kp_rules.specs.Held.{IsRecord};
ghost use Rattle.kp_rules.specs.Partitions.{partition_at};

use crate::machine::Core;
use kp_accum::{AppendFault, Item};
use kp_batch::Record;
use kp_rules::{Outcome, Reason};
use std::alloc::AllocError;

/// A record's moment is an int64, and the keys of its headers are texts: their types say so.
#[inline]
fn see_record(body: &Record)
    ensures { IsRecord body.now }
{
    let _moment = body.timestamp.millis();
    for header in body.headers.as_slice() {
        let _key = header.key.as_str();
    }
}

impl Core {
    #[inline(always)]
    pub(super) fn append_item(
        &mut self,
        item: Item,
        charge: u64,
        refused: &mut Option<Item>,
    ) -> Result<(), AppendFault>
        requires may { may_append item self.old ≡ true }
        requires is_its { charge ≡ measured (charge_of item) }
        ensures step { Step self.old (Append item result) self.new }
        ensures back { OnErr result (refused.new ≡ Some item) }
        ensures still { OnOk result (refused.new ≡ refused.old) }
    {
        if self.ended {
            return self.turn_away(item, Reason::Ended, refused);
        }
        if self.partitions.at(item.partition).is_fenced() {
            return self.turn_away(item, Reason::Fenced, refused);
        }
        if !self.desk.has_room(charge) {
            self.exhausted = true;
            *refused = Some(item);
            return Err(AppendFault::BufferFull);
        }
        self.enqueue(item, charge, refused)
    }

    /// The item's sender is told at once that it was not sent.
    fn turn_away(
        &mut self,
        item: Item,
        why: Reason,
        refused: &mut Option<Item>,
    ) -> Result<(), AppendFault>
        requires may { may_append item self.old ≡ true }
        requires turned { append_step item self.old ≡ turn_away why item self.old }
        ensures step { Step self.old (Append item result) self.new }
        ensures back { OnErr result (refused.new ≡ Some item) }
        ensures still { OnOk result (refused.new ≡ refused.old) }
    {
        if self.desk.reserve(item.sender).is_err() {
            *refused = Some(item);
            return Err(AppendFault::OutOfMemory);
        }
        self.desk.turn_away(&item, Outcome::Unsent(why));
        Ok(())
    }

    /// The item, which has this charge, joins its partition's queue, and has a place for its report.
    #[inline(always)]
    fn enqueue(
        &mut self,
        item: Item,
        charge: u64,
        refused: &mut Option<Item>,
    ) -> Result<(), AppendFault>
        requires may { may_append item self.old ≡ true }
        requires is_its { charge ≡ charge_of item }
        requires going { self.old.ended ≡ false }
        requires free { (partition_at item.partition self.old.partitions).fenced ≡ false }
        requires room { would_exhaust item self.old ≡ false }
        ensures step { Step self.old (Append item result) self.new }
        ensures back { OnErr result (refused.new ≡ Some item) }
        ensures still { OnOk result (refused.new ≡ refused.old) }
    {
        see_record(&item.body);
        let sender = item.sender;
        if self.desk.reserve(sender).is_err() {
            *refused = Some(item);
            return Err(AppendFault::OutOfMemory);
        }
        if let Err(AllocError) = self.partitions.enqueue(&self.config, charge, item, refused) {
            self.desk.give_back_place(sender);
            return Err(AppendFault::OutOfMemory);
        }
        self.desk.take(charge);
        Ok(())
    }
}
