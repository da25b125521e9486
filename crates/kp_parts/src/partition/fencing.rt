//! A partition gives up what it has: at a fence, and at the end.

ghost use Rattle.std.specs.Prelude.{◌≡◌, []};
ghost use Rattle.kp_rules.specs.Fence.{fence, give_up};
ghost use Rattle.kp_rules.specs.Partitions.{items_open, items_queued};
ghost use Rattle.kp_rules.specs.Telling.{told_all};
ghost use Rattle.kp_parts.specs.Desk.{tell_desk, Covers};

use crate::desk::Desk;
use crate::open::Open;
use crate::partition::Partition;
use kp_accum::Queue;
use kp_rules::{Outcome, Reason};

impl Partition {
    /// What is open may stand in the log or not; what is queued was never sent, for this reason. Nothing of it is left.
    pub fn give_up(&mut self, why: Reason, desk: &mut Desk)
        requires { Covers desk.old (give_up why self.old).told }
        ensures after { self.new ≡ (give_up why self.old).after }
        ensures told { desk.new ≡ tell_desk (give_up why self.old).told desk.old }
    {
        tell_unknown(&self.open_batches, desk);
        self.open_batches.clear();
        tell_unsent(&mut self.queue, why, desk);
        self.queued = 0;
    }

    /// It gives all up, and sends nothing more.
    pub fn fence(&mut self, desk: &mut Desk)
        requires { Covers desk.old (fence self.old).told }
        ensures after { self.new ≡ (fence self.old).after }
        ensures told { desk.new ≡ tell_desk (fence self.old).told desk.old }
    {
        self.give_up(Reason::Fenced, desk);
        self.fenced = true;
    }
}

/// Tells of each item of these batches that it may stand in the log or not.
fn tell_unknown(open_batches: &[Open], desk: &mut Desk)
    requires { Covers desk.old (told_all Outcome.Unknown (items_open open_batches.now)) }
    ensures { desk.new ≡ tell_desk (told_all Outcome.Unknown (items_open open_batches.now)) desk.old }
{
    for open in open_batches {
        open.tell(Outcome::Unknown, desk);
    }
}

/// Tells of each queued item that it was never sent, and empties the queue.
fn tell_unsent(queue: &mut Queue, why: Reason, desk: &mut Desk)
    requires { Covers desk.old (told_all (Outcome.Unsent why) (items_queued queue.old)) }
    ensures queue { queue.new ≡ [] }
    ensures told { desk.new ≡ tell_desk (told_all (Outcome.Unsent why) (items_queued queue.old)) desk.old }
{
    while let Some(batch) = queue.take_front() {
        desk.tell_all(batch.items(), batch.charge(), Outcome::Unsent(why));
    }
}
