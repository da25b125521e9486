//! Deadlines: what is late is given up.

ghost use Rattle.std.specs.Prelude.{◌≡◌, length};
ghost use Rattle.std.specs.List.{list_any};
ghost use Rattle.kp_rules.specs.Partitions.{items_queued};
ghost use Rattle.kp_rules.specs.Telling.{told_all};
ghost use Rattle.kp_rules.specs.Tick.{behind_late, expire_front, heed_deadlines, is_open_late, late_front};
ghost use Rattle.kp_parts.specs.Desk.{tell_desk, Covers};

use crate::desk::Desk;
use crate::open::Open;
use crate::partition::Partition;
use kp_accum::{Config, Queue};
use kp_rules::{Outcome, Reason};

impl Partition {
    /// An open batch that is late fences it, and then nothing is queued; else the late front of its queue expires.
    pub fn heed_deadlines(&mut self, config: &Config, now: u64, desk: &mut Desk)
        requires { Covers desk.old (heed_deadlines config.now now self.old).told }
        ensures after { self.new ≡ (heed_deadlines config.now now self.old).after }
        ensures told { desk.new ≡ tell_desk (heed_deadlines config.now now self.old).told desk.old }
    {
        if any_late(&self.open_batches, config, now) {
            self.fence(desk);
        } else {
            self.expire_front(config, now, desk);
        }
    }

    /// The late front of its queue expires.
    fn expire_front(&mut self, config: &Config, now: u64, desk: &mut Desk)
        requires { Covers desk.old (expire_front config.now now self.old).told }
        ensures after { self.new ≡ (expire_front config.now now self.old).after }
        ensures told { desk.new ≡ tell_desk (expire_front config.now now self.old).told desk.old }
    {
        self.queued = expire_late(&mut self.queue, self.queued, config, now, desk);
    }
}

/// Whether a batch's delivery timeout is over.
fn any_late(open_batches: &[Open], config: &Config, now: u64) -> bool
    ensures { result ≡ list_any (is_open_late config.now now) open_batches.now }
{
    open_batches.iter().any(|open| open.is_late(config, now))
}

/// Tells of each item of the late front that it has expired, and takes it away; of so many items, so many are left.
fn expire_late(
    queue: &mut Queue,
    queued: usize,
    config: &Config,
    now: u64,
    desk: &mut Desk,
) -> usize
    requires queued { queued ≡ length (items_queued queue.old) }
    requires covered { Covers desk.old (told_all (Outcome.Unsent Reason.Expired) (items_queued (late_front config.now now queue.old))) }
    ensures queue { queue.new ≡ behind_late config.now now queue.old }
    ensures told { desk.new ≡ tell_desk (told_all (Outcome.Unsent Reason.Expired) (items_queued (late_front config.now now queue.old))) desk.old }
    ensures left { result ≡ length (items_queued queue.new) }
{
    let mut left = queued;
    while let Some(batch) = queue.expire(config, now) {
        left -= batch.items().len();
        desk.tell_all(
            batch.items(),
            batch.charge(),
            Outcome::Unsent(Reason::Expired),
        );
    }
    left
}
