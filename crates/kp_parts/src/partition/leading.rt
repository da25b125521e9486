//! The node that leads a partition: its batches go there.

ghost use Rattle.std.specs.Prelude.{◌≡◌};
ghost use Rattle.kp_rules.specs.Dropping.{drop_led};
ghost use Rattle.kp_rules.specs.Leading.{led_by, moved_to};
ghost use Rattle.kp_rules.specs.MaySend.{sends};
ghost use Rattle.kp_rules.specs.Next.{sends_to};
ghost use Rattle.kp_rules.specs.Partitions.{leads};

use crate::handed::HandedBatch;
use crate::partition::Partition;
use kp_accum::{Config, Flags};

impl Partition {
    /// The node that its batches go to.
    pub fn leader(&self) -> u32
        ensures { result ≡ self.now.leader }
    {
        self.leader
    }

    /// Whether its batches go to this node.
    pub fn is_led_by(&self, node: u32) -> bool
        ensures { result ≡ leads node self.now }
    {
        self.leader == node
    }

    /// The batch that it may send to this node, while one request more may be in flight there.
    #[inline]
    pub fn sends_to(
        &self,
        node: u32,
        config: &Config,
        flags: Flags,
        now: u64,
    ) -> Option<HandedBatch<'_>>
        ensures { result ≡ sends_to node sends config.now flags now self.now }
    {
        if !self.is_led_by(node) {
            return None;
        }
        self.sends(config, flags, now)
    }

    /// Where the node leads it, what was in flight waits from this moment on.
    pub fn drop_led(&mut self, node: u32, now: u64)
        ensures { self.new ≡ drop_led node now self.old }
    {
        if self.is_led_by(node) {
            self.drop_attempts(now);
        }
    }

    /// The node leads it from now on; where another one did, what was in flight waits from this moment on.
    pub fn lead_by(&mut self, leader: u32, now: u64)
        ensures { self.new ≡ led_by leader now self.old }
    {
        if !self.is_led_by(leader) {
            self.move_to(leader, now);
        }
    }

    fn move_to(&mut self, leader: u32, now: u64)
        ensures { self.new ≡ moved_to leader now self.old }
    {
        self.leader = leader;
        self.drop_attempts(now);
    }
}
