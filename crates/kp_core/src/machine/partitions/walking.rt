//! What the partitions that have something to do say: the others say nothing to it.

ghost use Rattle.std.specs.Prelude.{◌≡◌, ◌≤◌, ◌<◌, ◌+◌, ◌++◌, [], drop, filter, filter_map, find, flat_map, take, length, OnOk, IfErr};
ghost use Rattle.std.specs.List.{AllByRecursion, list_any};
ghost use Rattle.kp_rules.specs.Due.{earliest, partition_moments};
ghost use Rattle.kp_rules.specs.Flush.{has_marks};
ghost use Rattle.kp_rules.specs.MaySend.{wants_id};
ghost use Rattle.kp_rules.specs.Partitions.{leads, partition_at};
ghost use Rattle.kp_core.specs.Busy.{busy_from, has_work_for};
ghost use Rattle.kp_core.specs.ByLeader.{work_in};
ghost use Rattle.kp_core.specs.Choosing.{numbered_from, sends_in};

use crate::machine::partitions::Partitions;
use crate::machine::partitions::leaders::led_by;
use kp_accum::{Config, Flags};
use kp_parts::{Sending, sooner};
use std::alloc::AllocError;

impl Partitions {
    /// Those that this node leads and that have something to do, upwards.
    #[inline]
    pub(crate) fn led_by(&self, node: u32) -> &[u32]
        ensures { result.now ≡ work_in node self.now }
    {
        led_by(&self.by_leader, &self.all, node)
    }

    /// Whether something is queued or open of one that this node leads.
    pub(crate) fn have_work(&self, node: u32) -> bool
        ensures { result ≡ list_any (has_work_for node) self.now }
    {
        !self.led_by(node).is_empty()
    }

    /// Whether a flush waits for a batch of one of them.
    pub(crate) fn any_marked(&self) -> bool
        ensures { result ≡ list_any has_marks self.now }
    {
        for place in &self.busy {
            if self.at(*place).has_marks() {
                return true;
            }
        }
        false
    }

    /// Whether one of them wants a fresh id.
    pub(crate) fn any_wants_id(&self, config: &Config) -> bool
        ensures { result ≡ list_any (wants_id config.now) self.now }
    {
        for place in &self.busy {
            if self.at(*place).wants_id(config) {
                return true;
            }
        }
        false
    }

    /// The number of the first one of these that wants a fresh id.
    pub(crate) fn first_wanting(&self, places: &[u32], config: &Config) -> Option<u32>
        requires { AllByRecursion (λ p. p < length self.now) places.now }
        ensures { result ≡ find (λ p. wants_id config.now (partition_at p self.now)) places.now }
    {
        for place in places {
            if self.at(*place).wants_id(config) {
                return Some(*place);
            }
        }
        None
    }

    /// The earliest of their moments, from this one on.
    pub(crate) fn earliest_moment(&self, config: &Config, from: u64) -> Option<u64>
        ensures { result ≡ earliest from (flat_map (partition_moments config.now) self.now) }
    {
        let mut earliest = None;
        for place in &self.busy {
            earliest = sooner(earliest, self.at(*place).next_moment(config, from));
        }
        earliest
    }

    /// What they send to this node, from this one on and then below it, goes behind what there is.
    pub(crate) fn gather_from<'a>(
        &'a self,
        sendings: &mut Vec<Sending<'a>>,
        first: usize,
        node: u32,
        config: &Config,
        flags: Flags,
        now: u64,
    ) -> Result<(), AllocError>
        requires { first ≤ length self.now }
        ensures ok { OnOk result (sendings.new.items ≡
            sendings.old.items ++ filter_map (sends_in node config.now flags now) (numbered_from first self.now)) }
        ensures some { IfErr result (λ e. filter_map (sends_in node config.now flags now) (numbered_from first self.now) ≡ [] → ⊥) }
    {
        let (below, behind) = self.split(node, first);
        self.gather(sendings, behind, node, config, flags, now)?;
        self.gather(sendings, below, node, config, flags, now)
    }

    /// Those of the node below this one, and from it on.
    fn split(&self, node: u32, first: usize) -> (&[u32], &[u32])
        requires { first ≤ length self.now }
        ensures below { result.0.now ≡ filter (λ p. leads node (partition_at p self.now)) (busy_from 0 (take first self.now)) }
        ensures behind { result.1.now ≡ filter (λ p. leads node (partition_at p self.now)) (busy_from first (drop first self.now)) }
    {
        let places = self.led_by(node);
        let count = places.partition_point(|place| (*place as usize) < first);
        places.split_at(count)
    }

    /// What these send to this node goes behind what there is.
    fn gather<'a>(
        &'a self,
        sendings: &mut Vec<Sending<'a>>,
        places: &[u32],
        node: u32,
        config: &Config,
        flags: Flags,
        now: u64,
    ) -> Result<(), AllocError>
        requires { AllByRecursion (λ p. p < length self.now) places.now }
        ensures ok { OnOk result (sendings.new.items ≡
            sendings.old.items ++ filter_map (λ p. sends_in node config.now flags now (p, partition_at p self.now)) places.now) }
        ensures some { IfErr result (λ e. filter_map (λ p. sends_in node config.now flags now (p, partition_at p self.now)) places.now ≡ [] → ⊥) }
    {
        for place in places {
            if let Some(batch) = self.at(*place).sends_to(node, config, flags, now) {
                sendings.push(Sending {
                    partition: *place,
                    batch,
                })?;
            }
        }
        Ok(())
    }
}
