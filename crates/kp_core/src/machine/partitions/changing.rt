//! What happens to the partitions. Where a rule leaves one alone that has nothing to do, the walk passes it over.

ghost use Rattle.std.specs.Prelude.{◌≡◌, ◌<◌, true, map, flat_map, filter, length, slice_set, vec_capacity, OnOk, OnErr};
ghost use Rattle.std.specs.List.{AllByRecursion};
ghost use Rattle.kp_rules.specs.Dropping.{drop_led};
ghost use Rattle.kp_rules.specs.Fence.{give_up};
ghost use Rattle.kp_rules.specs.Flush.{mark};
ghost use Rattle.kp_rules.specs.HandingOver.{send_in};
ghost use Rattle.kp_rules.specs.InOrder.{AreDistinct};
ghost use Rattle.kp_rules.specs.Leading.{led_by};
ghost use Rattle.kp_rules.specs.Partitions.{changed_at, is_in, partition_at};
ghost use Rattle.kp_rules.specs.Tick.{heed_deadlines};
ghost use Rattle.kp_parts.specs.Desk.{tell_desk, Covers};
ghost use Rattle.kp_core.specs.Busy.{is_busy};
ghost use Rattle.kp_core.specs.Choosing.{MayGoOut};
ghost use Rattle.kp_core.specs.Hearing.{entry_at, id_given, offsets_by, settled_by};

use crate::machine::matching::Entry;
use crate::machine::partitions::Partitions;
use crate::machine::partitions::leaders::{led_by, put_led, remove_led};
use kp_accum::Config;
use kp_parts::{Desk, Partition};
use kp_rules::Reason;
use std::alloc::AllocError;

impl Partitions {
    /// What was in flight to this node waits for a retry from this moment on.
    pub(crate) fn drop_each(&mut self, node: u32, now: u64)
        ensures { self.new ≡ map (drop_led node now) self.old }
    {
        let places = led_by(&self.by_leader, &self.all, node);
        drop_at(&mut self.all, places, node, now);
    }

    /// A flush waits for all that is queued or open.
    pub(crate) fn mark_each(&mut self)
        ensures { self.new ≡ map mark self.old }
    {
        mark_at(&mut self.all, &self.busy);
    }

    /// What is late is given up, upwards.
    pub(crate) fn heed_each(&mut self, desk: &mut Desk, config: &Config, now: u64)
        requires { Covers desk.old (flat_map (λ t. (heed_deadlines config.now now t).told) self.old) }
        ensures after { self.new ≡ map (λ t. (heed_deadlines config.now now t).after) self.old }
        ensures told { desk.new ≡ tell_desk (flat_map (λ t. (heed_deadlines config.now now t).told) self.old) desk.old }
    {
        heed_at(&mut self.all, desk, &self.busy, config, now);
        keep_in_both(&mut self.busy, &mut self.by_leader, &self.all);
    }

    /// All that is left is given up, upwards.
    pub(crate) fn give_up_each(&mut self, desk: &mut Desk, why: Reason)
        requires { Covers desk.old (flat_map (λ t. (give_up why t).told) self.old) }
        ensures after { self.new ≡ map (λ t. (give_up why t).after) self.old }
        ensures told { desk.new ≡ tell_desk (flat_map (λ t. (give_up why t).told) self.old) desk.old }
    {
        give_up_at(&mut self.all, desk, &self.busy, why);
        self.busy.clear();
        self.by_leader.clear();
    }

    /// Each of these partitions is settled by its entry.
    pub(crate) fn settle_each(
        &mut self,
        desk: &mut Desk,
        now: u64,
        correlation: u32,
        chosen: &[u32],
        found: &[Entry<'_>],
    )
        requires there { AllByRecursion (λ p. p < length self.old) chosen.now }
        requires once { AreDistinct chosen.now }
        requires entries { length found.now ≡ length self.old }
        requires offsets { AllByRecursion (λ p. offsets_by correlation (entry_at p found.now) (partition_at p self.old) ≡ true) chosen.now }
        requires covered { Covers desk.old (flat_map (λ p. (settled_by now correlation (entry_at p found.now) (partition_at p self.old)).told) chosen.now) }
        ensures after { self.new ≡ changed_at chosen.now (λ p t. (settled_by now correlation (entry_at p found.now) t).after) self.old }
        ensures told { desk.new ≡ tell_desk (flat_map (λ p. (settled_by now correlation (entry_at p found.now) (partition_at p self.old)).told) chosen.now) desk.old }
    {
        settle_at(&mut self.all, desk, now, correlation, chosen, found);
        keep_in_both(&mut self.busy, &mut self.by_leader, &self.all);
    }

    /// What each of these partitions may send goes out in this request.
    pub(crate) fn send_each(&mut self, chosen: &[u32], correlation: u32)
        requires there { AllByRecursion (λ p. p < length self.old) chosen.now }
        requires once { AreDistinct chosen.now }
        requires place { AllByRecursion (λ p. MayGoOut (partition_at p self.old)) chosen.now }
        ensures { self.new ≡ changed_at chosen.now (λ p t. send_in correlation t) self.old }
    {
        send_at(&mut self.all, chosen, correlation);
    }

    /// The node leads this partition, if it is there.
    pub(crate) fn lead_one(&mut self, place: u32, leader: u32, now: u64)
        ensures { self.new ≡ slice_set self.old place (led_by leader now (partition_at place self.old)) }
    {
        if place as usize >= self.all.len() {
            return;
        }
        let partition = &mut self.all[place as usize];
        partition.lead_by(leader, now);
        if !partition.is_idle() {
            remove_led(&mut self.by_leader, place);
            put_led(&mut self.by_leader, &self.all, place);
        }
    }

    /// The partition goes on under this id, where it still wants one.
    pub(crate) fn give_id(&mut self, config: &Config, place: u32, id: u64) -> Result<(), AllocError>
        ensures ok { OnOk result (self.new ≡ id_given config.now id place self.old) }
        ensures err { OnErr result (self.new ≡ self.old) }
    {
        let place = place as usize;
        if place < self.all.len() && self.all[place].wants_id(config) {
            return self.all[place].go_on_under(id);
        }
        Ok(())
    }
}

/// Those stay in both lists of which something is queued or open. The second one has none that the first has not.
#[inline(always)]
fn keep_in_both(busy: &mut Vec<u32>, by_leader: &mut Vec<u32>, partitions: &[Partition])
    requires { AllByRecursion (λ p. is_in p busy.old.items ≡ true) by_leader.old.items }
    ensures busy { busy.new.items ≡ filter (λ p. is_busy (partition_at p partitions.now)) busy.old.items }
    ensures by_leader { by_leader.new.items ≡ filter (λ p. is_busy (partition_at p partitions.now)) by_leader.old.items }
    ensures room { vec_capacity busy.new ≡ vec_capacity busy.old }
    ensures by_leader_room { vec_capacity by_leader.new ≡ vec_capacity by_leader.old }
{
    if busy.is_empty() {
        return;
    }
    let count = busy.len();
    keep_busy(busy, partitions);
    if busy.len() < count {
        keep_busy(by_leader, partitions);
    }
}

/// Those stay of which something is queued or open.
#[inline(always)]
fn keep_busy(places: &mut Vec<u32>, partitions: &[Partition])
    ensures items { places.new.items ≡ filter (λ p. is_busy (partition_at p partitions.now)) places.old.items }
    ensures capacity { vec_capacity places.new ≡ vec_capacity places.old }
{
    places.retain(|place| is_busy_at(partitions, *place));
}

/// Whether something of this partition, if it is there, is queued or open.
#[inline(always)]
fn is_busy_at(partitions: &[Partition], place: u32) -> bool
    ensures { result ≡ is_busy (partition_at place partitions.now) }
{
    let place = place as usize;
    place < partitions.len() && !partitions[place].is_idle()
}

fn drop_at(partitions: &mut Vec<Partition>, places: &[u32], node: u32, now: u64)
    requires there { AllByRecursion (λ p. p < length partitions.old.items) places.now }
    requires once { AreDistinct places.now }
    ensures { partitions.new.items ≡ changed_at places.now (λ p t. drop_led node now t) partitions.old.items }
{
    for place in places {
        let partition = &mut partitions[*place as usize];
        partition.drop_led(node, now);
    }
}

fn mark_at(partitions: &mut Vec<Partition>, places: &[u32])
    requires there { AllByRecursion (λ p. p < length partitions.old.items) places.now }
    requires once { AreDistinct places.now }
    ensures { partitions.new.items ≡ changed_at places.now (λ p t. mark t) partitions.old.items }
{
    for place in places {
        let partition = &mut partitions[*place as usize];
        partition.mark();
    }
}

fn heed_at(
    partitions: &mut Vec<Partition>,
    desk: &mut Desk,
    places: &[u32],
    config: &Config,
    now: u64,
)
    requires there { AllByRecursion (λ p. p < length partitions.old.items) places.now }
    requires once { AreDistinct places.now }
    requires covered { Covers desk.old (flat_map (λ p. (heed_deadlines config.now now (partition_at p partitions.old.items)).told) places.now) }
    ensures after { partitions.new.items ≡ changed_at places.now (λ p t. (heed_deadlines config.now now t).after) partitions.old.items }
    ensures told { desk.new ≡ tell_desk (flat_map (λ p. (heed_deadlines config.now now (partition_at p partitions.old.items)).told) places.now) desk.old }
{
    for place in places {
        let partition = &mut partitions[*place as usize];
        partition.heed_deadlines(config, now, desk);
    }
}

fn give_up_at(partitions: &mut Vec<Partition>, desk: &mut Desk, places: &[u32], why: Reason)
    requires there { AllByRecursion (λ p. p < length partitions.old.items) places.now }
    requires once { AreDistinct places.now }
    requires covered { Covers desk.old (flat_map (λ p. (give_up why (partition_at p partitions.old.items)).told) places.now) }
    ensures after { partitions.new.items ≡ changed_at places.now (λ p t. (give_up why t).after) partitions.old.items }
    ensures told { desk.new ≡ tell_desk (flat_map (λ p. (give_up why (partition_at p partitions.old.items)).told) places.now) desk.old }
{
    for place in places {
        let partition = &mut partitions[*place as usize];
        partition.give_up(why, desk);
    }
}

fn send_at(partitions: &mut Vec<Partition>, chosen: &[u32], correlation: u32)
    requires there { AllByRecursion (λ p. p < length partitions.old.items) chosen.now }
    requires once { AreDistinct chosen.now }
    requires place { AllByRecursion (λ p. MayGoOut (partition_at p partitions.old.items)) chosen.now }
    ensures { partitions.new.items ≡ changed_at chosen.now (λ p t. send_in correlation t) partitions.old.items }
{
    for place in chosen {
        let partition = &mut partitions[*place as usize];
        partition.send_in(correlation);
    }
}

fn settle_at(
    partitions: &mut Vec<Partition>,
    desk: &mut Desk,
    now: u64,
    correlation: u32,
    chosen: &[u32],
    found: &[Entry<'_>],
)
    requires there { AllByRecursion (λ p. p < length partitions.old.items) chosen.now }
    requires once { AreDistinct chosen.now }
    requires entries { length found.now ≡ length partitions.old.items }
    requires offsets { AllByRecursion (λ p. offsets_by correlation (entry_at p found.now) (partition_at p partitions.old.items) ≡ true) chosen.now }
    requires covered { Covers desk.old (flat_map (λ p. (settled_by now correlation (entry_at p found.now) (partition_at p partitions.old.items)).told) chosen.now) }
    ensures after { partitions.new.items ≡ changed_at chosen.now (λ p t. (settled_by now correlation (entry_at p found.now) t).after) partitions.old.items }
    ensures told { desk.new ≡ tell_desk (flat_map (λ p. (settled_by now correlation (entry_at p found.now) (partition_at p partitions.old.items)).told) chosen.now) desk.old }
{
    for place in chosen {
        settle_one(partitions, desk, now, correlation, *place, found);
    }
}

/// The partition is settled by its entry.
fn settle_one(
    partitions: &mut Vec<Partition>,
    desk: &mut Desk,
    now: u64,
    correlation: u32,
    place: u32,
    found: &[Entry<'_>],
)
    requires there { place < length partitions.old.items }
    requires entries { length found.now ≡ length partitions.old.items }
    requires offsets { offsets_by correlation (entry_at place found.now) (partition_at place partitions.old.items) ≡ true }
    requires covered { Covers desk.old (settled_by now correlation (entry_at place found.now) (partition_at place partitions.old.items)).told }
    ensures after { partitions.new.items ≡ slice_set partitions.old.items place (settled_by now correlation (entry_at place found.now) (partition_at place partitions.old.items)).after }
    ensures told { desk.new ≡ tell_desk (settled_by now correlation (entry_at place found.now) (partition_at place partitions.old.items)).told desk.old }
{
    if let Entry::One(entry) = found[place as usize] {
        partitions[place as usize].settle_batch(now, correlation, entry, desk);
    }
}
