//! A sender's lane, with what numbers and places its records.

ghost use Rattle.std.specs.Prelude.{◌≡◌, ◌≤◌, ◌<◌, ◌^◌, [], length};
ghost use Rattle.rtrb.specs.Ring.{sent};
ghost use Rattle.kp_lanes.specs.Entries.{items_of, Counted};
ghost use Rattle.kp_lanes.specs.Limits.{AreInPlace};

use crate::entry::Entry;
use crate::fault::{FlushFault, SendFault};
use crate::gate::{Gate, Seat};
use crate::lane::Lane;
use crate::limits::{Limits, charge_of};
use crate::target::{Target, Ticket};
use kp_accum::Item;
use kp_batch::Record;
use kp_wire::partition_of_key;

/// A sender's lane, with what numbers and places its records.
#[derive(Drop)]
pub struct Outbox {
    pub(crate) sender: u32,
    limits: Limits,
    /// How many records were accepted.
    count: u64,
    /// The number of each partition's next record.
    next: Vec<u64>,
    /// Where the next record goes that has no key and no named partition.
    turn: u32,
    pub(crate) lane: Lane,
    ghost wide: { (1 ≤ limits.partitions) × (length next.items ≡ limits.partitions) },
    ghost in_turn: { turn < limits.partitions },
    ghost numbered: { Counted next.items (sent lane.ring) },
    ghost counted: { count ≡ length (items_of (sent lane.ring)) },
    ghost in_place: { AreInPlace limits sender (items_of (sent lane.ring)) },
}

impl Outbox {
    ghost use Rattle.std.specs.Prelude.{◌≡◌, ℕ, ◌≤◌, ◌<◌, ◌%◌, ◌^◌, ◌++◌, ◌∷◌, [], length, slice_index_or, IfOk, IfErr, OnOk, OnErr, IfSome, IfNone};
    ghost use Rattle.kp_lanes.specs.declared.gate.view.Stage.TheVariants.{Inside};
    ghost use Rattle.kp_lanes.specs.declared.entry.Entry.TheVariants.{Sent, Mark};
    ghost use Rattle.kp_lanes.specs.declared.fault.FlushFault.TheVariants.{LaneFull};
    ghost use Rattle.kp_lanes.specs.Tokens.{view, seat_gate, gate_id};
    ghost use Rattle.kp_lanes.specs.Entries.{count_of};
    ghost use Rattle.kp_lanes.specs.Lane.{lane_gate, pushed, accepted_in, free};
    ghost use Rattle.kp_lanes.specs.Rings.{push_end};
    ghost use Rattle.kp_lanes.specs.Outbox.{goes_to, turn_after, SameBox, Accepts, Refuses, LostNothing};

    pub(crate) fn new(sender: u32, limits: Limits, next: Vec<u64>, lane: Lane) -> Outbox
        requires wide { (1 ≤ limits.partitions) × (length next.items ≡ limits.partitions) }
        requires zeros { (p : ℕ) → p < length next.items → slice_index_or next.items p 0 ≡ 0 }
        requires empty { pushed lane ≡ [] }
        ensures parts { (result.sender ≡ sender) × (result.limits ≡ limits) × (result.lane ≡ lane) }
        ensures turn { result.turn ≡ sender % limits.partitions }
    {
        Outbox {
            sender,
            limits,
            count: 0,
            next,
            turn: sender % limits.partitions,
            lane,
        }
    }

    pub(crate) fn sender(&self) -> u32
        ensures { result ≡ self.now.sender }
    {
        self.sender
    }

    pub(crate) fn count(&self) -> u64
        ensures { result ≡ length (accepted_in self.now.lane) }
    {
        self.count
    }

    pub(crate) fn gate(&self) -> &Gate
        ensures { gate_id result.now ≡ lane_gate self.now.lane }
    {
        self.lane.gate()
    }

    /// The partition that the record is to go to. A named one may be none of the lane's.
    fn partition_for(&self, target: Target, body: &Record) -> u32
        ensures { result ≡ goes_to self.now target body.now }
    {
        match target {
            Target::Named(partition) => partition,
            Target::Auto => match &body.key {
                Some(key) => partition_of_key(key.as_slice(), self.limits.partitions),
                None => self.turn,
            },
        }
    }

    /// The place of the round robin behind the record.
    fn turn_behind(&self, target: Target, body: &Record) -> u32
        ensures value { result ≡ turn_after self.now target body.now }
        ensures below { result < self.now.limits.partitions }
    {
        let partitions = self.limits.partitions;
        match (target, &body.key) {
            (Target::Auto, None) => (self.turn + 1) % partitions,
            _ => self.turn,
        }
    }

    /// Why the record can't go to this partition, but for want of a free place.
    fn fault_of(&self, partition: u32, body: &Record) -> Option<SendFault>
        ensures some { IfSome result (Refuses self.now partition body.now) }
        ensures none { IfNone result (Accepts self.now partition body.now) }
    {
        if partition >= self.limits.partitions {
            return Some(SendFault::NoSuchPartition);
        }
        if charge_of(body) > self.limits.max_record {
            return Some(SendFault::RecordTooLarge);
        }
        if self.count == u64::MAX {
            return Some(SendFault::NumberSpent);
        }
        None
    }

    /// Puts the record into the lane, or gives it back, with all as it was.
    pub(crate) fn offer(
        &mut self,
        seat: &Seat,
        target: Target,
        body: Record,
        at: u64,
    ) -> Result<Ticket, (SendFault, Record)>
        requires here { seat_gate seat.now ≡ lane_gate self.old.lane }
        requires inside { (view seat.now).stage ≡ Inside }
        ensures same { SameBox self.old self.new }
        ensures accepts { IfOk result (λ t. Accepts self.old t.partition body) }
        ensures partition { IfOk result (λ t. t.partition ≡ goes_to self.old target body) }
        ensures number { IfOk result (λ t. t.number ≡ count_of t.partition (accepted_in self.old.lane)) }
        ensures sent { IfOk result (λ t. pushed self.new.lane ≡ pushed self.old.lane
            ++ Sent (record { sender = self.old.sender; partition = t.partition; number = t.number; at = at; body = body }) ∷ []) }
        ensures accepted { IfOk result (λ t. accepted_in self.new.lane ≡ accepted_in self.old.lane
            ++ record { sender = self.old.sender; partition = t.partition; number = t.number; at = at; body = body } ∷ []) }
        ensures turn { OnOk result (self.new.turn ≡ turn_after self.old target body) }
        ensures back { IfErr result (λ e. e.1 ≡ body) }
        ensures lost_nothing { OnErr result (LostNothing self.old self.new) }
        ensures why { IfErr result (λ e. Refuses self.old (goes_to self.old target body) body e.0) }
    {
        let partition = self.partition_for(target, &body);
        if let Some(fault) = self.fault_of(partition, &body) {
            return Err((fault, body));
        }
        let turn = self.turn_behind(target, &body);
        let number = self.next[partition as usize];
        let item = Item {
            sender: self.sender,
            partition,
            number,
            at,
            body,
        };
        match self.lane.push(seat, Entry::Sent(item)) {
            Ok(()) => {
                self.count += 1;
                self.next[partition as usize] = number + 1;
                self.turn = turn;
                Ok(Ticket { partition, number })
            }
            Err(back) => Err((SendFault::LaneFull, body_of(back))),
        }
    }

    /// Puts a mark into the lane, behind all that was accepted.
    pub(crate) fn mark(&mut self, seat: &Seat) -> Result<(), FlushFault>
        requires here { seat_gate seat.now ≡ lane_gate self.old.lane }
        requires inside { (view seat.now).stage ≡ Inside }
        ensures same { SameBox self.old self.new }
        ensures turn { self.new.turn ≡ self.old.turn }
        ensures ok { OnOk result (pushed self.new.lane ≡ pushed self.old.lane ++ Mark ∷ []) }
        ensures items { accepted_in self.new.lane ≡ accepted_in self.old.lane }
        ensures full { IfErr result (λ e. (e ≡ LaneFull) × (pushed self.new.lane ≡ pushed self.old.lane) × (free self.old.lane ≡ 0)) }
    {
        match self.lane.push(seat, Entry::Mark) {
            Ok(()) => Ok(()),
            Err(_) => Err(FlushFault::LaneFull),
        }
    }
}

ghost use Rattle.std.specs.Prelude.{IsSome, Some};
ghost use Rattle.kp_lanes.specs.Entries.{body_of};

/// The record of an item that came back.
fn body_of(entry: Entry) -> Record
    requires { IsSome (body_of entry) }
    ensures { body_of entry ≡ Some result }
{
    match entry {
        Entry::Sent(
            Item {
                sender: _,
                partition: _,
                number: _,
                at: _,
                body,
            },
        ) => body,
        Entry::Mark => unreachable!(),
    }
}
