//! Records are accepted.

ghost use Rattle.std.specs.Prelude.{◌≡◌, ◌<◌, ◌+◌, ◌^◌, length, true, false, nat_le, IfOk, IfErr, OnOk, OnErr, Ok, Some, slice_index};
ghost use Rattle.std.specs.Bool.{OnTrue};
ghost use Rattle.kp_accum.specs.Queue.{charge_of};
ghost use Rattle.kp_batch.specs.Spelling.{measured};
ghost use Rattle.kp_embed.specs.Producer.{with_cluster};
ghost use Rattle.kp_embed.specs.Sending.{DoesNotTake, GoesTo, HasNoPlace, IsThere, Refuses, Sends, TurnsAway};
ghost use Rattle.kp_rules.specs.Appending.{may_append, would_exhaust};
ghost use Rattle.kp_rules.specs.Calls.{Append, Step};
ghost use Rattle.kp_rules.specs.Partitions.{used};
ghost use Rattle.kp_rules.specs.Requesting.{is_spent};

use crate::embed::Embed;
use crate::fault::SendFault;
use crate::target::{Target, Ticket};
use kp_accum::{AppendFault, Item};
use kp_batch::Record;
use kp_core::Core;
use kp_wire::partition_of_key;

impl Embed {
    /// Accepts a record as the next one of its partition. What is refused comes back.
    #[inline]
    pub fn send(
        &mut self,
        target: Target,
        body: Record,
        now: u64,
    ) -> Result<Ticket, (SendFault, Record)>
        ensures sends { IfOk result (λ t. Sends self.old now body t self.new) }
        ensures to { IfOk result (λ t. GoesTo target t.partition) }
        ensures back { IfErr result (λ refused. refused.1 ≡ body) }
        ensures refused { IfErr result (λ refused. self.new ≡ self.old) }
        ensures when { IfErr result (λ refused. Refuses self.old target now body refused.0) }
        ensures still { self.new.is_closed ≡ self.old.is_closed }
    {
        let mut refused = None;
        match self.send_or_refuse(target, body, now, &mut refused) {
            Ok(ticket) => Ok(ticket),
            Err(fault) => Err((fault, refused.unwrap())),
        }
    }

    /// The same; what is refused is put into `refused`. A result that holds a record is moved, and filled where it holds
    /// none, at each return: this one is for who sends many.
    #[inline(always)]
    pub fn send_or_refuse(
        &mut self,
        target: Target,
        body: Record,
        now: u64,
        refused: &mut Option<Record>,
    ) -> Result<Ticket, SendFault>
        ensures sends { IfOk result (λ t. Sends self.old now body t self.new) }
        ensures to { IfOk result (λ t. GoesTo target t.partition) }
        ensures back { OnErr result (refused.new ≡ Some body) }
        ensures kept { OnOk result (refused.new ≡ refused.old) }
        ensures refused { OnErr result (self.new ≡ self.old) }
        ensures when { IfErr result (λ fault. Refuses self.old target now body fault) }
        ensures still { self.new.is_closed ≡ self.old.is_closed }
    {
        let is_in_turn = matches!((target, &body.key), (Target::Any, None));
        match self.place_for(target, &body) {
            Ok(ticket) => match self.append(ticket, body, now, refused) {
                Ok(ticket) => {
                    if is_in_turn {
                        self.turn = ticket.partition.wrapping_add(1);
                    }
                    Ok(ticket)
                }
                Err(fault) => Err(fault),
            },
            Err(fault) => {
                give_back(body, refused);
                Err(fault)
            }
        }
    }

    /// The place of the record, where there is one.
    #[inline]
    fn place_for(&self, target: Target, body: &Record) -> Result<Ticket, SendFault>
        ensures number { IfOk result (λ t. t.number ≡ slice_index self.now.counts t.partition) }
        ensures there { IfOk result (λ t. t.partition < length self.now.counts) }
        ensures to { IfOk result (λ t. GoesTo target t.partition) }
        ensures none { IfErr result (λ fault. HasNoPlace self.now target fault) }
    {
        if self.is_closed {
            return Err(SendFault::Closed);
        }
        let count = self.counts.len() as u32;
        if count == 0 {
            return Err(SendFault::NotReady);
        }
        let partition = self.partition_for(target, body, count);
        match self.counts.get(partition as usize) {
            Some(number) => Ok(Ticket {
                partition,
                number: *number,
            }),
            None => Err(SendFault::NoPartition),
        }
    }

    fn partition_for(&self, target: Target, body: &Record, count: u32) -> u32
        requires { 0 < count }
        ensures to { GoesTo target result }
        ensures there { IsThere target count result }
    {
        match (target, &body.key) {
            (Target::Partition(partition), _) => partition,
            (Target::Any, Some(key)) => partition_of_key(key.as_slice(), count),
            (Target::Any, None) => self.turn % count,
        }
    }
}

impl Embed {
    /// The record joins its partition's queue with this ticket, or is put into `refused`.
    #[inline(always)]
    fn append(
        &mut self,
        ticket: Ticket,
        body: Record,
        now: u64,
        refused: &mut Option<Record>,
    ) -> Result<Ticket, SendFault>
        requires number { ticket.number ≡ slice_index self.old.counts ticket.partition }
        requires there { ticket.partition < length self.old.counts }
        ensures sends { IfOk result (λ t. Sends self.old now body t self.new) }
        ensures same { IfOk result (λ t. t ≡ ticket) }
        ensures back { OnErr result (refused.new ≡ Some body) }
        ensures kept { OnOk result (refused.new ≡ refused.old) }
        ensures refused { OnErr result (self.new ≡ self.old) }
        ensures when { IfErr result (λ fault. TurnsAway self.old ticket now body fault) }
        ensures still { self.new.is_closed ≡ self.old.is_closed }
    {
        let Some(following) = ticket.number.checked_add(1) else {
            give_back(body, refused);
            return Err(SendFault::Spent);
        };
        let Some(core) = &mut self.core else {
            give_back(body, refused);
            return Err(SendFault::NotReady);
        };
        let item = Item {
            sender: 0,
            partition: ticket.partition,
            number: ticket.number,
            at: now,
            body,
        };
        let mut back = None;
        match append_to(core, item, &mut back) {
            Ok(()) => {
                self.counts[ticket.partition as usize] = following;
                self.want_leader(ticket.partition);
                Ok(ticket)
            }
            Err(fault) => {
                give_back(back.unwrap().body, refused);
                Err(fault)
            }
        }
    }

    /// A record for this partition was accepted: its leader's connection is wanted.
    fn want_leader(&mut self, partition: u32)
        ensures { self.new ≡ with_cluster self.new.cluster self.old }
    {
        if let Some(node) = self.cluster.leader(partition) {
            self.cluster.want(node);
        }
    }
}

/// The record is put into `refused`.
#[inline(always)]
fn give_back(body: Record, refused: &mut Option<Record>)
    ensures { refused.new ≡ Some body }
{
    *refused = Some(body);
}

/// The core takes the item, or is as it was, and the item is put into `refused`.
#[inline(always)]
fn append_to(core: &mut Core, item: Item, refused: &mut Option<Item>) -> Result<(), SendFault>
    ensures taken { OnOk result (Step core.old (Append item (Ok tt)) core.new) }
    ensures left { OnOk result (is_spent core.old ≡ false) }
    ensures refused { OnErr result (core.new ≡ core.old) }
    ensures back { OnErr result (refused.new ≡ Some item) }
    ensures when { IfErr result (λ fault. DoesNotTake core.old item fault) }
{
    let charge = item.charge();
    if let Err(fault) = check_item(core, &item, charge) {
        *refused = Some(item);
        return Err(fault);
    }
    match core.append_or_refuse(item, charge, refused) {
        Ok(()) => Ok(()),
        Err(AppendFault::BufferFull) => Err(SendFault::BufferFull),
        Err(AppendFault::OutOfMemory) => Err(SendFault::OutOfMemory),
    }
}

/// That the core takes the item, which has this charge, where memory is not refused; or why not.
#[inline(always)]
fn check_item(core: &Core, item: &Item, charge: u64) -> Result<(), SendFault>
    requires { charge ≡ measured (charge_of item.now) }
    ensures left { OnOk result (is_spent core.now ≡ false) }
    ensures going { OnOk result (core.now.ended ≡ false) }
    ensures may { OnOk result (may_append item.now core.now ≡ true) }
    ensures room { OnOk result (would_exhaust item.now core.now ≡ false) }
    ensures when { IfErr result (λ fault. DoesNotTake core.now item.now fault) }
{
    if core.is_spent() {
        return Err(SendFault::Spent);
    }
    if core.has_ended() {
        return Err(SendFault::Closed);
    }
    if !core.may_append_charged(item, charge) {
        return Err(SendFault::TooLarge);
    }
    if !has_room(core, charge) {
        return Err(SendFault::BufferFull);
    }
    Ok(())
}

/// Whether the memory for records that wait holds this charge too.
#[inline]
fn has_room(core: &Core, charge: u64) -> bool
    ensures exact { result ≡ nat_le (used core.now + charge) core.now.config.buffer_memory }
    ensures within { OnTrue result (used core.now + charge < 2 ^ 64) }
{
    let limit = core.config().buffer_memory;
    match core.used().checked_add(charge) {
        Some(used) => used <= limit,
        None => false,
    }
}
