//! A request goes out.

ghost use Rattle.std.specs.Prelude.{◌≡◌, ◌<◌, [], Some, None, false, true, option_map, IfOk, IfErr, OnErr, OnOk};
ghost use Rattle.kp_rules.specs.Attempts.{has_window};
ghost use Rattle.kp_rules.specs.Calls.{Request as Requested, Step};
ghost use Rattle.kp_rules.specs.Next.{next_asking, next_batches, next_demand};
ghost use Rattle.kp_rules.specs.Records.{Produce, InitProducerId};
ghost use Rattle.kp_rules.specs.Requesting.{is_spent, partitions_in, sent_out};
ghost use Rattle.kp_core.specs.Choosing.{FramesBatches};

use crate::machine::Core;
use crate::requests::{Demand, Request, count_to};
use crate::turns::turn_to;
use kp_parts::{Sending, id_frame, produce_frame};
use kp_rules::{CoreFault, Outgoing};
use kp_wire::Blob;
use std::alloc::{AllocError, Global};

impl Core {
    /// The next request, where the core has not ended.
    pub(super) fn request(&mut self, node: u32, now: u64) -> Result<Option<Outgoing>, CoreFault>
        requires { self.old.ended ≡ false }
        ensures { Step self.old (Requested node now result) self.new }
    {
        let places = self.partitions.led_by(node);
        if places.is_empty() || !self.has_window(node) {
            return Ok(None);
        }
        match self.next_asking(places, now) {
            Some(partition) => self.ask_for_id(node, now, partition),
            None => self.send_batches(node, now),
        }
    }

    /// Whether one request more may be in flight to this node.
    #[tactic(auto, unfolding(kp_rules::specs::Attempts::has_window))]
    fn has_window(&self, node: u32) -> bool
        ensures { result ≡ has_window node self.now }
    {
        (count_to(&self.requests, node) as u64) < self.config.max_in_flight_requests_per_connection
    }

    /// A request for a fresh producer id goes out, for this partition.
    fn ask_for_id(
        &mut self,
        node: u32,
        now: u64,
        partition: u32,
    ) -> Result<Option<Outgoing>, CoreFault>
        requires going { self.old.ended ≡ false }
        requires demand { next_demand node now self.old ≡ Some (InitProducerId partition) }
        ensures { Step self.old (Requested node now result) self.new }
    {
        if self.is_spent() {
            return Err(CoreFault::CorrelationSpent);
        }
        match id_frame(self.alloc, &self.names, self.correlation) {
            Err(_) => Err(CoreFault::OutOfMemory),
            Ok(bytes) => match self.commit_asking(node, now, partition, bytes) {
                Err(_) => Err(CoreFault::OutOfMemory),
                Ok(outgoing) => Ok(Some(outgoing)),
            },
        }
    }

    /// The batches of all partitions that may send go out.
    fn send_batches(&mut self, node: u32, now: u64) -> Result<Option<Outgoing>, CoreFault>
        requires going { self.old.ended ≡ false }
        requires window { has_window node self.old ≡ true }
        requires asking { next_asking node now self.old ≡ None }
        ensures { Step self.old (Requested node now result) self.new }
    {
        if self.is_spent() {
            if self.has_batches(node, now) {
                return Err(CoreFault::CorrelationSpent);
            }
            return Ok(None);
        }
        match self.next_frame(node, now) {
            Err(_) => Err(CoreFault::OutOfMemory),
            Ok(None) => Ok(None),
            Ok(Some((bytes, chosen))) => match self.commit_batches(node, now, chosen, bytes) {
                Err(_) => Err(CoreFault::OutOfMemory),
                Ok(outgoing) => Ok(Some(outgoing)),
            },
        }
    }

    /// The frame of the request for the next batches, and the partitions whose they are; None where there are none, and
    /// then it takes no memory.
    fn next_frame(&self, node: u32, now: u64) -> Result<Option<(Blob, Vec<u32>)>, AllocError>
        requires going { self.now.ended ≡ false }
        requires window { has_window node self.now ≡ true }
        requires asking { next_asking node now self.now ≡ None }
        requires left { is_spent self.now ≡ false }
        ensures ok { IfOk result (λ framed. FramesBatches node now self.now (option_map (λ x. (x.0, x.1.items)) framed)) }
        ensures err { IfErr result (λ e. next_batches node now self.now ≡ [] → ⊥) }
    {
        let sendings = self.next_batches(node, now)?;
        if sendings.is_empty() {
            return Ok(None);
        }
        let bytes = produce_frame(
            self.alloc,
            &self.config,
            &self.names,
            self.correlation,
            &sendings,
        )?;
        Ok(Some((bytes, partitions_in(self.alloc, &sendings)?)))
    }

    /// The request for an id is in flight. Where memory is refused nothing has changed.
    fn commit_asking(
        &mut self,
        node: u32,
        now: u64,
        partition: u32,
        bytes: Blob,
    ) -> Result<Outgoing, AllocError>
        requires going { self.old.ended ≡ false }
        requires demand { next_demand node now self.old ≡ Some (InitProducerId partition) }
        requires left { is_spent self.old ≡ false }
        ensures after { OnOk result (self.new ≡ sent_out node now self.old (InitProducerId partition)) }
        ensures out { IfOk result (λ out. out ≡ record { correlation = self.old.correlation; bytes = bytes }) }
        ensures err { OnErr result (self.new ≡ self.old) }
    {
        let correlation = self.correlation;
        let demand = Demand::InitProducerId(partition);
        self.requests.reserve(1)?;
        self.requests
            .push_reserved(Request::new(correlation, node, now, demand));
        self.correlation += 1;
        Ok(Outgoing { correlation, bytes })
    }

    /// The batches of these partitions are in flight. Where memory is refused nothing has changed.
    fn commit_batches(
        &mut self,
        node: u32,
        now: u64,
        chosen: Vec<u32>,
        bytes: Blob,
    ) -> Result<Outgoing, AllocError>
        requires going { self.old.ended ≡ false }
        requires demand { next_demand node now self.old ≡ Some (Produce (next_batches node now self.old)) }
        requires chosen { chosen.items ≡ partitions_in (next_batches node now self.old) }
        requires left { is_spent self.old ≡ false }
        ensures after { OnOk result (self.new ≡ sent_out node now self.old (Produce (next_batches node now self.old))) }
        ensures out { IfOk result (λ out. out ≡ record { correlation = self.old.correlation; bytes = bytes }) }
        ensures err { OnErr result (self.new ≡ self.old) }
    {
        let correlation = self.correlation;
        self.requests.reserve(1)?;
        turn_to(&mut self.turns, node, &chosen)?;
        self.partitions.send_each(&chosen, correlation);
        let demand = Demand::Produce(chosen);
        self.requests
            .push_reserved(Request::new(correlation, node, now, demand));
        self.correlation += 1;
        Ok(Outgoing { correlation, bytes })
    }
}

/// The partitions whose batches these are, in their order.
fn partitions_in(alloc: Global, sendings: &[Sending<'_>]) -> Result<Vec<u32>, AllocError>
    ensures { IfOk result (λ chosen. chosen.items ≡ partitions_in sendings.now) }
{
    let mut chosen = Vec::with_capacity(alloc, sendings.len())?;
    for sending in sendings {
        chosen.push(sending.partition)?;
    }
    Ok(chosen)
}
