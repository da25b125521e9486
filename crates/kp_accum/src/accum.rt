//! All partitions' batches that wait, within the memory that there may be for them.

ghost use Rattle.std.specs.Prelude.{◌≡◌, ◌≤◌, ◌<◌, ◌-◌, length, drop, replicate, [], Ok, IfSome, IfErr, IfOk, OnOk, OnErr, IsTrue, false, slice_get, nat_lt, nat_le, ◌&&◌};
ghost use Rattle.std.specs.Option.{option_copied};
ghost use Rattle.kp_accum.specs.Config.{checked};
ghost use Rattle.kp_accum.specs.Queue.{charge_of, size_of};
ghost use Rattle.kp_accum.specs.Ready.{is_ready, expired, unexpired};
ghost use Rattle.kp_accum.specs.Accum.{queue, with_queue, is_exhausted, refusal, appended, marked, marked_count};

use crate::budget::Budget;
use crate::config::Config;
use crate::fault::AppendFault;
use crate::flags::Flags;
use crate::item::Item;
use crate::pending::Pending;
use crate::queue::Queue;
use std::alloc::{AllocError, Global};
use std::marker::Model;

/// All partitions' batches that wait, and the memory that their items and those handed over take.
#[derive(Debug, Drop)]
pub struct Accum {
    config: Config,
    queues: Vec<Queue>,
    budget: Budget,
    batches: usize,
    marked: usize,
}

impl Model for Accum {
    ghost use Rattle.kp_accum.specs.Accum as seen;
    ghost use Rattle.kp_accum.specs.Sound.{IsSound};

    ghost Value = { seen.Accum };

    ghost view = { λ a. record { config = a.config; queues = a.queues.items; used = a.budget.used } };

    ghost invariant = { λ a. IsSound a.config a.queues.items a.budget.limit a.batches a.marked };
}

impl Accum {
    /// An accumulator with so many partitions and no batch.
    pub fn new(alloc: Global, config: Config, partitions: u32) -> Result<Accum, AllocError>
        requires { checked config ≡ Ok tt }
        ensures { IfOk result (λ a. a ≡ record { config = config; queues = replicate partitions []; used = 0 }) }
    {
        let mut queues = Vec::with_capacity(alloc, partitions as usize)?;
        for _ in 0..partitions {
            queues.push(Queue::new(alloc))?;
        }
        Ok(Accum {
            config,
            queues,
            budget: Budget::new(config.buffer_memory),
            batches: 0,
            marked: 0,
        })
    }

    /// How many partitions there are.
    pub fn partitions(&self) -> usize
        ensures { result ≡ length self.now.queues }
    {
        self.queues.len()
    }

    /// Whether the item may be appended: its partition is there, and the batch that holds it alone fits into a request.
    pub fn may_append(&self, item: &Item) -> bool
        ensures partition { IsTrue result → item.now.partition < length self.now.queues }
        ensures request { IsTrue result → charge_of item.now ≤ self.now.config.max_request_size }
        ensures exact { result ≡ (nat_lt item.now.partition (length self.now.queues) && nat_le (charge_of item.now) self.now.config.max_request_size) }
    {
        (item.partition as usize) < self.queues.len()
            && item.charge() <= self.config.max_request_size
    }

    /// Puts the item last in its partition. Where it is refused it comes back, and nothing has changed. An item whose
    /// charge is above `buffer.memory` is always refused.
    pub fn append(&mut self, item: Item) -> Result<(), (AppendFault, Item)>
        requires here { item.partition < length self.old.queues }
        requires request { charge_of item ≤ self.old.config.max_request_size }
        ensures ok { OnOk result (self.new ≡ appended item self.old) }
        ensures room { OnOk result (is_exhausted item self.old ≡ false) }
        ensures refused { IfErr result (λ e. e ≡ (refusal item self.old, item)) }
        ensures unchanged { OnErr result (self.new ≡ self.old) }
    {
        let charge = item.charge();
        if !self.budget.has_room(charge) {
            return Err((AppendFault::BufferFull, item));
        }
        if self.batches == usize::MAX {
            return Err((AppendFault::OutOfMemory, item));
        }
        let queue = &mut self.queues[item.partition as usize];
        let batches = queue.len();
        let mut refused = None;
        if let Err(AllocError) = queue.append(&self.config, charge, item, &mut refused) {
            return Err((AppendFault::OutOfMemory, refused.unwrap()));
        }
        self.batches += queue.len() - batches;
        self.budget.take(charge);
        Ok(())
    }

    /// Whether the partition's front batch is ready to be sent at the moment `now`; not where there is none.
    pub fn front_ready(&self, partition: u32, now: u64, flags: Flags) -> bool
        requires { partition < length self.now.queues }
        ensures { result ≡ is_ready self.now.config flags now (queue self.now partition) }
    {
        self.queues[partition as usize].is_ready(&self.config, flags, now)
    }

    /// The partition's front batch.
    pub fn front(&self, partition: u32) -> Option<&Pending>
        requires { partition < length self.now.queues }
        ensures value { option_copied result ≡ slice_get (queue self.now partition) 0 }
        ensures fits { IfSome result (λ b. size_of b.now.items ≤ self.now.config.max_request_size) }
    {
        self.queues[partition as usize].front()
    }

    /// Takes the partition's front batch away. What its items take of the memory stays taken.
    pub fn take_front(&mut self, partition: u32) -> Option<Pending>
        requires { partition < length self.old.queues }
        ensures front { result ≡ slice_get (queue self.old partition) 0 }
        ensures rest { self.new ≡ with_queue partition (drop 1 (queue self.old partition)) self.old }
        ensures fits { IfSome result (λ b. size_of b.items ≤ self.old.config.max_request_size) }
    {
        let front = self.queues[partition as usize].take_front()?;
        self.batches -= 1;
        self.marked -= front.is_marked() as usize;
        Some(front)
    }

    /// As `take_front`, where the front batch's delivery timeout is over at the moment `now`.
    #[tactic(auto, unfolding(crate::specs::Ready::expired, crate::specs::Ready::unexpired))]
    pub fn expire(&mut self, partition: u32, now: u64) -> Option<Pending>
        requires { partition < length self.old.queues }
        ensures front { result ≡ expired self.old.config now (queue self.old partition) }
        ensures rest { self.new ≡ with_queue partition (unexpired self.old.config now (queue self.old partition)) self.old }
        ensures fits { IfSome result (λ b. size_of b.items ≤ self.old.config.max_request_size) }
    {
        if self.queues[partition as usize]
            .front()?
            .is_late(&self.config, now)
        {
            self.take_front(partition)
        } else {
            None
        }
    }

    /// Gives the charge of an item back.
    pub fn release(&mut self, charge: u64)
        requires { charge ≤ self.old.used }
        ensures { self.new ≡ record self.old { used = self.old.used - charge } }
    {
        self.budget.release(charge);
    }

    /// The sum of the charges of the items that were appended, less those that were given back.
    pub fn used(&self) -> u64
        ensures value { result ≡ self.now.used }
        ensures within { result ≤ self.now.config.buffer_memory }
    {
        self.budget.used()
    }

    /// Marks all batches for a flush.
    pub fn mark(&mut self)
        ensures { self.new ≡ marked self.old }
    {
        for p in 0..self.queues.len() {
            self.queues[p].mark();
        }
        self.marked = self.batches;
    }

    /// How many batches are marked.
    pub fn marked(&self) -> usize
        ensures { result ≡ marked_count self.now }
    {
        self.marked
    }
}
