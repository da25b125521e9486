//! The sender core: one value, on which each call is one step of its rules.

ghost use Rattle.std.specs.Prelude.{◌≡◌, ◌<◌, true, length, Some, IfOk, IfErr, OnErr, OnOk};
ghost use Rattle.kp_accum.specs.Queue.{charge_of};
ghost use Rattle.kp_batch.specs.Spelling.{measured};
ghost use Rattle.kp_rules.specs.Appending.{may_append};
ghost use Rattle.kp_rules.specs.Auditing.{opened};
ghost use Rattle.kp_rules.specs.Calls.{Append, Close, Disconnect, End, Fetch, Flush, Lead, Reply, Request as Requested, Tick, Step};
ghost use Rattle.kp_rules.specs.Opening.{MayOpen, new_core};
ghost use Rattle.kp_rules.specs.Tick.{has_timed_out};
ghost use Rattle.kp_core.specs.Answers.{answer_of};

mod appending;
mod calling;
mod choosing;
mod committing;
mod counting;
mod due;
mod ending;
mod leading;
mod matching;
mod opening;
mod partitions;
mod replying;
mod ticking;

use crate::machine::partitions::Partitions;
use crate::requests::{Request, any_timed_out};
use crate::turns::Turn;
use kp_accum::{AppendFault, Config, Item};
use kp_parts::Desk;
use kp_rules::{CoreFault, Names, Outgoing, Replied, Report, Ticked};
use std::alloc::{AllocError, Global};
use std::marker::Model;

/// The sender core.
#[derive(Debug, Drop)]
pub struct Core {
    alloc: Global,
    config: Config,
    names: Names,
    partitions: Partitions,
    /// Those in flight.
    requests: Vec<Request>,
    /// The moment at which an id was refused, or its request dropped.
    id_waits: Option<u64>,
    /// The next request's.
    correlation: u32,
    /// Where the turn of each node's partitions begins, of those nodes that batches went out to.
    turns: Vec<Turn>,
    /// An append was refused for want of buffer memory; none was given back since.
    exhausted: bool,
    closing: bool,
    ended: bool,
    desk: Desk,
}

impl Model for Core {
    ghost use Rattle.kp_rules.specs.Records as seen;

    ghost Value = { seen.Core };

    ghost use Rattle.kp_core.specs.Keeping.{IsKept, seen_of};

    ghost view = { seen_of };

    ghost invariant = { λ c. IsKept (seen_of c) c.desk };
}

impl Core {
    /// A core of which nothing was asked yet, for one topic with so many partitions and so many senders, numbered from
    /// 0. Its batches go out under this producer id, its first request under this correlation id. With `audits` it keeps
    /// a list of the items that were handed over, which grows as long as the core lives.
    pub fn new(
        alloc: Global,
        config: Config,
        names: Names,
        partitions: u32,
        senders: u32,
        producer_id: u64,
        first_correlation: u32,
        audits: bool,
    ) -> Result<Core, AllocError>
        requires { MayOpen config names partitions senders producer_id first_correlation }
        ensures { IfOk result (λ core. core ≡
            opened audits (new_core config names partitions senders producer_id first_correlation)) }
    {
        Core::open(
            alloc,
            config,
            names,
            partitions,
            senders,
            producer_id,
            first_correlation,
            audits,
        )
    }

    /// Whether the item is of a sender and a partition that are there, and a request can hold it, and the memory too.
    #[inline]
    pub fn may_append(&self, item: &Item) -> bool
        ensures { result ≡ may_append item.now self.now }
    {
        self.may_append_charged(item, item.charge())
    }

    /// The same of an item whose charge is known.
    #[inline]
    pub fn may_append_charged(&self, item: &Item, charge: u64) -> bool
        requires { charge ≡ measured (charge_of item.now) }
        ensures { result ≡ may_append item.now self.now }
    {
        if item.sender as usize >= self.desk.senders() {
            return false;
        }
        if item.partition as usize >= self.partitions.len() {
            return false;
        }
        charge <= self.config.max_request_size.min(self.config.buffer_memory)
    }

    /// Puts the item last in its partition's queue, and keeps a place for its report; where the core has ended, or the
    /// partition is fenced, its sender is told so at once. What is refused comes back: BufferFull where the memory does
    /// not hold it, and every batch is ready to go out then; OutOfMemory only where it is not BufferFull, and nothing
    /// has changed.
    #[inline(always)]
    pub fn append(&mut self, item: Item) -> Result<(), (AppendFault, Item)>
        requires { may_append item self.old ≡ true }
        ensures step { Step self.old (Append item (answer_of result)) self.new }
        ensures back { IfErr result (λ refused. refused.1 ≡ item) }
    {
        let mut refused = None;
        let charge = item.charge();
        match self.append_item(item, charge, &mut refused) {
            Ok(()) => Ok(()),
            Err(fault) => Err((fault, refused.unwrap())),
        }
    }

    /// The same of an item whose charge is known; what is refused is put into `refused`. A result that holds an item is
    /// moved, and filled where it holds none, at each return: this one is for who appends many.
    #[inline(always)]
    pub fn append_or_refuse(
        &mut self,
        item: Item,
        charge: u64,
        refused: &mut Option<Item>,
    ) -> Result<(), AppendFault>
        requires may { may_append item self.old ≡ true }
        requires is_its { charge ≡ measured (charge_of item) }
        ensures step { Step self.old (Append item result) self.new }
        ensures back { OnErr result (refused.new ≡ Some item) }
        ensures still { OnOk result (refused.new ≡ refused.old) }
    {
        self.append_item(item, charge, refused)
    }

    /// The next request that is to go out to this node at this moment: for a fresh producer id, or for the batches of
    /// all its partitions that may send. Ended where the core has ended; None where there is none; CorrelationSpent where
    /// each correlation id was used; OutOfMemory, where a request would go out. After a fault nothing has changed.
    pub fn next_request(&mut self, node: u32, now: u64) -> Result<Option<Outgoing>, CoreFault>
        ensures { Step self.old (Requested node now result) self.new }
    {
        if self.ended {
            return Err(CoreFault::Ended);
        }
        self.request(node, now)
    }

    /// Hears the content of a response, without its size, at this moment. Ended where the core has ended; Short where
    /// there is no correlation id; not known where it names no request in flight; else the fault of reading it, or
    /// Mismatch where it is not one to its request. OutOfMemory only where it names a request in flight. After a fault
    /// nothing has changed; after ReplyFault the connection is of no use.
    pub fn on_reply(&mut self, content: &[u8], now: u64) -> Result<Replied, CoreFault>
        ensures { Step self.old (Reply now content.now result) self.new }
    {
        self.hear(content, now)
    }

    /// The time is this: requests to this node time out, and what is late is given up, at each partition.
    pub fn tick(&mut self, node: u32, now: u64) -> Ticked
        ensures { Step self.old (Tick node now result) self.new }
    {
        if self.ended {
            return Ticked {
                reports: 0,
                reconnect: false,
            };
        }
        self.look_at(node, now)
    }

    /// Whether a request to this node has waited for `request.timeout.ms`.
    #[inline]
    #[tactic(auto, unfolding(kp_rules::specs::Tick::has_timed_out))]
    pub fn is_late(&self, node: u32, now: u64) -> bool
        ensures { result ≡ has_timed_out node now self.now }
    {
        any_timed_out(&self.requests, node, &self.config, now)
    }

    /// The connection to this node is lost: what was in flight there is sent again, once `retry.backoff.ms` has passed from
    /// this moment.
    pub fn on_disconnect(&mut self, node: u32, now: u64)
        ensures { Step self.old (Disconnect node now) self.new }
    {
        if !self.ended {
            self.drop_requests(node, now);
        }
    }

    /// This node leads the partition from now on: its batches go there, what was in flight once `retry.backoff.ms` has
    /// passed from this moment. Where the node leads it already, or there is no such partition, nothing changes.
    pub fn lead(&mut self, partition: u32, node: u32, now: u64)
        ensures { Step self.old (Lead partition node now) self.new }
    {
        self.lead_by(partition, node, now);
    }

    /// Every batch is ready from now on, however short it has lingered.
    pub fn close(&mut self)
        ensures { Step self.old Close self.new }
    {
        if !self.ended {
            self.closing = true;
        }
    }

    /// All that waits now goes out, without lingering.
    pub fn flush(&mut self)
        ensures { Step self.old Flush self.new }
    {
        self.mark_all();
    }

    /// Gives up all that is left: what is open may stand in the log or not, what is queued was never sent. How many items
    /// were told of. A second end changes nothing.
    pub fn end(&mut self) -> usize
        ensures { Step self.old (End result) self.new }
    {
        if self.ended {
            return 0;
        }
        self.end_all()
    }

    /// The sender's oldest report that was not fetched.
    pub fn next_report(&mut self, sender: u32) -> Option<Report>
        requires { sender < length self.old.reports }
        ensures { Step self.old (Fetch sender result) self.new }
    {
        self.desk.next(sender)
    }
}
