//! One partition: its queue, its open batches, its producer ids, and what was handed over.

ghost use Rattle.std.specs.Prelude.{◌≡◌, IfOk, if◌then◌else◌};
ghost use Rattle.kp_rules.specs.Auditing.{unaudited};
ghost use Rattle.kp_rules.specs.Partitions.{new_partition};

mod counting;
mod dropping;
mod due;
mod expiring;
mod fencing;
mod handing;
mod leading;
mod marking;
mod queueing;
mod sending;
mod settling;

use crate::audit::Audit;
use crate::open::Open;
use kp_accum::Queue;
use std::alloc::{AllocError, Global};
use std::marker::Model;

/// How many batches may be open: a broker knows a producer's last five.
pub const OPEN_LIMIT: usize = 5;

/// One partition.
#[derive(Debug, Drop)]
pub struct Partition {
    alloc: Global,
    /// The node that its batches go to.
    leader: u32,
    queue: Queue,
    /// There is room for `OPEN_LIMIT` from the beginning.
    open_batches: Vec<Open>,
    ids: Vec<u64>,
    next_number: u64,
    next_sequence: u64,
    attempts_sent: u64,
    acknowledged: bool,
    fenced: bool,
    /// Where it is kept, it has room for a run of each item that is queued.
    audit: Option<Audit>,
    /// How many items are queued.
    queued: usize,
}

impl Model for Partition {
    ghost use Rattle.kp_rules.specs.Records as seen;
    ghost use Rattle.std.specs.Prelude.{option_map, vec_capacity};
    ghost use Rattle.kp_parts.specs.PartitionRooms.{HasRooms, runs_of};

    ghost Value = { seen.Partition };

    ghost view = { λ t. record {
      leader = t.leader;
      queue = t.queue;
      open_batches = t.open_batches.items;
      ids = t.ids.items;
      next_number = t.next_number;
      next_sequence = t.next_sequence;
      attempts_sent = t.attempts_sent;
      acknowledged = t.acknowledged;
      fenced = t.fenced;
      audit = option_map runs_of t.audit;
    } };

    ghost invariant = { λ t. HasRooms t.queue (vec_capacity t.open_batches) t.ids.items t.next_number t.audit t.queued };
}

impl Partition {
    /// A partition of which nothing was sent, with its first producer id, and whether it keeps an audit. Node 0 leads it.
    pub fn new(alloc: Global, id: u64, audited: bool) -> Result<Partition, AllocError>
        ensures { IfOk result (λ t. t ≡ (if audited then new_partition id else unaudited (new_partition id))) }
    {
        let open_batches = Vec::with_capacity(alloc, OPEN_LIMIT)?;
        let mut ids = Vec::new(alloc);
        ids.push(id)?;
        Ok(Partition {
            alloc,
            leader: 0,
            queue: Queue::new(alloc),
            open_batches,
            ids,
            next_number: 0,
            next_sequence: 0,
            attempts_sent: 0,
            acknowledged: false,
            fenced: false,
            audit: if audited {
                Some(Audit::new(alloc))
            } else {
                None
            },
            queued: 0,
        })
    }
}
