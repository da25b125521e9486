//! The partitions of a topic, and which of them have something to do.

ghost use Rattle.std.specs.Prelude.{◌≡◌, ◌<◌, IfOk, if◌then◌else◌, length, replicate};
ghost use Rattle.kp_rules.specs.Auditing.{unaudited};
ghost use Rattle.kp_rules.specs.Partitions.{new_partition, partition_at};
ghost use Rattle.kp_core.specs.Busy.{busy_in};

mod changing;
mod filling;
mod leaders;
mod walking;

use kp_parts::Partition;
use std::alloc::{AllocError, Global};
use std::marker::Model;

/// The partitions by number. A walk that looks for something to do goes over those alone that have it.
#[derive(Debug, Drop)]
pub(super) struct Partitions {
    all: Vec<Partition>,
    /// The numbers of those of which something is queued or open, upwards. There is room for all from the beginning.
    busy: Vec<u32>,
    /// The same numbers, by the nodes that lead the partitions, and upwards where one leads several. There is room as well.
    by_leader: Vec<u32>,
}

impl Model for Partitions {
    ghost use Rattle.std.specs.Prelude.{List, vec_capacity};
    ghost use Rattle.kp_rules.specs.Records as seen;
    ghost use Rattle.kp_core.specs.ByLeader.{AreKept};

    ghost Value = { List seen.Partition };

    ghost view = { λ t. t.all.items };

    ghost invariant = { λ t. AreKept t.all.items t.busy.items (vec_capacity t.busy) t.by_leader.items (vec_capacity t.by_leader) };
}

impl Partitions {
    /// So many partitions of which nothing was sent.
    pub(super) fn new(
        alloc: Global,
        count: u32,
        producer_id: u64,
        audits: bool,
    ) -> Result<Partitions, AllocError>
        ensures { IfOk result (λ partitions. partitions ≡
            replicate count (if audits then new_partition producer_id else unaudited (new_partition producer_id))) }
    {
        let busy = Vec::with_capacity(alloc, count as usize)?;
        let by_leader = Vec::with_capacity(alloc, count as usize)?;
        let all = new_partitions(alloc, count, producer_id, audits)?;
        Ok(Partitions {
            all,
            busy,
            by_leader,
        })
    }

    pub(super) fn all(&self) -> &[Partition]
        ensures { result.now ≡ self.now }
    {
        &self.all
    }

    pub(super) fn len(&self) -> usize
        ensures { result ≡ length self.now }
    {
        self.all.len()
    }

    pub(super) fn at(&self, place: u32) -> &Partition
        requires { place < length self.now }
        ensures { result.now ≡ partition_at place self.now }
    {
        &self.all[place as usize]
    }

    /// The numbers of those of which something is queued or open, upwards.
    pub(super) fn busy(&self) -> &[u32]
        ensures { result.now ≡ busy_in self.now }
    {
        &self.busy
    }
}

fn new_partitions(
    alloc: Global,
    count: u32,
    producer_id: u64,
    audits: bool,
) -> Result<Vec<Partition>, AllocError>
    ensures { IfOk result (λ partitions. partitions.items ≡
        replicate count (if audits then new_partition producer_id else unaudited (new_partition producer_id))) }
{
    let mut partitions = Vec::with_capacity(alloc, count as usize)?;
    for _ in 0..count {
        partitions.push(Partition::new(alloc, producer_id, audits)?)?;
    }
    Ok(partitions)
}
