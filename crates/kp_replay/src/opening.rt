//! The parts of a world with which a schedule begins.

ghost use Rattle.std.specs.Prelude.{◌≡◌, [], IfOk, replicate};
ghost use Rattle.kp_log.specs.Log.{empty};
ghost use Rattle.kp_world.specs.World.{names};

use crate::accepted::Accepted;
use kp_core::Names;
use kp_log::PartitionLog;
use kp_wire::Text;
use std::alloc::{AllocError, Global};

/// What a schedule's producer calls its topic and itself.
pub(crate) fn names_of_all(alloc: Global) -> Result<Names, AllocError>
    ensures { IfOk result (λ made. made ≡ names) }
{
    Ok(Names {
        topic: Text::from_str(alloc, "t")?,
        client: Text::from_str(alloc, "kp")?,
    })
}

/// Nothing was accepted of any of so many senders.
pub(crate) fn nothing_accepted(alloc: Global, senders: u32) -> Result<Vec<Accepted>, AllocError>
    ensures { IfOk result (λ lists. lists.items ≡ replicate senders []) }
{
    let mut lists = Vec::with_capacity(alloc, senders as usize)?;
    for _ in 0..senders {
        lists.push(Accepted::new(alloc))?;
    }
    Ok(lists)
}

/// Nothing was taken of any of so many senders.
pub(crate) fn nothing_taken(alloc: Global, senders: u32) -> Result<Vec<usize>, AllocError>
    ensures { IfOk result (λ counts. counts.items ≡ replicate senders 0) }
{
    let mut counts = Vec::with_capacity(alloc, senders as usize)?;
    for _ in 0..senders {
        counts.push(0)?;
    }
    Ok(counts)
}

/// The logs of so many partitions, with no record.
pub(crate) fn empty_logs(alloc: Global, partitions: u32) -> Result<Vec<PartitionLog>, AllocError>
    ensures { IfOk result (λ logs. logs.items ≡ replicate partitions empty) }
{
    let mut logs = Vec::with_capacity(alloc, partitions as usize)?;
    for _ in 0..partitions {
        logs.push(PartitionLog::new(alloc))?;
    }
    Ok(logs)
}
