//! Another producer has records appended.

ghost use Rattle.std.specs.Prelude.{◌≡◌, codes, replicate, true, IfOk, OnOk};
ghost use Rattle.kp_log.specs.Log.{others_appended};
ghost use Rattle.kp_replay.specs.Shown.{LeadsOn, is_there};
ghost use Rattle.kp_world.specs.Events.{record_at};
ghost use Rattle.kp_world.specs.declared.event.Event.TheVariants as event;

use crate::world::World;
use crate::world::accepting::record_of;
use kp_batch::Record;
use kp_log::{LogFault, PartitionLog};
use kp_wire::Blob;
use std::alloc::{AllocError, Global};

/// The greatest length of a log: offsets are int64s.
const LENGTH_LIMIT: u64 = (1 << 63) - 1;

impl World {
    /// Another producer has so many records appended to the partition's log. Where the log would have more than there
    /// are offsets, there is no memory for it.
    pub fn other(&mut self, partition: u64, count: u64) -> Result<(), AllocError>
        requires { is_there (event.Other partition count) self.old ≡ true }
        ensures { OnOk result (LeadsOn (event.Other partition count) self.old self.new) }
    {
        let was_flushed = self.core.flushed();
        let records = records_of_others(self.alloc, count)?;
        append(&mut self.logs[partition as usize], records)?;
        self.note(was_flushed, None)
    }
}

/// So many records of another producer.
fn records_of_others(alloc: Global, count: u64) -> Result<Vec<Record>, AllocError>
    ensures { IfOk result (λ records. records.items ≡ replicate count (record_at 0 (codes "other"))) }
{
    let mut records = Vec::new(alloc);
    for _ in 0..count {
        let value = Blob::from_slice(alloc, "other".as_bytes())?;
        records.push(record_of(alloc, 0, value))?;
    }
    Ok(records)
}

fn append(log: &mut PartitionLog, records: Vec<Record>) -> Result<(), AllocError>
    ensures { OnOk result (log.new ≡ others_appended log.old records.items) }
{
    if log.len().saturating_add(records.len() as u64) > LENGTH_LIMIT {
        return Err(AllocError);
    }
    match log.append_other(records) {
        Ok(()) => Ok(()),
        Err(LogFault::OutOfMemory) => Err(AllocError),
    }
}
