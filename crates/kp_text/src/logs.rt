//! The text of logs: `log PARTITION OFFSET VALUE`, a line for each record.

ghost use Rattle.std.specs.Prelude.{◌≡◌, ◌++◌, OnOk, flat_map};
ghost use Rattle.kp_text.specs.Lines.{log_lines};
ghost use Rattle.kp_text.specs.Logs.{line_at, own_lines, value_of, values_of};

use crate::printing::put_log_line;
use kp_log::{LogFault, PartitionLog, Stored};
use std::alloc::AllocError;

/// A record's value; Kafka's null has no byte.
pub fn value_in(stored: &Stored) -> &[u8]
    ensures { result.now ≡ value_of stored.now }
{
    match &stored.body.value {
        Some(value) => value.as_slice(),
        None => &[],
    }
}

/// The values of a partition's log.
pub fn put_log(out: &mut Vec<u8>, partition: u32, log: &PartitionLog) -> Result<(), AllocError>
    ensures { OnOk result (out.new.items ≡ out.old.items ++ log_lines partition 0 (values_of log.now.records)) }
{
    for offset in 0..log.len() {
        let stored = log.get(offset).unwrap();
        put_log_line(out, partition, offset, value_in(stored))?;
    }
    Ok(())
}

/// The value at an offset, where there is one.
fn put_at(
    out: &mut Vec<u8>,
    partition: u32,
    log: &PartitionLog,
    offset: u64,
) -> Result<(), AllocError>
    ensures { OnOk result (out.new.items ≡ out.old.items ++ line_at partition log.now.records offset) }
{
    match log.get(offset) {
        Some(stored) => put_log_line(out, partition, offset, value_in(stored)),
        None => Ok(()),
    }
}

/// The values at these offsets.
fn put_each(
    out: &mut Vec<u8>,
    partition: u32,
    log: &PartitionLog,
    offsets: &[u64],
) -> Result<(), AllocError>
    ensures { OnOk result (out.new.items ≡ out.old.items ++ flat_map (line_at partition log.now.records) offsets.now) }
{
    for offset in offsets {
        put_at(out, partition, log, *offset)?;
    }
    Ok(())
}

/// The values of a partition's log that stand there under one of these producer ids.
pub fn put_own(
    out: &mut Vec<u8>,
    partition: u32,
    log: &PartitionLog,
    ids: &[i64],
) -> Result<(), LogFault>
    ensures { OnOk result (out.new.items ≡ out.old.items ++ own_lines partition ids.now log.now.records) }
{
    let offsets = log.own_any(ids)?;
    Ok(put_each(out, partition, log, offsets.as_slice())?)
}
