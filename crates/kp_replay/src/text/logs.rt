//! The text of what a world comes to: its logs and audits.

ghost use Rattle.std.specs.Prelude.{◌≡◌, ◌<◌, ◌≤◌, ◌^◌, ◌++◌, [], OnOk, flat_map, length, map, option_copied, pos, unwrap_or};
ghost use Rattle.std.specs.List.{enumerate_from, list_any};
ghost use Rattle.std.specs.Ordering.{int_eq};
ghost use Rattle.kp_log.specs.History.{is_under};
ghost use Rattle.kp_replay.specs.Text.{audit_text, log_text, records_text, stored_line, told};
ghost use Rattle.kp_world.specs.Line.{Audited};

use kp_core::{Core, Run};
use kp_log::{PartitionLog, Stored};
use kp_text::{end_line, put_audit, put_log_line, put_named, value_in};
use std::alloc::AllocError;

/// Whether a record stands under this producer id.
fn is_of(stored: &Stored, id: u64) -> bool
    ensures { result ≡ int_eq stored.now.producer_id (pos id) }
{
    match u64::try_from(stored.producer_id) {
        Ok(own) => own == id,
        Err(_) => false,
    }
}

/// Whether it does under one of these.
fn is_of_any(ids: &[u64], stored: &Stored) -> bool
    ensures { result ≡ list_any (λ id. int_eq stored.now.producer_id (pos id)) ids.now }
{
    ids.iter().any(|id| is_of(stored, *id))
}

/// Whether it does, as histories have it.
fn is_under(ids: &[u64], stored: &Stored) -> bool
    ensures { result ≡ is_under (map pos ids.now) stored.now }
{
    is_of_any(ids, stored)
}

/// A record of a log: its value, where it is this producer's.
#[tactic(auto, using(crate::proofs::LineLemmas::log_told), unfolding(kp_world::specs::Text::line_text))]
fn put_stored(
    out: &mut Vec<u8>,
    partition: u32,
    offset: u64,
    stored: &Stored,
    ids: &[u64],
) -> Result<(), AllocError>
    ensures { OnOk result (out.new.items ≡ out.old.items
        ++ told (stored_line partition ids.now (offset, stored.now))) }
{
    if is_under(ids, stored) {
        return put_log_line(out, partition, offset, value_in(stored));
    }
    put_named(out, b"other ", partition)?;
    put_named(out, b" ", offset)?;
    end_line(out)
}

/// A partition's log, of a producer that has had these ids.
fn put_log(
    out: &mut Vec<u8>,
    partition: u32,
    log: &PartitionLog,
    ids: &[u64],
) -> Result<(), AllocError>
    ensures { OnOk result (out.new.items ≡ out.old.items
        ++ records_text partition ids.now log.now.records) }
{
    for offset in 0..log.len() {
        let stored = log.get(offset).unwrap();
        put_stored(out, partition, offset, stored, ids)?;
    }
    Ok(())
}

/// All logs.
pub fn put_logs(out: &mut Vec<u8>, core: &Core, logs: &[PartitionLog]) -> Result<(), AllocError>
    requires with_ids { length logs.now ≤ length core.now.partitions }
    requires numbered { length logs.now < 2 ^ 32 }
    ensures { OnOk result (out.new.items ≡ out.old.items
        ++ flat_map (log_text core.now.partitions) (enumerate_from 0 logs.now)) }
{
    for partition in 0..logs.len() as u32 {
        let log = &logs[partition as usize];
        put_log(out, partition, log, core.ids(partition))?;
    }
    Ok(())
}

/// The audit of a partition, if it is kept.
fn put_runs(out: &mut Vec<u8>, partition: u32, runs: Option<&[Run]>) -> Result<(), AllocError>
    ensures { OnOk result (out.new.items ≡ out.old.items
        ++ flat_map (λ r. told (Audited partition r)) (unwrap_or (option_copied runs.entry) [])) }
{
    match runs {
        Some(runs) => put_audit(out, partition, runs),
        None => Ok(()),
    }
}

/// All audits.
pub fn put_audits(out: &mut Vec<u8>, core: &Core) -> Result<(), AllocError>
    requires { length core.now.partitions < 2 ^ 32 }
    ensures { OnOk result (out.new.items ≡ out.old.items
        ++ flat_map audit_text (enumerate_from 0 core.now.partitions)) }
{
    for partition in 0..core.partitions() as u32 {
        put_runs(out, partition, core.audit(partition))?;
    }
    Ok(())
}
