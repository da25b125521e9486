//! The text of audits: `audit PARTITION SENDER FIRST COUNT`, a line for each run.

ghost use Rattle.std.specs.Prelude.{◌≡◌, ◌++◌, OnOk};
ghost use Rattle.kp_text.specs.Lines.{audit_line, audit_lines};

use crate::printing::{end_line, put_named};
use kp_rules::Run;
use std::alloc::AllocError;

/// Records of a sender that were handed over one after the other.
fn put_run(out: &mut Vec<u8>, partition: u32, run: &Run) -> Result<(), AllocError>
    ensures { OnOk result (out.new.items ≡ out.old.items ++ audit_line partition run.now) }
{
    put_named(out, b"audit ", partition)?;
    put_named(out, b" ", run.sender)?;
    put_named(out, b" ", run.first)?;
    put_named(out, b" ", run.count)?;
    end_line(out)
}

/// The records that were handed over for a partition, in their order.
pub fn put_audit(out: &mut Vec<u8>, partition: u32, runs: &[Run]) -> Result<(), AllocError>
    ensures { OnOk result (out.new.items ≡ out.old.items ++ audit_lines partition runs.now) }
{
    for run in runs {
        put_run(out, partition, run)?;
    }
    Ok(())
}
