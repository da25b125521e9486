//! The text of what became of records: `report SENDER PARTITION NUMBER OUTCOME`, a line for each.

ghost use Rattle.std.specs.Prelude.{◌≡◌, ◌++◌, OnOk};
ghost use Rattle.kp_text.specs.Lines.{outcome_text, report_line, report_lines};

use crate::printing::{end_line, put_named};
use kp_rules::{Outcome, Reason, Report};
use std::alloc::AllocError;

/// Why a record was never sent.
fn reason_name(reason: Reason) -> &'static [u8]
    ensures { result.now ≡ outcome_text (Outcome.Unsent reason) }
{
    match reason {
        Reason::Expired => b"expired",
        Reason::Fenced => b"fenced",
        Reason::Ended => b"ended",
    }
}

/// What became of a record.
fn put_outcome(out: &mut Vec<u8>, outcome: Outcome) -> Result<(), AllocError>
    ensures { OnOk result (out.new.items ≡ out.old.items ++ outcome_text outcome) }
{
    match outcome {
        Outcome::Delivered(offset) => { put_named(out, b"delivered ", offset) }
        Outcome::DeliveredNoOffset => out.extend_from_slice(b"delivered"),
        Outcome::Unknown => out.extend_from_slice(b"unknown"),
        Outcome::Rejected(code) => { put_named(out, b"rejected ", code) }
        Outcome::Unsent(reason) => out.extend_from_slice(reason_name(reason)),
    }
}

/// What a sender was told of a record.
fn put_report(out: &mut Vec<u8>, report: &Report) -> Result<(), AllocError>
    ensures { OnOk result (out.new.items ≡ out.old.items ++ report_line report.now) }
{
    put_named(out, b"report ", report.sender)?;
    put_named(out, b" ", report.partition)?;
    put_named(out, b" ", report.number)?;
    out.extend_from_slice(b" ")?;
    put_outcome(out, report.outcome)?;
    end_line(out)
}

/// What senders were told, in this order.
pub fn put_reports(out: &mut Vec<u8>, reports: &[Report]) -> Result<(), AllocError>
    ensures { OnOk result (out.new.items ≡ out.old.items ++ report_lines reports.now) }
{
    for report in reports {
        put_report(out, report)?;
    }
    Ok(())
}
