//! How many records came to which end.

ghost use Rattle.std.specs.Prelude.{◌≡◌, ◌++◌, OnOk};
ghost use Rattle.kp_text.specs.Ends.{ends_text, is_delivered, is_rejected, is_unknown, is_unsent, told_as, totals_line};

use crate::printing::{end_line, put_named};
use kp_rules::{Outcome, Report};
use std::alloc::AllocError;

fn is_delivered(outcome: Outcome) -> bool
    ensures { result ≡ is_delivered outcome }
{
    matches!(outcome, Outcome::Delivered(_) | Outcome::DeliveredNoOffset)
}

/// Of how many records is told that they stand in the log.
fn count_delivered(reports: &[Report]) -> usize
    ensures { result ≡ told_as is_delivered reports.now }
{
    reports
        .iter()
        .filter(|report| is_delivered(report.outcome))
        .count()
}

fn is_unsent(outcome: Outcome) -> bool
    ensures { result ≡ is_unsent outcome }
{
    matches!(outcome, Outcome::Unsent(_))
}

/// Of how many records is told that they were never sent.
fn count_unsent(reports: &[Report]) -> usize
    ensures { result ≡ told_as is_unsent reports.now }
{
    reports
        .iter()
        .filter(|report| is_unsent(report.outcome))
        .count()
}

fn is_unknown(outcome: Outcome) -> bool
    ensures { result ≡ is_unknown outcome }
{
    matches!(outcome, Outcome::Unknown)
}

/// Of how many records is told that nobody knows whether they stand in the log.
fn count_unknown(reports: &[Report]) -> usize
    ensures { result ≡ told_as is_unknown reports.now }
{
    reports
        .iter()
        .filter(|report| is_unknown(report.outcome))
        .count()
}

fn is_rejected(outcome: Outcome) -> bool
    ensures { result ≡ is_rejected outcome }
{
    matches!(outcome, Outcome::Rejected(_))
}

/// Of how many records is told that the broker refused them.
fn count_rejected(reports: &[Report]) -> usize
    ensures { result ≡ told_as is_rejected reports.now }
{
    reports
        .iter()
        .filter(|report| is_rejected(report.outcome))
        .count()
}

/// Of how many records is told which end.
fn put_ends(out: &mut Vec<u8>, reports: &[Report]) -> Result<(), AllocError>
    ensures { OnOk result (out.new.items ≡ out.old.items ++ ends_text reports.now) }
{
    put_named(out, b" delivered ", count_delivered(reports))?;
    put_named(out, b" unsent ", count_unsent(reports))?;
    put_named(out, b" unknown ", count_unknown(reports))?;
    put_named(out, b" rejected ", count_rejected(reports))
}

/// How many records were accepted, and of how many is told which end:
/// `total accepted A delivered D unsent U unknown X rejected R`.
pub fn put_totals(out: &mut Vec<u8>, accepted: u64, reports: &[Report]) -> Result<(), AllocError>
    ensures { OnOk result (out.new.items ≡ out.old.items ++ totals_line accepted reports.now) }
{
    put_named(out, b"total accepted ", accepted)?;
    put_ends(out, reports)?;
    end_line(out)
}
