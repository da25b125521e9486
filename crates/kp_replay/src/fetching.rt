//! A core's reports, fetched sender by sender.

ghost use Rattle.std.specs.Prelude.{◌≡◌, ◌<◌, ◌≤◌, ◌^◌, ◌++◌, [], length, slice_index_or, IfOk, OnOk};
ghost use Rattle.kp_replay.specs.Fetching.{all_fetched, by_sender, fetched_of};

use kp_core::{Core, Report};
use std::alloc::{AllocError, Global};

/// Fetches a sender's reports behind those that are there.
fn fetch_sender(core: &mut Core, sender: u32, reports: &mut Vec<Report>) -> Result<(), AllocError>
    requires { sender < length core.old.reports }
    ensures senders { length core.new.reports ≡ length core.old.reports }
    ensures config { core.new.config ≡ core.old.config }
    ensures partitions { core.new.partitions ≡ core.old.partitions }
    ensures fetched { OnOk result (core.new ≡ fetched_of sender core.old) }
    ensures reports { OnOk result
        (reports.new.items ≡ reports.old.items ++ slice_index_or core.old.reports sender []) }
{
    while let Some(report) = core.next_report(sender) {
        reports.push(report)?;
    }
    Ok(())
}

/// Fetches all reports, those of the first sender first.
pub fn fetch_all(alloc: Global, core: &mut Core) -> Result<Vec<Report>, AllocError>
    requires { length core.old.reports < 2 ^ 32 }
    ensures senders { length core.new.reports ≡ length core.old.reports }
    ensures config { core.new.config ≡ core.old.config }
    ensures partitions { core.new.partitions ≡ core.old.partitions }
    ensures fetched { OnOk result (core.new ≡ all_fetched core.old) }
    ensures reports { IfOk result (λ reports. reports.items ≡ by_sender core.old.reports) }
{
    let mut reports = Vec::new(alloc);
    for sender in 0..core.senders() as u32 {
        fetch_sender(core, sender, &mut reports)?;
    }
    Ok(reports)
}
