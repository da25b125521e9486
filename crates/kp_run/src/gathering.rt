//! The reports of a run, from all places where they may be.

ghost use Rattle.std.specs.Prelude.{◌≡◌, ◌∷◌, ◌+◌, ◌++◌, ◌-◌, ◌^◌, [], false, All, IfErr, IfOk, OnOk, map, min, sum_by};
ghost use Rattle.std.specs.List.{flat_map};
ghost use Rattle.std.specs.List.Sorted.{IsPermutation, IsSorted};
ghost use Rattle.kp_engine.specs.Agreement.{waiting_of};
ghost use Rattle.kp_engine.specs.Parts.{to_sender};
ghost use Rattle.kp_lanes.specs.Intake.{lanes_of, numbers_below};
ghost use Rattle.kp_client.specs.Left.{parts_in};
ghost use Rattle.kp_run.specs.Gathered.{account_in, account_of, by_place, heard_by, unheard_of, IncludeHeard, OnlyFetched};
ghost use Rattle.kp_run.specs.Jobs.{IsJobOf, Keeps, number_of};
ghost use Rattle.kp_run.specs.Portions.{Gathered};
ghost use Rattle.kp_run.specs.Theirs.{AreTheirs};

use crate::fault::RunFault;
use crate::sender_thread::Job;
use kp_client::{Cause, Ended, Ending, Left};
use kp_core::{Core, Report};
use kp_lanes::Finished;
use std::alloc::{AllocError, Global};

/// What a producer has done.
#[derive(Drop)]
pub(crate) struct Produced {
    pub(crate) accepted: u64,
    /// By sender, partition and number.
    pub(crate) reports: Vec<Report>,
    pub(crate) core: Core,
    /// Why the service gave up, where it did.
    pub(crate) given_up: Option<Cause>,
}

/// Senders that have finished.
#[derive(Drop)]
struct Heard {
    finished: Vec<Finished>,
    /// The reports that they received.
    reports: Vec<Report>,
    accepted: u64,
}

impl Heard {
    /// Ends one more sender.
    fn end(&mut self, job: Job) -> Result<(), RunFault>
        ensures whole { OnOk result (job.has_lost ≡ false) }
        ensures finished { OnOk result (map account_of self.new.finished.items
            ≡ map account_of self.old.finished.items ++ account_in job ∷ []) }
        ensures reports { OnOk result (self.new.reports.items ≡ self.old.reports.items ++ heard_by job) }
        ensures accepted { OnOk result (self.new.accepted ≡ min (self.old.accepted + job.accepted) (2 ^ 64 - 1)) }
        ensures refused { IfErr result (λ fault. fault ≡ RunFault.OutOfMemory) }
    {
        if job.has_lost {
            return Err(RunFault::OutOfMemory);
        }
        let Job {
            producer,
            heard,
            accepted,
            ..
        } = job;
        add(&mut self.reports, &heard)?;
        self.finished.push(producer.finish())?;
        self.accepted = self.accepted.saturating_add(accepted);
        Ok(())
    }
}

/// Ends all senders. Want of memory of one is want of memory of all.
fn end_all(alloc: Global, jobs: Vec<Job>) -> Result<Heard, RunFault>
    ensures whole { IfOk result (λ _. All (λ job. job.has_lost ≡ false) jobs.items) }
    ensures finished { IfOk result (λ heard. map account_of heard.finished.items ≡ map account_in jobs.items) }
    ensures reports { IfOk result (λ heard. heard.reports.items ≡ flat_map heard_by jobs.items) }
    ensures accepted { IfOk result (λ heard. heard.accepted ≡ min (sum_by (λ job. job.accepted) jobs.items) (2 ^ 64 - 1)) }
    ensures refused { IfErr result (λ fault. fault ≡ RunFault.OutOfMemory) }
{
    let mut heard = Heard {
        finished: Vec::with_capacity(alloc, jobs.len())?,
        reports: Vec::new(alloc),
        accepted: 0,
    };
    for job in jobs {
        heard.end(job)?;
    }
    Ok(heard)
}

/// Adds the reports.
fn add(reports: &mut Vec<Report>, more: &[Report]) -> Result<(), AllocError>
    ensures { OnOk result (reports.new.items ≡ reports.old.items ++ more.now) }
{
    reports.extend_from_slice(more)
}

/// Adds those of them that are for this sender.
fn add_to(reports: &mut Vec<Report>, held: &[Report], sender: u32) -> Result<(), AllocError>
    ensures { OnOk result (reports.new.items ≡ reports.old.items ++ to_sender sender held.now) }
{
    for report in held {
        if report.sender == sender {
            reports.push(*report)?;
        }
    }
    Ok(())
}

/// Adds those that wait for this sender in the core.
fn add_waiting(reports: &mut Vec<Report>, core: &mut Core, sender: u32) -> Result<(), AllocError>
    ensures added { OnOk result (reports.new.items ≡ reports.old.items ++ waiting_of core.old sender) }
    ensures fetched { OnOk result (OnlyFetched sender core.old core.new) }
{
    if sender as usize >= core.senders() {
        return Ok(());
    }
    while let Some(report) = core.next_report(sender) {
        reports.push(report)?;
    }
    Ok(())
}

/// Adds those that this sender did not hear.
fn add_unheard(
    reports: &mut Vec<Report>,
    rings: &[Vec<Report>],
    held: &[Report],
    core: &mut Core,
    sender: u32,
) -> Result<(), AllocError>
    ensures added { OnOk result (reports.new.items ≡ reports.old.items ++ unheard_of rings.now held.now core.old sender) }
    ensures fetched { OnOk result (OnlyFetched sender core.old core.new) }
{
    if let Some(ring) = rings.get(sender as usize) {
        add(reports, ring)?;
    }
    add_to(reports, held, sender)?;
    add_waiting(reports, core, sender)
}

/// Adds those that so many senders did not hear.
fn add_all_unheard(
    reports: &mut Vec<Report>,
    rings: &[Vec<Report>],
    held: &[Report],
    core: &mut Core,
    senders: u32,
) -> Result<(), AllocError>
    ensures added { OnOk result (reports.new.items
        ≡ reports.old.items ++ flat_map (unheard_of rings.now held.now core.old) (numbers_below senders)) }
    ensures core { OnOk result (core.new ≡ record core.old { reports = core.new.reports }) }
{
    for sender in 0..senders {
        add_unheard(reports, rings, held, core, sender)?;
    }
    Ok(())
}

/// Adds those of what is left that so many senders did not hear: the core, without those that waited there.
fn add_left(reports: &mut Vec<Report>, left: Left, senders: u32) -> Result<Core, AllocError>
    ensures added { OnOk result (reports.new.items
        ≡ reports.old.items ++ flat_map (unheard_of left.reports.items left.held.reports.items left.core) (numbers_below senders)) }
    ensures core { IfOk result (λ core. core ≡ record left.core { reports = core.reports }) }
{
    let Left {
        reports: rings,
        held,
        mut core,
        ..
    } = left;
    add_all_unheard(
        reports,
        rings.as_slice(),
        held.reports.as_slice(),
        &mut core,
        senders,
    )?;
    Ok(core)
}

/// Puts them into the order of their senders, partitions and numbers.
fn order(reports: &mut Vec<Report>)
    ensures same { IsPermutation reports.old.items reports.new.items }
    ensures in_order { IsSorted by_place reports.new.items }
{
    reports.sort_unstable_by_key(|report| (report.sender, report.partition, report.number));
}

/// Why the service gave up, where it did.
fn cause_in(ending: Ending) -> Option<Cause> {
    match ending {
        Ending::GaveUp(cause) => Some(cause),
        Ending::Done | Ending::Spent | Ending::OutOfMemory => None,
    }
}

/// What the senders have done, and the service.
pub(crate) fn gather(
    alloc: Global,
    jobs: Vec<Job>,
    ended: Ended,
    senders: u32,
) -> Result<Produced, RunFault>
    requires lanes { All (IsJobOf (lanes_of (parts_in ended).intake)) jobs.items }
    requires keeps { All Keeps jobs.items }
    requires numbers { map number_of jobs.items ≡ numbers_below senders }
    ensures portions { IfOk result (λ p. Gathered jobs.items p.accepted p.reports.items) }
    ensures heard { IfOk result (λ p. IncludeHeard jobs.items p.reports.items) }
    ensures theirs { IfOk result (λ p. AreTheirs ended jobs.items p.reports.items) }
    ensures in_order { IfOk result (λ p. IsSorted by_place p.reports.items) }
    ensures core { IfOk result (λ p. p.core ≡ record (parts_in ended).core { reports = p.core.reports }) }
    ensures refused { IfErr result (λ fault. fault ≡ RunFault.OutOfMemory) }
{
    let given_up = cause_in(ended.ending());
    let heard = end_all(alloc, jobs)?;
    let Heard {
        finished,
        mut reports,
        accepted,
    } = heard;
    let Ok(left) = ended.settle(alloc, finished) else {
        return Err(RunFault::OutOfMemory);
    };
    let core = add_left(&mut reports, left, senders)?;
    order(&mut reports);
    Ok(Produced {
        accepted,
        reports,
        core,
        given_up,
    })
}
