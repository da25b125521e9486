//! Which items were handed over for a partition, in order.

ghost use Rattle.std.specs.Prelude.{◌≡◌, ◌≤◌, ◌<◌, ◌+◌, ◌-◌, ◌^◌, ℕ, [], length, option_map, IfSome, IsTrue, OnOk, OnErr, slice_index_or};
ghost use Rattle.kp_rules.specs.declared.run.Run.{Run as Seen};
ghost use Rattle.kp_rules.specs.HandingOver.{run_of, goes_on, with_audited, audited};
ghost use Rattle.kp_parts.specs.PartitionRooms.{CountsAtMost, runs_of};

use kp_accum::Item;
use kp_rules::Run;
use std::alloc::{AllocError, Global};
use std::marker::Model;

/// Which items were handed over for a partition, in order: neighbours of one sender with successive numbers are one run.
#[derive(Debug, Drop)]
pub(crate) struct Audit {
    runs: Vec<Run>,
}

impl Model for Audit {
    ghost use Rattle.std.specs.Prelude.{◌-◌, vec_capacity, vec_len};
    ghost use Rattle.kp_parts.specs.PartitionRooms as seen;

    ghost Value = { seen.Audit };

    ghost view = { λ a. record { runs = a.runs.items; room = vec_capacity a.runs - vec_len a.runs } };
}

/// The run that this item begins.
fn run_of(item: &Item) -> Run
    ensures { result ≡ run_of item.now }
{
    Run {
        sender: item.sender,
        first: item.number,
        count: 1,
    }
}

/// Whether this item goes on with the run.
fn goes_on(run: &Run, item: &Item) -> bool
    ensures { result ≡ goes_on item.now run.now }
{
    run.sender == item.sender && run.first <= item.number && run.count == item.number - run.first
}

/// Whether this item goes on with the last of the runs.
fn last_goes_on(runs: &[Run], item: &Item) -> bool
    ensures some { IsTrue result → 0 < length runs.now }
    ensures last { (d : Seen) → 0 < length runs.now → result ≡ goes_on item.now (slice_index_or runs.now (length runs.now - 1) d) }
{
    match runs {
        [] => false,
        [.., last] => goes_on(last, item),
    }
}

impl Audit {
    /// No runs. It takes no memory.
    pub(crate) fn new(alloc: Global) -> Audit
        ensures { result.runs ≡ [] }
    {
        Audit {
            runs: Vec::new(alloc),
        }
    }

    /// The runs, in the order in which they were handed over.
    pub(crate) fn runs(&self) -> &[Run]
        ensures { result.now ≡ self.now.runs }
    {
        &self.runs
    }

    /// Makes room for one run more than so many, which have room.
    pub(crate) fn reserve_beyond(&mut self, kept: usize) -> Result<(), AllocError>
        requires { kept ≤ self.old.room }
        ensures runs { self.new.runs ≡ self.old.runs }
        ensures ok { OnOk result (kept + 1 ≤ self.new.room) }
        ensures bound { self.new.room < 2 ^ 64 }
        ensures kept { self.old.room ≤ self.new.room }
        ensures err { OnErr result (self.new ≡ self.old) }
    {
        self.runs.reserve(kept + 1)
    }

    /// Puts the item last: into the last run, or into a new one.
    pub(crate) fn push(&mut self, item: &Item)
        requires room { 0 < self.old.room }
        requires counts { CountsAtMost (2 ^ 64 - 2) self.old.runs }
        ensures runs { self.new.runs ≡ with_audited item.now self.old.runs }
        ensures room { self.old.room ≤ self.new.room + 1 }
    {
        if last_goes_on(&self.runs, item) {
            let last = self.runs.len() - 1;
            self.runs[last].count += 1;
            return;
        }
        self.runs.push_reserved(run_of(item));
    }

    /// Puts the items last, one after the other.
    pub(crate) fn push_all(&mut self, items: &[Item])
        requires room { length items.now ≤ self.old.room }
        requires counts { CountsAtMost (2 ^ 63) self.old.runs }
        requires few { length items.now < 2 ^ 63 }
        ensures runs { self.new.runs ≡ audited self.old.runs items.now }
        ensures room { self.old.room ≤ self.new.room + length items.now }
    {
        for item in items {
            self.push(item);
        }
    }
}

/// Makes room for one run more than so many, which have room, where an audit is kept.
pub(crate) fn reserve_audit(audit: &mut Option<Audit>, kept: usize) -> Result<(), AllocError>
    requires { IfSome audit.old (λ a. kept ≤ a.room) }
    ensures runs { option_map runs_of audit.new ≡ option_map runs_of audit.old }
    ensures ok { OnOk result (IfSome audit.new (λ a. kept + 1 ≤ a.room)) }
    ensures err { OnErr result (audit.new ≡ audit.old) }
    ensures kept { IfSome audit.new (λ a. kept ≤ a.room) }
{
    match audit {
        None => Ok(()),
        Some(audit) => audit.reserve_beyond(kept),
    }
}

/// Puts the items last, one after the other, where an audit is kept.
pub(crate) fn audit_all(audit: &mut Option<Audit>, items: &[Item])
    requires room { IfSome audit.old (λ a. length items.now ≤ a.room) }
    requires counts { IfSome audit.old (λ a. CountsAtMost (2 ^ 63) a.runs) }
    requires few { length items.now < 2 ^ 63 }
    ensures runs { option_map runs_of audit.new ≡ option_map (λ a. audited a.runs items.now) audit.old }
    ensures room { (n : ℕ) → IfSome audit.old (λ a. n + length items.now ≤ a.room) → IfSome audit.new (λ a. n ≤ a.room) }
{
    match audit {
        None => {}
        Some(audit) => audit.push_all(items),
    }
}
