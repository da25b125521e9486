//! The engine's end of all lanes.

ghost use Rattle.std.specs.Prelude.{◌≡◌};
ghost use Rattle.std.specs.Arc.{arc_value};

pub(crate) mod port;

use crate::fault::SettleFault;
use crate::gate::{Gate, Seat};
use crate::intake::port::Port;
use crate::limits::Limits;
use crate::sender::Finished;
use crate::settling::{Settled, differ, drain_all, rooms};
use kp_accum::Item;
use kp_rules::Report;
use std::alloc::{AllocError, Global};
use std::sync::Arc;

/// The engine's end of all lanes: it takes items and hands over reports, on a thread of its own.
#[derive(Drop)]
pub struct Intake {
    pub(crate) gate: Arc<Gate, Global>,
    pub(crate) seat: Seat,
    pub(crate) limits: Limits,
    pub(crate) ports: Vec<Port>,
    ghost here: { seat.table_id ≡ (arc_value gate).table.shared.table_id },
}

impl Intake {
    ghost use Rattle.std.specs.Prelude.{◌==◌, ◌⊎◌, ◌+◌, ◌<◌, ◌++◌, ◌∷◌, [], length, drop, map, slice_set, true, IsTrue, IfSome, IfNone, OnOk, IfErr};
    ghost use Rattle.kp_lanes.specs.Entries.{has_mark, IsNext, TookMark};
    ghost use Rattle.kp_lanes.specs.Limits.{Meets};
    ghost use Rattle.kp_lanes.specs.Gate.{looked};
    ghost use Rattle.kp_lanes.specs.Port.{Extends, HasNothing};
    ghost use Rattle.kp_lanes.specs.Intake.{intake_view, intake_limits, lanes_of, passed_lists, taken_lists, told_lists, asked_lists, passed_of, taken_of, told_of, asked_at_of, seen_of, places_of, room_of, SameIntake, SameEnds, PassedBut};

    pub(crate) fn new(
        gate: Arc<Gate, Global>,
        seat: Seat,
        limits: Limits,
        ports: Vec<Port>,
    ) -> Intake
        requires { seat.table_id ≡ (arc_value gate).table.shared.table_id }
        ensures { (result.gate ≡ gate) × (result.seat ≡ seat) × (result.limits ≡ limits) × (result.ports ≡ ports) }
    {
        Intake {
            gate,
            seat,
            limits,
            ports,
        }
    }

    /// How many senders there are: they are counted from 0.
    pub fn senders(&self) -> usize
        ensures { result ≡ length (lanes_of self.now) }
    {
        self.ports.len()
    }

    /// How many partitions there are.
    pub fn partitions(&self) -> u32
        ensures { result ≡ (intake_limits self.now).partitions }
    {
        self.limits.partitions
    }

    /// The most that a record may take, as the size in bytes of the batch that holds it alone.
    pub fn max_record(&self) -> u64
        ensures { result ≡ (intake_limits self.now).max_record }
    {
        self.limits.max_record
    }

    /// The next item of a sender, if this end sees one behind fewer marks than the lane has places.
    #[inline(always)]
    pub fn take(&mut self, sender: u32) -> Option<Item>
        requires { sender < length (lanes_of self.old) }
        ensures same { SameIntake self.old self.new × (told_lists self.new ≡ told_lists self.old) × (asked_lists self.new ≡ asked_lists self.old) }
        ensures some { IfSome result (λ x. taken_lists self.new ≡ slice_set (taken_lists self.old) sender (taken_of self.old sender ++ x ∷ [])) }
        ensures next { IfSome result (λ x. IsNext (taken_of self.old sender) x) }
        ensures meets { IfSome result (λ x. Meets (intake_limits self.old) sender x) }
        ensures none { IfNone result (taken_lists self.new ≡ taken_lists self.old) }
        ensures nothing { IfNone result (HasNothing (intake_limits self.old) sender (seen_of self.new sender)
            ⊎ (length (passed_of self.new sender) ≡ length (passed_of self.old sender) + places_of self.old sender)) }
        ensures passed { Extends (passed_of self.old sender) (passed_of self.new sender) × PassedBut sender self.old self.new }
    {
        self.ports[sender as usize].take(sender, self.limits)
    }

    /// Whether a mark of the sender was passed since the last call. All that the sender had accepted before that mark
    /// was taken.
    pub fn asked(&mut self, sender: u32) -> bool
        requires { sender < length (lanes_of self.old) }
        ensures answer { result ≡ has_mark (drop (asked_at_of self.old sender) (passed_of self.old sender)) }
        ensures mark { IsTrue result → TookMark (asked_at_of self.old sender) (passed_of self.old sender) }
        ensures since { asked_lists self.new ≡ slice_set (asked_lists self.old) sender (length (passed_of self.old sender)) }
        ensures same { SameIntake self.old self.new × (passed_lists self.new ≡ passed_lists self.old) × (told_lists self.new ≡ told_lists self.old) }
    {
        self.ports[sender as usize].asked()
    }

    /// Hands a report to its sender's ring, or gives it back where this end knows no free place.
    pub fn report(&mut self, report: Report) -> Result<(), Report>
        requires { report.sender < length (lanes_of self.old) }
        ensures same { SameIntake self.old self.new × (passed_lists self.new ≡ passed_lists self.old) × (asked_lists self.new ≡ asked_lists self.old) }
        ensures ok { OnOk result (told_lists self.new ≡ slice_set (told_lists self.old) report.sender (told_of self.old report.sender ++ report ∷ [])) }
        ensures full { IfErr result (λ back. (back ≡ report) × (told_lists self.new ≡ told_lists self.old) × (room_of self.old report.sender ≡ 0)) }
    {
        self.ports[report.sender as usize].report(report)
    }

    /// Looks once. It is true where the gate was shut and no sender was within `send` or `flush`.
    pub fn quiet(&mut self) -> bool
        ensures same { (lanes_of self.new ≡ lanes_of self.old) × (intake_limits self.new ≡ intake_limits self.old) × SameEnds self.old self.new }
        ensures view { intake_view self.new ≡ looked (intake_view self.old) (intake_view self.new).found }
        ensures answer { result ≡ ((intake_view self.new).found == 1) }
        ensures known { IsTrue result → ((intake_view self.new).knows_quiet ≡ true) × ((intake_view self.new).knows_shut ≡ true) }
    {
        self.gate.quiet(&mut self.seat)
    }
}

impl Intake {
    ghost use Rattle.std.specs.Prelude.{◌≢◌, All, IfOk, IfErr, IsOk, length};
    ghost use Rattle.kp_lanes.specs.Intake.{intake_limits, lanes_of, passed_lists, taken_lists, told_lists, asked_lists, SameIntake};
    ghost use Rattle.kp_lanes.specs.Settling.{IsOf, IsInPlace, EachOnce, Adds, SameFinished};
    ghost use Rattle.kp_lanes.specs.declared.fault.SettleFault.TheVariants.{Missing};

    /// Takes back what is left in the rings of senders that have finished: each sender once. Marks are dropped.
    pub fn settle(
        self,
        alloc: Global,
        finished: Vec<Finished>,
    ) -> Result<Settled, (SettleFault, Intake, Vec<Finished>)>
        requires { All (IsOf (lanes_of self)) finished.items }
        ensures settled { IfOk result (λ s. All (Adds self s) finished.items) }
        ensures in_place { IfOk result (λ _. All (IsInPlace (intake_limits self)) finished.items) }
        ensures places { IfOk result (λ s. (length s.left.items ≡ length (lanes_of self)) × (length s.reports.items ≡ length (lanes_of self))) }
        ensures all { IsOk result → EachOnce (length (lanes_of self)) finished.items }

        // At a fault nothing has changed.
        ensures missing { IfErr result (λ e. e.0 ≡ Missing → ¬ EachOnce (length (lanes_of self)) finished.items) }
        ensures not_missing { IfErr result (λ e. e.0 ≢ Missing → EachOnce (length (lanes_of self)) finished.items) }
        ensures intake { IfErr result (λ e. SameIntake self e.1) }
        ensures lists { IfErr result (λ e. (passed_lists e.1 ≡ passed_lists self) × (taken_lists e.1 ≡ taken_lists self)
            × (told_lists e.1 ≡ told_lists self) × (asked_lists e.1 ≡ asked_lists self)) }
        ensures finished { IfErr result (λ e. SameFinished finished.items e.2.items) }
        ensures again { IfErr result (λ e. All (IsOf (lanes_of e.1)) e.2.items) }
    {
        let mut intake = self;
        let mut finished = finished;
        if finished.len() != intake.ports.len() || !differ(&finished) {
            return Err((SettleFault::Missing, intake, finished));
        }
        match rooms(alloc, &mut intake.ports, &mut finished) {
            Ok(mut settled) => {
                drain_all(&mut intake.ports, &mut finished, &mut settled);
                Ok(settled)
            }
            Err(AllocError) => Err((SettleFault::OutOfMemory, intake, finished)),
        }
    }
}
