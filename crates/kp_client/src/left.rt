//! What is left when a service has ended.

ghost use Rattle.std.specs.Prelude.{◌≡◌};
ghost use Rattle.kp_client.specs.Accounts.{AllAccounted, HoldsNothing};
ghost use Rattle.kp_client.specs.declared.left.Ending.TheVariants.{Done};

use kp_accum::Item;
use kp_core::{Core, Report};
use kp_engine::{Cause, Held, Parts};
use kp_lanes::{Finished, Intake, SettleFault, Settled};
use std::alloc::{AllocFailed, Global};

/// Why a service has ended.
#[derive(Clone, Copy, Debug, PartialEq, Eq)]
pub enum Ending {
    /// The producer was closed, and each record that was accepted has its report.
    Done,
    /// The connection was lost for this, and the policy allowed no more new ones.
    GaveUp(Cause),
    /// Each correlation id was used (there are 2,147,483,646), so that nothing more could be sent, and each record that was sent has
    /// its report. Those that were queued are `Unsent(Ended)`.
    Spent,
    /// Memory was refused.
    OutOfMemory,
}

/// A service that has ended.
#[derive(Drop)]
pub struct Ended {
    parts: Parts,
    ending: Ending,
    /// How many new connections the policy had counted.
    new_connections: u32,
    ghost accounted: { AllAccounted parts },
    ghost done: { ending ≡ Done → HoldsNothing parts },
}

impl Ended {
    ghost use Rattle.std.specs.Prelude.{◌≢◌, ◌∷◌, [], All, IfOk, IfErr};
    ghost use Rattle.kp_engine.specs.Opening.{MayTurn};
    ghost use Rattle.kp_lanes.specs.Intake.{lanes_of};
    ghost use Rattle.kp_lanes.specs.Settling.{IsOf};
    ghost use Rattle.kp_client.specs.Ends.{ComesBack, WasUnserved};
    ghost use Rattle.kp_client.specs.Left.{ending_of, new_connections_of, parts_in, AccountsFor, IsOnly, IsSettled, IsWhy};

    pub(crate) fn new(parts: Parts, ending: Ending, new_connections: u32) -> Ended
        requires accounted { AllAccounted parts }
        requires done { ending ≡ Done → HoldsNothing parts }
        ensures { (parts_in result ≡ parts) × (ending_of result ≡ ending) × (new_connections_of result ≡ new_connections) }
    {
        Ended {
            parts,
            ending,
            new_connections,
        }
    }

    /// One that took and told nothing.
    pub(crate) fn unserved(
        alloc: Global,
        core: Core,
        intake: Intake,
        ending: Ending,
        new_connections: u32,
    ) -> Ended
        requires fresh { MayTurn core intake }
        requires not_done { ending ≢ Done }
        ensures unserved { WasUnserved core intake [] result }
        ensures ending { (ending_of result ≡ ending) × (new_connections_of result ≡ new_connections) }
    {
        let held = Held {
            items: Vec::new(alloc),
            reports: Vec::new(alloc),
        };
        Ended::new(Parts { core, intake, held }, ending, new_connections)
    }

    /// Why it has ended.
    pub fn ending(&self) -> Ending
        ensures ending { result ≡ ending_of self.now }
        ensures done { result ≡ Done → HoldsNothing (parts_in self.now) }
    {
        self.ending
    }

    /// How many new connections its policy had counted: made in all, or since the last reply.
    pub fn new_connections(&self) -> u32
        ensures { result ≡ new_connections_of self.now }
    {
        self.new_connections
    }

    /// The core, with the reports that no sender was told, and the audit where one is kept.
    pub fn core(&self) -> &Core
        ensures { result.now ≡ (parts_in self.now).core }
    {
        &self.parts.core
    }

    /// Takes back what is left, where all senders have finished: each once.
    pub fn settle(
        self,
        alloc: Global,
        finished: Vec<Finished>,
    ) -> Result<Left, (SettleFault, Ended, Vec<Finished>)>
        requires { All (IsOf (lanes_of (parts_in self).intake)) finished.items }

        // Each accepted record has one report, or comes back.
        ensures settled { IfOk result (λ left. All (AccountsFor left) finished.items) }
        ensures rings { IfOk result (IsSettled (parts_in self) finished.items) }

        // At a fault nothing has changed.
        ensures why { IfErr result (λ e. IsWhy (parts_in self) finished.items e.0) }
        ensures back { IfErr result (λ e. ComesBack self finished.items e.1 e.2.items) }
    {
        let Ended {
            parts,
            ending,
            new_connections,
        } = self;
        let Parts { core, intake, held } = parts;
        match intake.settle(alloc, finished) {
            Ok(settled) => Ok(Left::new(settled, held, core)),
            Err((fault, intake, finished)) => {
                let parts = Parts { core, intake, held };
                Err((fault, Ended::new(parts, ending, new_connections), finished))
            }
        }
    }

    /// The same of a producer with one sender. Where memory is refused, what was given comes back.
    pub fn settle_single(self, alloc: Global, finished: Finished) -> Result<Left, (Ended, Finished)>
        requires { IsOnly (parts_in self) finished }
        ensures settled { IfOk result (λ left. AccountsFor left finished) }
        ensures rings { IfOk result (IsSettled (parts_in self) (finished ∷ [])) }
        ensures back { IfErr result (λ e. ComesBack self (finished ∷ []) e.0 (e.1 ∷ [])) }
        ensures again { IfErr result (λ e. IsOnly (parts_in e.0) e.1) }
    {
        let mut all = Vec::new(alloc);
        if let Err(AllocFailed { value }) = all.push(finished) {
            return Err((self, value));
        }
        match self.settle(alloc, all) {
            Ok(left) => Ok(left),
            Err((_fault, ended, mut all)) => match all.pop() {
                Some(finished) => Err((ended, finished)),
                None => unreachable!(),
            },
        }
    }
}

/// What is left of a producer. A sender's records without a report are the one that is held, and those of its lane; its
/// reports that it did not receive are those of its ring, the one that is held, and those that wait in the core.
#[derive(Drop)]
pub struct Left {
    /// At each sender's place its records that the service did not take, in their order.
    pub items: Vec<Vec<Item>>,
    /// At each sender's place the reports that it did not receive, in their order.
    pub reports: Vec<Vec<Report>>,
    /// What was on its way between the lanes and the core.
    pub held: Held,
    /// The core.
    pub core: Core,
}

impl Left {
    /// What was left in the rings, beside what was on its way and the core.
    fn new(settled: Settled, held: Held, core: Core) -> Left
        ensures { result ≡ record { items = settled.left; reports = settled.reports; held = held; core = core } }
    {
        let Settled { left, reports } = settled;
        Left {
            items: left,
            reports,
            held,
            core,
        }
    }
}
