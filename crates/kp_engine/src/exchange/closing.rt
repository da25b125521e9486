//! The first part of a turn, and the close.

ghost use Rattle.std.specs.Prelude.{◌≡◌, ◌≢◌, ◌⊎◌, [], IsTrue, OnOk, OnErr, true, false};
ghost use Rattle.kp_lanes.specs.Intake.{intake_view};
ghost use Rattle.kp_engine.specs.Exchange.{IsQuiet, OnlyCore, Runs, SameLanes, SameMail};
ghost use Rattle.kp_engine.specs.Steps.{Closes, OnlyView, TakesItems};

use crate::exchange::Exchange;
use crate::exchange::taking::both;
use crate::turned::Turned;
use std::alloc::AllocError;

impl Exchange {
    /// Looks whether no sender can send any more, unless the core was closed.
    fn is_quiet(&mut self) -> bool
        ensures quiet { IsTrue result → (self.old.closed ≡ false) × IsQuiet self.new }
        ensures loud { (result ≡ true) ⊎ ((self.old.closed ≡ true) ⊎ ((intake_view self.new.intake).found ≢ 1)) }
        ensures only { OnlyView self.old self.new }
    {
        if self.closed {
            return false;
        }
        self.intake.quiet()
    }

    fn close(&mut self) -> Result<(), AllocError>
        ensures ok { OnOk result (Closes self.old self.new) }
        ensures err { OnErr result (Runs self.old [] self.new × OnlyCore self.old self.new) }
    {
        let Ok(()) = self.notes.reserve() else {
            return Err(AllocError);
        };
        self.core.close();
        self.notes.add(Turned::Close);
        self.closed = true;
        Ok(())
    }

    /// The first part of a turn: items, and the close, where no sender could send any more before every lane was found
    /// empty. Whether every lane was found empty, and nothing is held.
    pub(crate) fn take_items(&mut self) -> Result<bool, AllocError>
        ensures takes { TakesItems self.old result self.new }
        ensures mail { SameMail self.old self.new }
        ensures lanes { SameLanes self.old self.new }
    {
        let quiet = self.is_quiet();
        match self.take_all() {
            Err(refused) => Err(refused),
            Ok(idle) => {
                if !both(quiet, idle) {
                    return Ok(idle);
                }
                match self.close() {
                    Ok(()) => Ok(idle),
                    Err(refused) => Err(refused),
                }
            }
        }
    }
}
