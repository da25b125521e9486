//! A flush, and the end.

ghost use Rattle.std.specs.Prelude.{◌≡◌};
ghost use Rattle.kp_rules.specs.Closing.{end_all};
ghost use Rattle.kp_rules.specs.Flush.{flush_step};

use crate::machine::Core;
use crate::machine::ticking::is_still_exhausted;
use kp_rules::Reason;

impl Core {
    /// A flush waits for all that is queued or open.
    pub(super) fn mark_all(&mut self)
        ensures { self.new ≡ flush_step self.old }
    {
        self.partitions.mark_each();
    }

    /// Each partition gives up what it has, upwards, and nothing is in flight. How many items were told of.
    pub(super) fn end_all(&mut self) -> usize
        ensures after { self.new ≡ (end_all self.old).after }
        ensures told { result ≡ (end_all self.old).answer }
    {
        let untold = self.desk.untold();
        self.partitions.give_up_each(&mut self.desk, Reason::Ended);
        let reports = untold - self.desk.untold();
        self.requests.clear();
        self.exhausted = is_still_exhausted(self.exhausted, reports);
        self.ended = true;
        reports as usize
    }
}
