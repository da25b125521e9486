//! What closes a producer.

ghost use Rattle.std.specs.Prelude.{◌≡◌};
ghost use Rattle.kp_lanes.specs.Closer.{closer_gate, closer_view};
ghost use Rattle.kp_lanes.specs.Gate.{told_shut};
ghost use Rattle.kp_client.specs.Closing.{lanes_closer};

use crate::shared::Shared;
use std::alloc::Global;
use std::sync::Arc;

/// What closes a producer.
#[derive(Drop)]
pub struct Closer {
    lanes: kp_lanes::Closer,
    shared: Arc<Shared, Global>,
}

impl Closer {
    pub(crate) fn new(lanes: kp_lanes::Closer, shared: Arc<Shared, Global>) -> Closer
        ensures { lanes_closer result ≡ lanes }
    {
        Closer { lanes, shared }
    }

    /// From now on nothing is accepted. What was accepted is sent, without a wait for fuller batches, and when all of it is
    /// reported the service ends.
    pub fn close(&mut self)
        ensures gate { closer_gate (lanes_closer self.new) ≡ closer_gate (lanes_closer self.old) }
        ensures shut { closer_view (lanes_closer self.new) ≡ told_shut (closer_view (lanes_closer self.old)) }
    {
        self.lanes.shut();
        self.shared.bells.engine().ring();
    }
}
