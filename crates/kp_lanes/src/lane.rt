//! The sender's end of a lane.

use crate::entry::Entry;
use crate::gate::{Gate, Seat};
use crate::order::InOrder;
use rtrb::{Producer, PushError};
use std::alloc::Global;
use std::sync::Arc;

/// A ring that takes entries only from within its gate.
#[derive(Drop)]
pub struct Lane {
    gate: Arc<Gate, Global>,
    pub(crate) ring: Producer<Entry, Global, InOrder>,
}

impl Lane {
    ghost use Rattle.std.specs.Prelude.{◌≡◌, ◌++◌, ◌∷◌, [], OnOk, IfErr};
    ghost use Rattle.kp_lanes.specs.declared.gate.view.Stage.TheVariants.{Inside};
    ghost use Rattle.kp_lanes.specs.Tokens.{view, seat_gate, gate_id};
    ghost use Rattle.rtrb.specs.Ring.{SameProducer};
    ghost use Rattle.kp_lanes.specs.Entries.{MayFollow};
    ghost use Rattle.kp_lanes.specs.Lane.{lane_gate, pushed, free};

    pub(crate) fn new(gate: Arc<Gate, Global>, ring: Producer<Entry, Global, InOrder>) -> Lane
        ensures { (result.gate ≡ gate) × (result.ring ≡ ring) }
    {
        Lane { gate, ring }
    }

    pub(crate) fn gate(&self) -> &Gate
        ensures { gate_id result.now ≡ lane_gate self.now }
    {
        &self.gate
    }

    /// The only push: by a seat of this lane's gate that is inside. Where no place is known to be free, the entry comes
    /// back.
    pub fn push(&mut self, seat: &Seat, entry: Entry) -> Result<(), Entry>
        requires here { seat_gate seat.now ≡ lane_gate self.old }
        requires inside { (view seat.now).stage ≡ Inside }
        requires next { MayFollow (pushed self.old) entry }
        ensures ring { (self.new.gate ≡ self.old.gate) × SameProducer self.old.ring self.new.ring }
        ensures ok { OnOk result (pushed self.new ≡ pushed self.old ++ entry ∷ []) }
        ensures full { IfErr result (λ back. (back ≡ entry) × (pushed self.new ≡ pushed self.old) × (free self.old ≡ 0)) }
    {
        let _ = seat;
        match self.ring.push(entry) {
            Ok(()) => Ok(()),
            Err(PushError::Full(back)) => Err(back),
        }
    }
}
