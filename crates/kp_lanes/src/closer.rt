//! What shuts the gate.

ghost use Rattle.std.specs.Prelude.{◌≡◌, true};
ghost use Rattle.std.specs.Arc.{arc_value};

use crate::gate::{Gate, Seat};
use std::alloc::Global;
use std::sync::Arc;

/// What shuts the gate of all lanes, and alone may.
#[derive(Drop)]
pub struct Closer {
    gate: Arc<Gate, Global>,
    seat: Seat,
    ghost here: { seat.table_id ≡ (arc_value gate).table.shared.table_id },
    ghost may: { seat.me.0.may_shut ≡ true },
}

impl Closer {
    ghost use Rattle.std.specs.Prelude.{◌==◌, ◌+◌, IsTrue};
    ghost use Rattle.kp_lanes.specs.Gate.{told_shut, looked};
    ghost use Rattle.kp_lanes.specs.Closer.{closer_gate, closer_view};

    pub(crate) fn new(gate: Arc<Gate, Global>, seat: Seat) -> Closer
        requires here { seat.table_id ≡ (arc_value gate).table.shared.table_id }
        requires may { seat.me.0.may_shut ≡ true }
        ensures { (result.gate ≡ gate) × (result.seat ≡ seat) }
    {
        Closer { gate, seat }
    }

    /// Shuts the gate, for good. Its caller then knows that it is shut.
    pub fn shut(&mut self)
        ensures gate { closer_gate self.new ≡ closer_gate self.old }
        ensures view { closer_view self.new ≡ told_shut (closer_view self.old) }
    {
        self.gate.shut(&mut self.seat);
    }

    /// Looks once. It is true where this has shut the gate and no sender was within `send` or `flush`.
    pub fn quiet(&mut self) -> bool
        ensures gate { closer_gate self.new ≡ closer_gate self.old }
        ensures view { closer_view self.new ≡ looked (closer_view self.old) (closer_view self.new).found }
        ensures answer { result ≡ ((closer_view self.new).found == 1) }
        ensures only { (closer_view self.new).knows_shut ≡ (closer_view self.old).knows_shut }
        ensures known { IsTrue result → ((closer_view self.new).knows_quiet ≡ true) × ((closer_view self.new).knows_shut ≡ true) }
    {
        self.gate.quiet(&mut self.seat)
    }
}
