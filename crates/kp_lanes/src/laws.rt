//! Facts about the gate's rule and the lanes' order alone, and the types that they speak of.

ghost use Rattle.kp_lanes.specs.Gate.{NobodyInside, OneShuts};
ghost use Rattle.kp_lanes.specs.Entries.{MarksFollow};

pub use crate::entry::Entry;
pub use crate::gate::plays::GateRule;
pub use crate::gate::view::{Stage, View};
pub use crate::gate::{Gate, Seat};
pub use crate::lane::Lane;
pub use crate::order::InOrder;

/// Between any two steps: once anybody knows that the gate is quiet, nobody is inside, and the gate is shut. Since
/// `Lane::push` asks for a seat that is inside, no `send` or `flush` is then accepted by anyone.
pub fn nobody_is_inside()
    ensures { NobodyInside }
{}

/// Between any two steps: while the seat that may shut the gate has not, nobody knows it to be shut. So what a sender is
/// told as Closed is the closer's doing: of the seats that `open_lanes` gives the closer's alone may shut, and `Gate::shut`
/// asks for it.
pub fn one_shuts()
    ensures { OneShuts }
{}

/// Where a mark was taken from a lane, all items that were accepted before it were taken too: whatever its sender has put in,
/// of which what was taken is a beginning (`Intake::settle`, `entries` of `Adds`).
pub fn marks_follow_what_was_accepted()
    ensures { MarksFollow }
{}
