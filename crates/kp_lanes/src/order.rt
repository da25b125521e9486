//! What the sender's end of a lane promises to the intake's.

ghost use Rattle.kp_lanes.specs.Entries.{MayFollow};

use crate::entry::Entry;
use rtrb::Protocol;

/// The items of a lane are numbered from 0, in each partition for itself; marks stand anywhere.
#[derive(Clone, Copy)]
pub struct InOrder;

impl Protocol<Entry> for InOrder {
    ghost allows = { MayFollow };
}
