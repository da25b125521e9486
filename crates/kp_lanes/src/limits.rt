//! What the records of a lane must keep.

ghost use Rattle.std.specs.Prelude.{◌≡◌, ◌↔◌, IsTrue};
ghost use Rattle.kp_lanes.specs.Limits.{charge_of, Meets};

use kp_accum::Item;
use kp_batch::{Record, charge};

/// What the records of a lane must keep.
#[derive(Clone, Copy)]
pub struct Limits {
    /// How many partitions there are.
    pub partitions: u32,
    /// The most that a record may take, as the size in bytes of the batch that holds it alone.
    pub max_record: u64,
}

/// The size of the batch that holds the record alone.
pub(crate) fn charge_of(body: &Record) -> u64
    ensures { result ≡ charge_of body.now }
{
    charge(body)
}

impl Limits {
    /// Whether the item is one that this sender may have sent.
    pub(crate) fn allow(self, sender: u32, item: &Item) -> bool
        ensures { IsTrue result ↔ Meets self sender item.now }
    {
        item.sender == sender
            && item.partition < self.partitions
            && charge_of(&item.body) <= self.max_record
    }
}
