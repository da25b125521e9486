//! What travels in a lane.

use kp_accum::Item;

/// What travels in a lane: accepted items in their order, and marks between them.
#[derive(Drop)]
pub enum Entry {
    Sent(Item),
    /// Its sender asked for a flush of all that stands before it.
    Mark,
}
