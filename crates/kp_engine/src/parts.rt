//! What an engine is taken apart into.

use kp_accum::Item;
use kp_core::{Core, Report};
use kp_lanes::Intake;

/// What an engine is taken apart into.
#[derive(Drop)]
pub struct Parts {
    pub core: Core,
    pub intake: Intake,
    pub held: Held,
}

/// What an engine held back.
#[derive(Drop)]
pub struct Held {
    /// Items that were taken, and not appended: at most one of each sender.
    pub items: Vec<Item>,
    /// Reports that were fetched, and not handed over: at most one to each sender.
    pub reports: Vec<Report>,
}
