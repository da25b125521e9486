//! The timestamps of a sender's records.

use kp_batch::Timestamp;
use kp_running::Passed;
use kp_stamps::{stamp, wall_stamp};
use std::time::{Clock, Instant};

/// The timestamps of a sender's records.
#[derive(Clone, Copy, Debug)]
pub(crate) enum Stamps {
    /// What has passed since the start of the run.
    Passed(Passed),
    /// What has passed since the beginning of 1970.
    Wall,
}

impl Stamps {
    /// Since that start, or by the clock on the wall.
    pub(crate) fn new(start: Instant, wall: bool) -> Stamps {
        if wall {
            Stamps::Wall
        } else {
            Stamps::Passed(Passed::since(start))
        }
    }

    /// The next record's. Where the clock can't be read, it is 0.
    pub(crate) fn next<R: Clock>(&mut self, rt: &R) -> Timestamp {
        match self {
            Stamps::Passed(passed) => stamp(passed.read(rt)),
            Stamps::Wall => wall_stamp(rt),
        }
    }
}
