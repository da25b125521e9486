//! Plays lanes and their gate: what senders, the intake and the closer do together.

mod ends;
mod steps;

use ends::{Lanes, open};
use kp_cases::{StepFault, Words};
use kp_lanes::OpenFault;
use std::alloc::Global;
use std::fmt::Write;

/// The lanes of a case, once they are open.
#[derive(Drop)]
pub(crate) struct LanePlayer {
    alloc: Global,
    lanes: Option<Lanes>,
}

/// Tells the numbers of the first fault and of the last.
fn tell_numbers(came: &mut String) -> Result<(), StepFault> {
    let (first, last) = (OpenFault::Senders, OpenFault::OutOfMemory);
    let (first_number, last_number) = (first.number(), last.number());
    write!(came, "{first:?} {first_number}, {last:?} {last_number}")?;
    Ok(())
}

impl LanePlayer {
    pub(crate) fn new(alloc: Global) -> LanePlayer {
        LanePlayer { alloc, lanes: None }
    }

    fn open(&mut self, words: &mut Words<'_>, came: &mut String) -> Result<(), StepFault> {
        self.lanes = open(self.alloc, words, came)?;
        Ok(())
    }

    fn settle(&mut self, came: &mut String) -> Result<(), StepFault> {
        let lanes = self.lanes.take().ok_or("no lanes")?;
        let (back, told) = lanes.settle(came);
        self.lanes = back;
        told
    }
}

impl LanePlayer {
    /// Begins a case: nothing is left of the one before.
    pub(crate) fn begin(&mut self) {
        self.lanes = None;
    }

    /// Plays a step.
    pub(crate) fn play(
        &mut self,
        step: &str,
        words: &mut Words<'_>,
        came: &mut String,
    ) -> Result<(), StepFault> {
        match step {
            "lanes" => self.open(words, came),
            "settle" => self.settle(came),
            "fault.numbers" => tell_numbers(came),
            _ => match &mut self.lanes {
                Some(lanes) => lanes.play(step, words, came),
                None => Err(StepFault::CannotBe("no lanes")),
            },
        }
    }
}
