//! Lanes, with all of their ends.

ghost use Rattle.std.specs.Prelude.{All};
ghost use Rattle.kp_lanes.specs.Intake.{lanes_of};
ghost use Rattle.kp_lanes.specs.Sender.{IsSenderOf};
ghost use Rattle.kp_lanes.specs.Settling.{IsOf};

use crate::lanes::steps::{play_intake, play_sender};
use kp_cases::{StepFault, Words, put, put_debug};
use kp_lanes::{Closer, Finished, Intake, OpenFault, Sender, SettleFault, Settled, open_lanes};
use std::alloc::Global;
use std::fmt::Write;
use std::str::FromStr;

/// All ends of some lanes.
#[derive(Drop)]
pub(crate) struct Lanes {
    alloc: Global,
    /// When records are accepted.
    now: u64,
    /// Those that have not finished. The last of them is the next to do so.
    senders: Vec<Sender>,
    /// The others, with room for all.
    finished: Vec<Finished>,
    intake: Intake,
    closer: Closer,
    ghost its: { All (IsSenderOf (lanes_of intake)) senders.items },
    ghost ended: { All (IsOf (lanes_of intake)) finished.items },
}

/// The number behind this name, which is the next word.
fn named<T: FromStr>(words: &mut Words<'_>, name: &str) -> Result<T, StepFault>
where
    T::Err: Drop,
{
    if words.word()? != name {
        return Err(StepFault::NotUnderstood);
    }
    words.number()
}

/// Opens the lanes that the words name. Tells why where that is refused.
pub(crate) fn open(
    alloc: Global,
    words: &mut Words<'_>,
    came: &mut String,
) -> Result<Option<Lanes>, StepFault> {
    let senders = named(words, "senders")?;
    let capacity = named(words, "capacity")?;
    let partitions = named(words, "partitions")?;
    let max_record = named(words, "record.max")?;
    match open_lanes(alloc, senders, capacity, partitions, max_record) {
        Ok((senders, intake, closer)) => {
            let finished = Vec::with_capacity(alloc, senders.len())?;
            Ok(Some(Lanes {
                alloc,
                now: 0,
                senders,
                finished,
                intake,
                closer,
            }))
        }
        Err(OpenFault::OutOfMemory) => Err(StepFault::OutOfMemory),
        Err(fault) => {
            write!(came, "{fault:?}")?;
            Ok(None)
        }
    }
}

impl Lanes {
    /// Tells how many senders there are, and what the intake says of the lanes.
    fn tell(&self, came: &mut String) -> Result<(), StepFault> {
        let (senders, lanes) = (self.senders.len(), self.intake.senders());
        let (partitions, max) = (self.intake.partitions(), self.intake.max_record());
        write!(
            came,
            "{senders} senders, {lanes} lanes, {partitions} partitions, record.max {max}"
        )?;
        Ok(())
    }

    /// Ends the last sender, and tells its number.
    fn finish(&mut self, came: &mut String) -> Result<(), StepFault> {
        let sender = self.senders.pop().ok_or("no sender")?;
        write!(came, "{}", sender.number())?;
        Ok(self.finished.push(sender.finish())?)
    }

    /// Plays a step of one of the ends.
    pub(crate) fn play(
        &mut self,
        step: &str,
        words: &mut Words<'_>,
        came: &mut String,
    ) -> Result<(), StepFault> {
        match step {
            "now" => self.now = words.number()?,
            "ends" => return self.tell(came),
            "finish" => return self.finish(came),
            "shut" => self.closer.shut(),
            "closer.quiet" => return put(came, &self.closer.quiet()),
            "take" | "asked" | "report" | "intake.quiet" => {
                return play_intake(&mut self.intake, step, words, came);
            }
            _ => {
                let number: usize = words.number()?;
                let sender = self.senders.get_mut(number).ok_or("no such sender")?;
                return play_sender(self.alloc, sender, self.now, step, words, came);
            }
        }
        Ok(())
    }

    /// Settles with the senders that have finished, and tells what was left. Where that is refused, all ends come back.
    pub(crate) fn settle(self, came: &mut String) -> (Option<Lanes>, Result<(), StepFault>) {
        let mut lanes = self;
        match lanes.intake.settle(lanes.alloc, lanes.finished) {
            Ok(settled) => (None, tell_left(&settled, came)),
            Err((fault, intake, finished)) => {
                lanes.intake = intake;
                lanes.finished = finished;
                (Some(lanes), tell_refused(fault, came))
            }
        }
    }
}

fn tell_left(settled: &Settled, came: &mut String) -> Result<(), StepFault> {
    Ok(write!(came, "{:?} {:?}", settled.left, settled.reports)?)
}

fn tell_refused(fault: SettleFault, came: &mut String) -> Result<(), StepFault> {
    match fault {
        SettleFault::OutOfMemory => Err(StepFault::OutOfMemory),
        fault => put_debug(came, &fault),
    }
}
