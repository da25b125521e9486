//! Plays schedules, line by line: what each line says, and which lines are not understood.

mod spelled;

use kp_cases::{StepFault, Words};
use kp_schedule::{Schedule, parse_schedule};
use spelled::put_spelled;
use std::alloc::Global;
use std::fmt::Write;

/// A schedule whose lines are read one after another.
#[derive(Drop)]
pub(crate) struct Reading {
    alloc: Global,
    /// The lines that were understood, each with its end.
    text: Vec<u8>,
    /// What is to happen by them, as it was told.
    told: String,
}

/// All events of a schedule, each behind its line's number.
fn told_of(alloc: Global, schedule: &Schedule) -> Result<String, StepFault> {
    let mut told = String::new(alloc);
    for scheduled in schedule.events.as_slice() {
        write!(told, "{}: {:?} ", scheduled.line, scheduled.event)?;
    }
    Ok(told)
}

impl Reading {
    pub(crate) fn new(alloc: Global) -> Reading {
        Reading {
            alloc,
            text: Vec::new(alloc),
            told: String::new(alloc),
        }
    }

    /// Tells the events that were not told yet. Those that were have to be the same.
    fn tell_new(&mut self, schedule: &Schedule, came: &mut String) -> Result<(), StepFault> {
        let told = told_of(self.alloc, schedule)?;
        match told.as_str().strip_prefix(self.told.as_str()) {
            Some(new) => came.push_str(new.trim_end())?,
            None => came.push_str("the lines before say something else")?,
        }
        self.told = told;
        Ok(())
    }

    /// Reads lines behind those before, the last without its end. Where one is not understood, none of them is kept.
    fn read(&mut self, lines: &str, came: &mut String) -> Result<(), StepFault> {
        let len = self.text.len();
        put_spelled(&mut self.text, lines)?;
        match parse_schedule(self.alloc, &self.text) {
            Ok(schedule) => {
                self.text.push(b'\n')?;
                self.tell_new(&schedule, came)
            }
            Err(fault) => {
                self.text.truncate(len);
                Ok(write!(came, "{fault:?}")?)
            }
        }
    }

    /// Adds so many empty lines.
    fn add_empty(&mut self, count: usize) -> Result<(), StepFault> {
        let len = self.text.len().saturating_add(count);
        Ok(self.text.resize(len, b'\n')?)
    }

    /// Tells what the lines set, and how many events there are.
    fn tell_set(&self, came: &mut String) -> Result<(), StepFault> {
        let schedule = parse_schedule(self.alloc, &self.text).map_err(|_| "no schedule")?;
        let events = schedule.events.len();
        Ok(write!(
            came,
            "{} partitions, {} senders, {events} events, {:?}",
            schedule.partitions, schedule.senders, schedule.config
        )?)
    }
}

impl Reading {
    /// Begins a case: nothing is left of the one before.
    pub(crate) fn begin(&mut self) {
        self.text.clear();
        self.told.clear();
    }

    /// Plays a step.
    pub(crate) fn play(
        &mut self,
        step: &str,
        words: &mut Words<'_>,
        came: &mut String,
    ) -> Result<(), StepFault> {
        match step {
            "read" => self.read(words.rest(), came),
            "empty" => self.add_empty(words.number()?),
            "schedule" => self.tell_set(came),
            _ => Err(StepFault::NotUnderstood),
        }
    }
}
