//! An engine over a stream, with the senders that it serves, and the task in which it is polled.

use crate::engines::clock::Ticking;
use crate::engines::opening::open;
use crate::engines::setting::Setting;
use crate::engines::shared::Shared;
use crate::engines::tally::Tally;
use crate::engines::texts::put_told;
use futures::task::Poll;
use futures::test::MockTask;
use kp_batch::{Record, Timestamp};
use kp_cases::{StepFault, put_debug};
use kp_connection::script::{Script, Step};
use kp_engine::{Engine, Stop};
use kp_lanes::{Closer, Sender, Target};
use kp_wire::{Blob, Seq};
use std::alloc::{AllocError, Global};
use std::io::ErrorKind;
use std::random::RandomSource;

/// An engine over a stream, with the senders that it serves, and the task in which it is polled.
#[derive(Drop)]
pub(crate) struct Scene {
    pub(crate) alloc: Global,
    pub(crate) stream: Shared,
    pub(crate) task: MockTask,
    pub(crate) engine: Engine<Shared, Ticking>,
    pub(crate) senders: Vec<Sender>,
    pub(crate) closer: Closer,
    pub(crate) tally: Tally,
    /// Memory was refused to a poll.
    pub(crate) is_refused: bool,
}

/// A keyless record with the timestamp 0.
fn record_of(alloc: Global, value: &str) -> Result<Record, StepFault> {
    Ok(Record {
        timestamp: Timestamp::from_millis(0).ok_or("no timestamp")?,
        key: None,
        value: Some(Blob::from_slice(alloc, value.as_bytes())?),
        headers: Seq::new(Vec::new(alloc)),
    })
}

/// The task in which an engine is polled.
fn task_of<R: RandomSource + AllocGlobal>(rt: &R) -> Result<MockTask, StepFault> {
    match MockTask::new(rt) {
        Ok(task) => Ok(task),
        Err(e) if e.kind() == ErrorKind::OutOfMemory => Err(StepFault::OutOfMemory),
        Err(_) => Err("no task".into()),
    }
}

impl Scene {
    /// A new engine over a stream that takes all and gives nothing.
    pub(crate) fn open<R: RandomSource + AllocGlobal>(
        rt: &R,
        setting: Setting,
    ) -> Result<Scene, StepFault> {
        let alloc = rt.alloc();
        let task = task_of(rt)?;
        let stream = Shared::new(alloc, Script::new(alloc, Vec::new(alloc)))?;
        let (engine, senders, closer) = open(alloc, setting, stream.share()?)?;
        Ok(Scene {
            alloc,
            stream,
            task,
            engine,
            senders,
            closer,
            tally: Tally::new(),
            is_refused: false,
        })
    }

    /// One poll of the engine as a future: None where it is pending.
    pub(crate) fn poll(&mut self) -> Option<Stop> {
        match self.task.poll(&mut self.engine) {
            Poll::Pending => None,
            Poll::Ready(stop) => Some(stop),
        }
    }

    /// The same. Where memory is refused to it, the engine has stopped for good.
    pub(crate) fn poll_on(&mut self) -> Result<Option<Stop>, StepFault> {
        let stop = self.poll();
        if stop != Some(Stop::OutOfMemory) {
            return Ok(stop);
        }
        self.is_refused = true;
        self.polls_alike()?;
        Err(StepFault::Stopped)
    }

    /// Polls twice more, where the engine has stopped: each answers the same.
    pub(crate) fn polls_alike(&mut self) -> Result<(), StepFault> {
        let stop = self.engine.stopped();
        if stop.is_none() || self.poll() != stop || self.poll() != stop {
            return Err("it has not stopped for good".into());
        }
        Ok(())
    }

    /// Goes on over another connection, which is the stream as it is now: whether one was needed.
    pub(crate) fn connect(&mut self) -> Result<bool, AllocError> {
        let stream = self.stream.share()?;
        let needed = matches!(self.engine.stopped(), Some(Stop::NeedStream(_)));
        if needed {
            self.engine.give_stream(stream);
        }
        Ok(needed)
    }

    fn sender(&mut self, number: usize) -> Result<&mut Sender, StepFault> {
        Ok(self.senders.get_mut(number).ok_or("no such sender")?)
    }

    /// This sender sends a record with this value to partition 0, or why it does not.
    pub(crate) fn send(
        &mut self,
        sender: usize,
        value: &str,
        came: &mut String,
    ) -> Result<(), StepFault> {
        let record = record_of(self.alloc, value)?;
        match self.sender(sender)?.send(Target::Named(0), record, 0) {
            Ok(_) => Ok(self.tally.send()),
            Err((fault, _)) => put_debug(came, &fault),
        }
    }

    /// This sender asks for a flush, or why it does not.
    pub(crate) fn flush(&mut self, sender: usize, came: &mut String) -> Result<(), StepFault> {
        match self.sender(sender)?.flush() {
            Ok(()) => Ok(()),
            Err(fault) => put_debug(came, &fault),
        }
    }

    /// Fetches this sender's reports: "0/0/0 Delivered(0); 0/0/1 Delivered(1)".
    pub(crate) fn tell(&mut self, sender: usize, came: &mut String) -> Result<(), StepFault> {
        for _ in 0..u32::MAX {
            let Some(report) = self.sender(sender)?.poll_report() else {
                break;
            };
            self.tally.report(&report);
            put_told(came, &report)?;
        }
        Ok(())
    }

    /// The core, as it shows itself.
    pub(crate) fn core(&self) -> Result<String, AllocError> {
        format!(in self.alloc; "{:?}", self.engine.core())
    }

    /// What the last poll has moved, and for which senders: "something at 100, for 0, for 2".
    pub(crate) fn tell_moves(&self, came: &mut String) -> Result<(), AllocError> {
        let moves = self.engine.moves();
        let what = if moves.any() { "something" } else { "nothing" };
        write!(came, "{what} at {}", moves.now())?;
        for sender in 0..100 {
            if moves.serves(sender) {
                write!(came, ", for {sender}")?;
            }
        }
        Ok(())
    }

    /// From now on the stream gives these bytes. Its reads and its writes go through these steps, again and again.
    pub(crate) fn play(
        &self,
        reads: Vec<Step>,
        writes: Vec<Step>,
        input: Vec<u8>,
    ) -> Result<(), StepFault> {
        let script = Script::new(self.alloc, input);
        *self.stream.lend()? = script.reading(reads).writing(writes);
        Ok(())
    }

    /// From now on the stream takes all, and gives these bytes, whole.
    pub(crate) fn say(&self, input: Vec<u8>) -> Result<(), StepFault> {
        self.play(Vec::new(self.alloc), Vec::new(self.alloc), input)
    }
}
