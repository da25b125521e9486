//! What the threads of a producer share.

use kp_client::{Closer, Ending, Monitor, Producer};
use std::alloc::{AllocGlobal, Global};
use std::fmt::Debug;
use std::io;
use std::sync::{Mutex, Wait};
use std::time::{Clock, Duration, Instant};

/// What the threads of a producer share.
#[derive(Drop)]
pub(crate) struct Stage {
    begun: Instant,
    /// What came of the senders' steps so far, a line for each.
    text: Mutex<String>,
    pub(crate) closer: Mutex<Closer>,
    pub(crate) monitor: Monitor,
}

impl Stage {
    /// A stage for a producer with this sender.
    pub(crate) fn new<R: Clock + AllocGlobal>(
        rt: &R,
        closer: Closer,
        producer: &Producer,
    ) -> io::Result<Stage> {
        Ok(Stage {
            begun: Instant::now(rt)?,
            text: Mutex::new(String::new(rt.alloc())),
            closer: Mutex::new(closer),
            monitor: producer.monitor()?.try_clone()?,
        })
    }

    /// How long it is since the opening, in microseconds. 0, where the clock can't be read.
    pub(crate) fn micros<R: Clock>(&self, rt: &R) -> u64 {
        let passed = self.begun.elapsed(rt).unwrap_or(Duration::ZERO);
        u64::try_from(passed.as_micros()).unwrap_or(u64::MAX)
    }

    /// Tells what came of a sender's step, which began then and has ended now. None where memory is refused.
    pub(crate) fn tell<R: Wait + Clock, T: Debug>(
        &self,
        rt: &R,
        sender: u32,
        began: u64,
        what: &str,
        came: &T,
    ) -> Option<()> {
        let ended = self.micros(rt);
        let mut held = self.text.lock(rt);
        let text = &mut *held;
        writeln!(text, "{sender} {began} {ended} {what} {came:?}").ok()
    }

    /// Prints what came of the steps, how the service ended, with how many new connections, and how many records came back.
    pub(crate) fn print<R: Wait + Clock + Print>(
        &self,
        rt: &R,
        ending: Ending,
        made: u32,
        records: usize,
    ) -> io::Result<()> {
        print!(rt; "{}", self.text.lock(rt).as_str())?;
        let ended = self.micros(rt);
        println!(rt; "{ended} {ending:?}, {made} new connections, {records} records came back")?;
        println!(rt; "{:?}", self.monitor.read())
    }
}
