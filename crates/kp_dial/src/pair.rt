//! Two parts of some work, each on a thread.

use std::sync::atomic::AtomicU8;
use std::sync::atomic::Ordering::SeqCst;
use std::time::{Clock, Duration, Instant};
use std::{io, thread};

/// For how long one part waits for the other to begin, in milliseconds, and how often it looks at the most.
const PATIENCE: u64 = 3_000;

/// Neither part has begun.
const APART: u8 = 0;

/// One part waits for the other.
const WAITING: u8 = 1;

/// Both have begun, and none has ended.
const MET: u8 = 2;

/// One part goes on no more, or never did beside the other.
const PARTED: u8 = 3;

/// Two parts of some work, each on a thread, where one waits for what the other does.
///
/// Where no thread can be made for want of memory, `thread::join` does one behind the other, and a part that waits for the other would
/// wait without end. So each is to begin by telling so here, and to do nothing where the other does not begin beside it.
#[derive(Drop)]
pub struct Pair {
    state: AtomicU8,
}

impl Pair {
    /// Neither part has begun.
    pub fn new() -> Pair {
        Pair {
            state: AtomicU8::new(APART),
        }
    }

    /// A part begins: whether the other does beside it, and goes on. It waits 3 seconds for that at most.
    pub fn begin<R: Clock>(&self, rt: &R) -> bool {
        if !self.goes_on(APART, WAITING) {
            return self.goes_on(WAITING, MET);
        }
        let start = Instant::now(rt);
        for _ in 0..PATIENCE {
            match self.state.load(SeqCst) {
                WAITING if is_over(rt, &start) => break,
                WAITING => thread::sleep(rt, Duration::from_millis(1)),
                state => return state == MET,
            }
        }
        !self.goes_on(WAITING, PARTED)
    }

    /// One part ends.
    pub fn end(&self) {
        self.state.store(PARTED, SeqCst);
    }

    /// Whether one part has ended, or never began beside the other.
    pub fn is_parted(&self) -> bool {
        self.state.load(SeqCst) == PARTED
    }

    /// Goes from the one state to the other, where it is the one.
    fn goes_on(&self, from: u8, to: u8) -> bool {
        self.state
            .compare_exchange(from, to, SeqCst, SeqCst)
            .is_ok()
    }
}

/// Whether the patience is over since then. Where the clock can't be read nobody knows, and looks alone are counted.
fn is_over<R: Clock>(rt: &R, start: &io::Result<Instant>) -> bool {
    match start {
        Ok(start) => match start.elapsed(rt) {
            Ok(passed) => passed >= Duration::from_millis(PATIENCE),
            Err(_) => false,
        },
        Err(_) => false,
    }
}
