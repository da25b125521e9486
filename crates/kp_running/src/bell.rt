//! How one thread ends another's wait.

ghost use Rattle.std.specs.Prelude.{◌≡◌};
ghost use Rattle.tokio.specs.Locks.{notified_source};
ghost use Rattle.kp_running.specs.Bells.{bell_source};

use std::alloc::{AllocError, Global};
use std::sync::Wait;
use std::sync::atomic::AtomicBool;
use std::sync::atomic::Ordering::SeqCst;
use std::thread::Parker;
use std::time::Duration;
use tokio::sync::{Notified, Notify};

/// The engine's bell: it is heard by a future. Who has sent a record, or shut the gate, rings it.
#[derive(Drop)]
pub struct Bell {
    /// Somebody waits, or is about to.
    asked: AtomicBool,
    notify: Notify,
}

impl Bell {
    pub fn new(alloc: Global) -> Result<Bell, AllocError> {
        Ok(Bell {
            asked: AtomicBool::new(false),
            notify: Notify::new(alloc)?,
        })
    }

    /// Ends the wait of who has asked. It waits for nobody and takes no memory; where nobody has asked it only looks.
    #[inline(always)]
    pub fn ring(&self) {
        if self.asked.load(SeqCst) {
            self.ring_asked();
        }
    }

    #[cold]
    fn ring_asked(&self) {
        if self.asked.swap(false, SeqCst) {
            self.notify.notify_one();
        }
    }

    /// From now on the next ring is heard. What was done before it rings is to be looked for once more, and only then may
    /// its caller wait.
    pub fn ask(&self) {
        self.asked.store(true, SeqCst);
    }

    /// Nobody waits any more.
    pub fn excuse(&self) {
        self.asked.store(false, SeqCst);
    }

    /// Ends with a ring that was asked for. It fails only where there is no memory to wait in.
    pub fn heard(&self) -> Notified<'_>
        ensures { notified_source result ≡ bell_source self.now }
    {
        self.notify.notified()
    }
}

/// A sender's bell: it is heard by a thread. The engine rings it where it took from the sender's lane, or handed the
/// sender a report. One thread at a time may wait for it.
#[derive(Drop)]
pub struct SenderBell {
    /// Whose it is.
    number: usize,
    /// The thread waits, or is about to.
    asked: AtomicBool,
    parker: Parker,
}

impl SenderBell {
    /// The bell of this sender.
    pub fn new(number: usize) -> SenderBell
        ensures { result.number ≡ number }
    {
        SenderBell {
            number,
            asked: AtomicBool::new(false),
            parker: Parker::new(),
        }
    }

    /// Which sender's it is.
    pub fn number(&self) -> usize
        ensures { result ≡ self.now.number }
    {
        self.number
    }

    /// Ends the wait of the thread that has asked. It waits for nobody. Of a ring and an asking the second one sees what was done
    /// before the first, as each reads what the other wrote: so that either the wait ends, or who asked finds what there is.
    pub fn ring(&self) {
        if self.asked.swap(false, SeqCst) {
            self.parker.unpark();
        }
    }

    /// From now on the next ring is heard. What was done before it rings is to be looked for once more, and only then may
    /// its caller wait.
    pub fn ask(&self) {
        self.asked.swap(true, SeqCst);
    }

    /// Nobody waits any more.
    pub fn excuse(&self) {
        self.asked.store(false, SeqCst);
    }

    /// Waits for a ring that was asked for, so long at most. It may end earlier.
    pub fn wait<R: Wait>(&self, rt: &R, at_most: Duration) {
        self.parker.park_timeout(rt, at_most);
    }
}
