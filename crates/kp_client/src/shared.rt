//! What the threads of a producer share beside its lanes.

ghost use Rattle.std.specs.Prelude.{◌≡◌, length, IfOk};
ghost use Rattle.std.specs.Arc.{arc_value};
ghost use Rattle.kp_running.specs.Bells.{sender_bells};

use crate::counts::Counts;
use kp_running::Bells;
use std::alloc::{AllocError, Global};
use std::sync::Arc;
use std::sync::atomic::AtomicBool;
use std::sync::atomic::Ordering::SeqCst;
use std::time::Instant;

/// What the threads of a producer share beside its lanes.
#[derive(Drop)]
pub(crate) struct Shared {
    pub(crate) bells: Bells,
    pub(crate) counts: Counts,
    /// The moment from which the producer's own moments are counted.
    pub(crate) start: Instant,
    /// The service has ended: nothing is taken or reported any more.
    stopped: AtomicBool,
    pub(crate) ghost alike: { length counts.senders.items ≡ length (sender_bells bells) },
}

impl Shared {
    pub(crate) fn new(
        alloc: Global,
        senders: usize,
        start: Instant,
    ) -> Result<Arc<Shared, Global>, AllocError>
        ensures { IfOk result (λ shared. length (sender_bells (arc_value shared).bells) ≡ senders) }
    {
        let shared = Shared {
            bells: Bells::new(alloc, senders)?,
            counts: Counts::new(alloc, senders)?,
            start,
            stopped: AtomicBool::new(false),
        };
        Ok(Arc::new(alloc, shared)?)
    }

    /// Whether the service has ended.
    pub(crate) fn is_stopped(&self) -> bool {
        self.stopped.load(SeqCst)
    }

    /// The service has ended: each sender that waits is told so.
    pub(crate) fn stop(&self) {
        self.stopped.store(true, SeqCst);
        self.bells.ring_all();
    }
}
