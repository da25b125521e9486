//! What a producer has done so far.

ghost use Rattle.std.specs.Prelude.{◌≡◌, IfOk};
ghost use Rattle.std.specs.Arc.{arc_value};

use crate::shared::Shared;
use std::alloc::{AllocError, Global};
use std::sync::Arc;

/// What a producer has done so far, in plain counts. Each thread counts for itself, so that of two counts the one may be
/// a little newer than the other; those of batches and attempts are up to some milliseconds old.
#[derive(Clone, Copy, Debug, Default, PartialEq, Eq)]
pub struct Statistics {
    /// Records that the senders' lanes accepted.
    pub accepted: u64,
    /// Records of which a sender received that they stand in the log.
    pub delivered: u64,
    /// Records of which a sender received that nobody knows whether they stand in the log.
    pub unknown: u64,
    /// Records of which a sender received that the broker refused them.
    pub rejected: u64,
    /// Records of which a sender received that they were never sent.
    pub unsent: u64,
    /// Requests that went out, those for a producer id too.
    pub requests: u64,
    /// Replies to requests that were in flight.
    pub replies: u64,
    /// Batches that went out.
    pub batches: u64,
    /// How often batches went out: once each, and once more for each retry.
    pub attempts: u64,
    /// Bytes of the requests that went out.
    pub bytes_given: u64,
    /// Bytes of the replies that came, beside their sizes.
    pub bytes_heard: u64,
    /// Connections that were made, the one of the handshake too.
    pub connections: u64,
}

/// Reads a producer's statistics, on any thread.
#[derive(Drop)]
pub struct Monitor {
    shared: Arc<Shared, Global>,
}

impl Monitor {
    ghost use Rattle.kp_client.specs.Statistics.{counted_by};

    pub(crate) fn new(shared: Arc<Shared, Global>) -> Monitor
        ensures { counted_by result ≡ arc_value shared }
    {
        Monitor { shared }
    }

    /// What the producer has done so far.
    pub fn read(&self) -> Statistics {
        self.shared.counts.read()
    }

    /// One more, for another thread.
    pub fn try_clone(&self) -> Result<Monitor, AllocError>
        ensures { IfOk result (λ monitor. counted_by monitor ≡ counted_by self.now) }
    {
        Ok(Monitor {
            shared: Arc::try_clone(&self.shared)?,
        })
    }
}
