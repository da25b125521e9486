//! Counts that one thread makes and each may read.

ghost use Rattle.std.specs.Prelude.{◌≡◌, ◌<◌, length, IfOk, Some, slice_get};

use crate::statistics::Statistics;
use kp_core::Outcome;
use std::alloc::{AllocError, Global};
use std::sync::atomic::AtomicU64;
use std::sync::atomic::Ordering::SeqCst;

/// A count that one thread makes and each may read. It stays at the greatest number.
#[derive(Drop)]
pub(crate) struct Count {
    value: AtomicU64,
}

impl Count {
    pub(crate) fn new() -> Count {
        Count {
            value: AtomicU64::new(0),
        }
    }

    /// Adds to it. Only the thread that makes the count may call this.
    #[inline(always)]
    pub(crate) fn add(&self, more: u64) {
        if more > 0 {
            self.value.store(self.read().saturating_add(more), SeqCst);
        }
    }

    /// Sets it. Only the thread that makes the count may call this.
    pub(crate) fn set(&self, value: u64) {
        self.value.store(value, SeqCst);
    }

    #[inline(always)]
    pub(crate) fn read(&self) -> u64 {
        self.value.load(SeqCst)
    }
}

/// What a sender's thread counts.
#[derive(Drop)]
pub(crate) struct SenderCounts {
    pub(crate) accepted: Count,
    delivered: Count,
    unknown: Count,
    rejected: Count,
    unsent: Count,
    /// Keeps the next sender's counts out of the cache lines of these.
    _apart: [u64; 11],
}

impl SenderCounts {
    fn new() -> SenderCounts {
        SenderCounts {
            accepted: Count::new(),
            delivered: Count::new(),
            unknown: Count::new(),
            rejected: Count::new(),
            unsent: Count::new(),
            _apart: [0; 11],
        }
    }

    /// A report with this outcome was received.
    pub(crate) fn note(&self, outcome: Outcome) {
        let count = match outcome {
            Outcome::Delivered(_) | Outcome::DeliveredNoOffset => &self.delivered,
            Outcome::Unknown => &self.unknown,
            Outcome::Rejected(_) => &self.rejected,
            Outcome::Unsent(_) => &self.unsent,
        };
        count.add(1);
    }
}

/// What the threads of a producer count.
#[derive(Drop)]
pub(crate) struct Counts {
    pub(crate) senders: Vec<SenderCounts>,
    pub(crate) requests: Count,
    pub(crate) replies: Count,
    pub(crate) batches: Count,
    pub(crate) attempts: Count,
    pub(crate) bytes_given: Count,
    pub(crate) bytes_heard: Count,
    pub(crate) connections: Count,
}

impl Counts {
    pub(crate) fn new(alloc: Global, senders: usize) -> Result<Counts, AllocError>
        ensures { IfOk result (λ counts. length counts.senders.items ≡ senders) }
    {
        let mut counts = Vec::with_capacity(alloc, senders)?;
        for _ in 0..senders {
            counts.push_reserved(SenderCounts::new());
        }
        Ok(Counts {
            senders: counts,
            requests: Count::new(),
            replies: Count::new(),
            batches: Count::new(),
            attempts: Count::new(),
            bytes_given: Count::new(),
            bytes_heard: Count::new(),
            connections: Count::new(),
        })
    }

    /// What was counted so far. The threads go on counting meanwhile.
    pub(crate) fn read(&self) -> Statistics {
        let mut sum = Statistics {
            requests: self.requests.read(),
            replies: self.replies.read(),
            batches: self.batches.read(),
            attempts: self.attempts.read(),
            bytes_given: self.bytes_given.read(),
            bytes_heard: self.bytes_heard.read(),
            connections: self.connections.read(),
            ..Statistics::default()
        };
        for sender in &self.senders {
            sum.accepted = sum.accepted.saturating_add(sender.accepted.read());
            sum.delivered = sum.delivered.saturating_add(sender.delivered.read());
            sum.unknown = sum.unknown.saturating_add(sender.unknown.read());
            sum.rejected = sum.rejected.saturating_add(sender.rejected.read());
            sum.unsent = sum.unsent.saturating_add(sender.unsent.read());
        }
        sum
    }
}
