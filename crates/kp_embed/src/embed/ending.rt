//! Reports, flush, close and end, and what is to be seen of a producer.

ghost use Rattle.std.specs.Prelude.{◌≡◌, true, count_by, is_some, length};
ghost use Rattle.kp_embed.specs.Ending.{Calls};
ghost use Rattle.kp_embed.specs.Seeing.{attempts_of, batches_of, flushed_of, in_flight_of, phase_of, queued_of, untold_of, used_of};
ghost use Rattle.kp_rules.specs.Calls.{Close, End, Fetch, Flush};

use crate::calling;
use crate::embed::{Embed, Phase};
use kp_core::Report;

/// What is to be seen of a producer.
#[derive(Clone, Copy, Debug, PartialEq, Eq)]
pub struct Statistics {
    /// How many records were accepted and have no report that was made.
    pub untold: u64,
    /// The memory that these take, of `buffer.memory`.
    pub buffer_used: u64,
    pub requests_in_flight: u64,
    /// How many nodes and bootstrap addresses are known.
    pub nodes: u64,
    /// The error code of the last refusal of Metadata or of a producer id.
    pub refused: Option<i16>,
}

impl Embed {
    /// The oldest report that was not fetched.
    #[tactic(auto, using(crate::proofs::ActLemmas::still_none))]
    pub fn next_report(&mut self) -> Option<Report>
        ensures calls { Calls (Fetch 0 result) self.old self.new }
        ensures still { self.new.is_closed ≡ self.old.is_closed }
    {
        calling::next_report(&mut self.core)
    }

    /// All that was accepted goes out, without lingering; `is_flushed` once all of it is told.
    #[tactic(auto, using(crate::proofs::ActLemmas::still_none))]
    pub fn flush(&mut self)
        ensures calls { Calls Flush self.old self.new }
        ensures still { self.new.is_closed ≡ self.old.is_closed }
    {
        calling::flush(&mut self.core);
    }

    /// No record is accepted any more, and all that was goes out.
    #[tactic(auto, using(crate::proofs::ActLemmas::still_none))]
    pub fn close(&mut self)
        ensures calls { Calls Close self.old self.new }
        ensures closed { self.new.is_closed ≡ true }
    {
        self.is_closed = true;
        calling::close(&mut self.core);
    }

    /// Gives up all that is left: how many records are told of.
    #[tactic(auto, using(crate::proofs::ActLemmas::still_none))]
    pub fn end(&mut self) -> usize
        ensures calls { Calls (End result) self.old self.new }
        ensures closed { self.new.is_closed ≡ true }
    {
        self.is_closed = true;
        calling::end(&mut self.core)
    }

    /// How far it has come.
    pub fn phase(&self) -> Phase
        ensures { result ≡ phase_of self.now.core self.now.is_failed }
    {
        match &self.core {
            Some(core) if core.is_spent() => Phase::Spent,
            Some(_) => Phase::Ready,
            None if self.is_failed => Phase::Failed,
            None => Phase::Opening,
        }
    }

    /// How many partitions the topic has; 0 before the producer is ready.
    pub fn partitions(&self) -> usize
        ensures { result ≡ length self.now.counts }
    {
        self.counts.as_slice().len()
    }

    /// Whether each record that was accepted before the last flush has its report.
    pub fn is_flushed(&self) -> bool
        ensures { result ≡ flushed_of self.now.core }
    {
        match &self.core {
            Some(core) => core.flushed(),
            None => true,
        }
    }

    /// How many batches were handed over; the greatest number, where there were more.
    pub fn batches_handed_over(&self) -> u64
        ensures { result ≡ batches_of self.now.core }
    {
        match &self.core {
            Some(core) => core.batches_handed_over(),
            None => 0,
        }
    }

    /// How often batches went out, first or again; the greatest number, where it was oftener.
    pub fn attempts_sent(&self) -> u64
        ensures { result ≡ attempts_of self.now.core }
    {
        match &self.core {
            Some(core) => core.attempts_sent(),
            None => 0,
        }
    }

    /// How many records are queued, in batches that were not handed over; the greatest number, where there are more.
    pub fn records_queued(&self) -> u64
        ensures { result ≡ queued_of self.now.core }
    {
        match &self.core {
            Some(core) => core.items_queued(),
            None => 0,
        }
    }

    /// How many connections are open.
    pub fn connections(&self) -> usize
        ensures { result ≡ count_by is_some self.now.lines }
    {
        self.lines.open()
    }

    pub fn statistics(&self) -> Statistics
        ensures untold { result.untold ≡ untold_of self.now.core }
        ensures used { result.buffer_used ≡ used_of self.now.core }
        ensures in_flight { result.requests_in_flight ≡ in_flight_of self.now.core }
        ensures nodes { result.nodes ≡ length self.now.cluster.slots }
    {
        let (untold, buffer_used, requests_in_flight) = match &self.core {
            Some(core) => (core.untold(), core.used(), core.requests_in_flight() as u64),
            None => (0, 0, 0),
        };
        Statistics {
            untold,
            buffer_used,
            requests_in_flight,
            nodes: self.cluster.nodes() as u64,
            refused: self.refused,
        }
    }
}
