//! A batch that was handed over, and whose items are not told.

ghost use Rattle.std.specs.Prelude.{◌≡◌, ◌-◌, ◌^◌, pos, ◌+ℤ◌, ◌≤ℤ◌, length};
ghost use Rattle.kp_rules.specs.Attempts.{awaits, is_waiting};
ghost use Rattle.kp_rules.specs.Dropping.{drop_attempt};
ghost use Rattle.kp_rules.specs.Flush.{mark_open};
ghost use Rattle.kp_rules.specs.HandingOver.{again_in, first_sent_in};
ghost use Rattle.kp_rules.specs.MaySend.{is_rested};
ghost use Rattle.kp_rules.specs.Settling.{put_off};
ghost use Rattle.kp_rules.specs.Telling.{told_all, told_offsets};
ghost use Rattle.kp_rules.specs.Tick.{is_open_late};
ghost use Rattle.kp_parts.specs.Desk.{tell_desk, Covers};

use crate::desk::Desk;
use crate::handed::HandedBatch;
use crate::moments::is_over;
use kp_accum::{Config, Pending};
use kp_rules::{Attempt, Outcome};
use std::marker::Model;

/// A batch that was handed over, and whose items are not told.
#[derive(Debug, Drop)]
pub struct Open {
    number: u64,
    id: u64,
    sequence: u64,
    batch: Pending,
    attempt: Attempt,
    /// A flush waits for it. The mark that the batch has from its queue is read no more.
    marked: bool,
}

impl Model for Open {
    ghost use Rattle.kp_rules.specs.Records as seen;

    ghost Value = { seen.Open };

    ghost view = { λ o. record {
      batch = record { number = o.number; id = o.id; sequence = o.sequence; items = o.batch.items };
      begun = o.batch.begun;
      attempt = o.attempt;
      marked = o.marked;
    } };
}

impl Open {
    /// The batch that goes out for the first time in this request.
    pub fn first_sent(number: u64, id: u64, sequence: u64, batch: Pending, correlation: u32) -> Open
        ensures { result ≡ first_sent_in correlation (record {
          number = number;
          id = id;
          sequence = sequence;
          items = batch.items;
        }) batch }
    {
        let marked = batch.is_marked();
        Open {
            number,
            id,
            sequence,
            batch,
            attempt: Attempt::InFlight(correlation),
            marked,
        }
    }

    /// How many batches of its partition were handed over before it.
    pub fn number(&self) -> u64
        ensures { result ≡ self.now.batch.number }
    {
        self.number
    }

    /// The moment at which its first item was accepted.
    pub fn begun(&self) -> u64
        ensures { result ≡ self.now.begun }
    {
        self.batch.begun()
    }

    /// The producer id under which it goes out.
    pub fn id(&self) -> u64
        ensures { result ≡ self.now.batch.id }
    {
        self.id
    }

    /// How many records were handed over under this id before it.
    pub fn sequence(&self) -> u64
        ensures { result ≡ self.now.batch.sequence }
    {
        self.sequence
    }

    pub fn attempt(&self) -> Attempt
        ensures { result ≡ self.now.attempt }
    {
        self.attempt
    }

    /// Whether a flush waits for it.
    pub fn is_marked(&self) -> bool
        ensures { result ≡ self.now.marked }
    {
        self.marked
    }

    /// Whether its last attempt is the one in this request.
    pub fn awaits(&self, correlation: u32) -> bool
        ensures { result ≡ awaits correlation self.now }
    {
        match self.attempt {
            Attempt::InFlight(k) => k == correlation,
            Attempt::Waiting(_) => false,
        }
    }

    pub fn is_waiting(&self) -> bool
        ensures { result ≡ is_waiting self.now }
    {
        match self.attempt {
            Attempt::InFlight(_) => false,
            Attempt::Waiting(_) => true,
        }
    }

    /// Whether it has waited long enough to go out again.
    #[tactic(auto, unfolding(kp_rules::specs::MaySend::is_rested))]
    pub fn is_rested(&self, config: &Config, now: u64) -> bool
        ensures { result ≡ is_rested config.now now self.now }
    {
        match self.attempt {
            Attempt::InFlight(_) => false,
            Attempt::Waiting(since) => is_over(since, config.retry_backoff_ms, now),
        }
    }

    /// Whether its delivery timeout is over.
    pub fn is_late(&self, config: &Config, now: u64) -> bool
        ensures { result ≡ is_open_late config.now now self.now }
    {
        is_over(self.batch.begun(), config.delivery_timeout_ms, now)
    }

    /// Tells of each of its items the same, and gives their memory back.
    pub fn tell(&self, outcome: Outcome, desk: &mut Desk)
        requires { Covers desk.old (told_all outcome self.now.batch.items) }
        ensures { desk.new ≡ tell_desk (told_all outcome self.now.batch.items) desk.old }
    {
        desk.tell_all(self.batch.items(), self.batch.charge(), outcome);
    }

    /// Tells of each of its items its offset, the first one's being `base`, and gives their memory back.
    pub fn tell_offsets(&self, base: i64, desk: &mut Desk)
        requires covered { Covers desk.old (told_offsets base self.now.batch.items) }
        requires fits { (base +ℤ pos (length self.now.batch.items)) ≤ℤ pos (2 ^ 63 - 1) }
        ensures { desk.new ≡ tell_desk (told_offsets base self.now.batch.items) desk.old }
    {
        desk.tell_offsets(self.batch.items(), self.batch.charge(), base);
    }

    /// The batch, as it goes out again.
    pub fn batch(&self) -> HandedBatch<'_>
        ensures { result ≡ self.now.batch }
    {
        HandedBatch::new(self.number, self.id, self.sequence, &self.batch)
    }

    /// It goes out again, in this request.
    pub fn send_again(&mut self, correlation: u32)
        ensures { self.new ≡ again_in correlation self.old }
    {
        self.attempt = Attempt::InFlight(correlation);
    }

    /// Where it was in flight, it waits from this moment on.
    pub fn drop_attempt(&mut self, now: u64)
        ensures { self.new ≡ drop_attempt now self.old }
    {
        match self.attempt {
            Attempt::InFlight(_) => self.attempt = Attempt::Waiting(now),
            Attempt::Waiting(_) => {}
        }
    }

    /// Where it awaits the reply to this request, it waits from this moment on.
    pub fn put_off(&mut self, correlation: u32, now: u64)
        ensures { self.new ≡ put_off now correlation self.old }
    {
        if self.awaits(correlation) {
            self.attempt = Attempt::Waiting(now);
        }
    }

    /// A flush waits for it from now on.
    pub fn mark(&mut self)
        ensures { self.new ≡ mark_open self.old }
    {
        self.marked = true;
    }
}
