//! A sender's handle.

ghost use Rattle.std.specs.Prelude.{◌<◌, length};
ghost use Rattle.std.specs.Arc.{arc_value};
ghost use Rattle.kp_lanes.specs.Sender.{sender_number};
ghost use Rattle.kp_running.specs.Bells.{sender_bells};

use crate::shared::Shared;
use crate::statistics::{Monitor, Statistics};
use kp_batch::Record;
use kp_core::Report;
use kp_lanes::{Finished, FlushFault, SendFault, Sender, Target, Ticket};
use kp_running::{Passed, SenderBell};
use std::alloc::{AllocError, Global};
use std::sync::{Arc, Wait};
use std::time::{Clock, Duration, Instant};

/// How long a wait is at most before the lane, or the ring of reports, is looked at again, in milliseconds: the bell ends it
/// sooner, where there is room or a report.
const LONGEST_WAIT: u64 = 1000;

/// A sender's handle: its records go to their partitions in the order in which they are sent. One thread uses it at a
/// time.
#[derive(Drop)]
pub struct Producer {
    sender: Sender,
    shared: Arc<Shared, Global>,
    passed: Passed,
    ghost has_bell: { sender_number sender < length (sender_bells (arc_value shared).bells) },
}

impl Producer {
    ghost use Rattle.std.specs.Prelude.{◌≡◌, ◌-◌, IfOk};
    ghost use Rattle.kp_lanes.specs.Sender.{accepted, all_accepted, all_got, finished_id, finished_number, got, sender_id, turn};
    ghost use Rattle.kp_client.specs.Producer.{lane_of, Flushes, Hears, SameProducer, SendsLater, Sends};
    ghost use Rattle.kp_client.specs.Statistics.{counted_by, shared_by};

    pub(crate) fn new(sender: Sender, shared: Arc<Shared, Global>) -> Producer
        requires { sender_number sender < length (sender_bells (arc_value shared).bells) }
        ensures { lane_of result ≡ sender }
    {
        let passed = Passed::since(shared.start);
        Producer {
            sender,
            shared,
            passed,
        }
    }

    /// Which of the senders it is, from 0.
    pub fn number(&self) -> u32
        ensures { result ≡ sender_number (lane_of self.now) }
    {
        self.sender.number()
    }

    /// Sends a record, and says where it stands among the sender's own. It never waits: where it is refused, the record
    /// comes back, and nothing has changed.
    pub fn send<R: Clock>(
        &mut self,
        rt: &R,
        target: Target,
        body: Record,
    ) -> Result<Ticket, (SendFault, Record)>
        ensures { Sends self.old target body result self.new }
    {
        let at = self.passed.read(rt);
        let sent = self.sender.send(target, body, at);
        if sent.is_ok() {
            let number = self.sender.number() as usize;
            self.shared.counts.senders[number].accepted.add(1);
            self.shared.bells.engine().ring();
        }
        sent
    }

    /// The same, but where the lane is full it waits for room, so long at most. What the last try answered is answered.
    pub fn send_within<R: Wait + Clock>(
        &mut self,
        rt: &R,
        target: Target,
        body: Record,
        at_most: Duration,
    ) -> Result<Ticket, (SendFault, Record)>
        ensures { SendsLater self.old target body result self.new }
    {
        match self.send(rt, target, body) {
            Err((SendFault::LaneFull, back)) => self.send_when_room(rt, target, back, at_most),
            sent => sent,
        }
    }

    /// Tries again each time that there may be room.
    fn send_when_room<R: Wait + Clock>(
        &mut self,
        rt: &R,
        target: Target,
        body: Record,
        at_most: Duration,
    ) -> Result<Ticket, (SendFault, Record)>
        ensures { SendsLater self.old target body result self.new }
    {
        let begun = Instant::now(rt);
        let mut body = body;
        for _ in rt.forever() {
            self.bell().ask();
            let (fault, back) = match self.send(rt, target, body) {
                Ok(ticket) => {
                    self.bell().excuse();
                    return Ok(ticket);
                }
                Err(refused) => refused,
            };
            let left = left_of(rt, &begun, at_most);
            if fault != SendFault::LaneFull || left.is_zero() || self.is_stopped() {
                self.bell().excuse();
                return Err((fault, back));
            }
            self.bell()
                .wait(rt, left.min(Duration::from_millis(LONGEST_WAIT)));
            body = back;
        }
        unreachable!()
    }

    /// Asks that all that this sender has sent goes out without a wait for fuller batches.
    pub fn flush(&mut self) -> Result<(), FlushFault>
        ensures { Flushes self.old result self.new }
    {
        let flushed = self.sender.flush();
        if flushed.is_ok() {
            self.shared.bells.engine().ring();
        }
        flushed
    }

    /// The next report, if one has come.
    pub fn poll_report(&mut self) -> Option<Report>
        ensures same { SameProducer self.old self.new }
        ensures items { accepted (lane_of self.new) ≡ accepted (lane_of self.old) }
        ensures turns { turn (lane_of self.new) ≡ turn (lane_of self.old) }
        ensures hears { Hears self.old result self.new }
    {
        let report = self.sender.poll_report();
        if let Some(report) = &report {
            let number = self.sender.number() as usize;
            self.shared.counts.senders[number].note(report.outcome);
        }
        report
    }

    /// The next report, where one comes within this time. None at once where the service has ended.
    pub fn wait_report<R: Wait + Clock>(&mut self, rt: &R, at_most: Duration) -> Option<Report>
        ensures same { SameProducer self.old self.new }
        ensures items { accepted (lane_of self.new) ≡ accepted (lane_of self.old) }
        ensures turns { turn (lane_of self.new) ≡ turn (lane_of self.old) }
        ensures hears { Hears self.old result self.new }
    {
        let begun = Instant::now(rt);
        for _ in rt.forever() {
            self.bell().ask();
            let stopped = self.shared.is_stopped();
            let report = self.poll_report();
            let left = left_of(rt, &begun, at_most);
            if report.is_some() || stopped || left.is_zero() {
                self.bell().excuse();
                return report;
            }
            self.bell()
                .wait(rt, left.min(Duration::from_millis(LONGEST_WAIT)));
        }
        unreachable!()
    }

    /// How many records were accepted, less the reports that were received.
    pub fn waiting(&self) -> u64
        ensures { result ≡ length (accepted (lane_of self.now)) - length (got (lane_of self.now)) }
    {
        self.sender.waiting()
    }

    /// Whether the service has ended: nothing is taken or reported any more.
    pub fn is_stopped(&self) -> bool {
        self.shared.is_stopped()
    }

    /// What all senders and the service have done so far.
    pub fn statistics(&self) -> Statistics {
        self.shared.counts.read()
    }

    /// Reads the statistics on another thread.
    pub fn monitor(&self) -> Result<Monitor, AllocError>
        ensures { IfOk result (λ monitor. counted_by monitor ≡ shared_by self.now) }
    {
        Ok(Monitor::new(Arc::try_clone(&self.shared)?))
    }

    /// Ends the sender. What it sent goes on its way; what it has not received is given back when all has ended.
    pub fn finish(self) -> Finished
        ensures number { finished_number result ≡ sender_number (lane_of self) }
        ensures lane { finished_id result ≡ sender_id (lane_of self) }
        ensures lists { (all_accepted result ≡ accepted (lane_of self)) × (all_got result ≡ got (lane_of self)) }
    {
        let Producer { sender, .. } = self;
        sender.finish()
    }

    /// The sender's own bell.
    fn bell(&self) -> &SenderBell {
        self.shared.bells.of(self.sender.number())
    }
}

/// How much of this time is left. None, where the clock can't be read.
fn left_of<R: Clock>(rt: &R, begun: &std::io::Result<Instant>, at_most: Duration) -> Duration {
    match begun {
        Ok(begun) => match begun.elapsed(rt) {
            Ok(passed) => at_most.saturating_sub(passed),
            Err(_) => Duration::ZERO,
        },
        Err(_) => Duration::ZERO,
    }
}
