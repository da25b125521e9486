//! A sender's thread.

ghost use Rattle.std.specs.Prelude.{◌≡◌, ◌+◌, ◌++◌, ◌∷◌, ◌<◌, [], false, IfErr, OnErr, OnOk};
ghost use Rattle.std.specs.Bool.{OnTrue};
ghost use Rattle.kp_lanes.specs.Limits.{charge_of};
ghost use Rattle.kp_lanes.specs.declared.fault.SendFault.TheVariants.{RecordTooLarge};
ghost use Rattle.kp_run.specs.Jobs.{accepted_by, deal_of, limits_in, HasRun, HasSent, HasTried, IsIdle, Keeps, SameJob, SentNothing};

use crate::stamps::Stamps;
use kp_batch::Record;
use kp_client::Producer;
use kp_core::Report;
use kp_dealing::{dealt, record_of};
use kp_lanes::{FlushFault, SendFault, Target};
use std::alloc::{AllocGlobal, Global};
use std::sync::Wait;
use std::thread;
use std::time::{Clock, Duration};

/// How long a wait for a report is at most, in milliseconds, before it is made again.
const PATIENCE: u64 = 100;

/// How long it is until a record is sent again whose lane was full, in microseconds. The engine takes some hundred records
/// in that time, about as many as a lane holds, and would take fewer if it had to wake each sender for which it made room.
const NAP: u64 = 200;

/// How long it is until a flush is asked for again, in milliseconds.
const FLUSH_WAIT: u64 = 1;

/// How many reports are received between two sends at most.
const EARS: u32 = 64;

/// What all senders do.
#[derive(Clone, Copy, Debug)]
pub(crate) struct Task<'a> {
    pub(crate) lines: &'a [&'a [u8]],
    pub(crate) senders: u32,
    pub(crate) keyed: bool,
    pub(crate) flush_every: Option<u64>,
}

/// A sender, with what it has done.
#[derive(Drop)]
pub(crate) struct Job {
    pub(crate) producer: Producer,
    stamps: Stamps,
    /// The reports that it received.
    pub(crate) heard: Vec<Report>,
    pub(crate) accepted: u64,
    /// A record or a report was lost, since memory was refused.
    pub(crate) has_lost: bool,
}

impl Job {
    pub(crate) fn new(alloc: Global, producer: Producer, stamps: Stamps) -> Job
        ensures producer { result.producer ≡ producer }
        ensures idle { IsIdle result }
    {
        Job {
            producer,
            stamps,
            heard: Vec::new(alloc),
            accepted: 0,
            has_lost: false,
        }
    }

    /// Sends the sender's lines, and hears what became of them, until each has its report or the service has ended.
    pub(crate) fn run<R>(&mut self, rt: &R, task: Task<'_>)
    where
        R: Wait + Clock + AllocGlobal,
        requires { HasTried (deal_of task) 0 self.old }
        ensures same { SameJob self.old self.new }
        ensures ran { HasRun (deal_of task.entry) self.new }
    {
        self.send_all(rt, task);
        self.hear_rest(rt);
    }

    /// Sends the sender's lines, as long as the service takes them.
    fn send_all<R>(&mut self, rt: &R, task: Task<'_>)
    where
        R: Wait + Clock + AllocGlobal,
        requires { HasTried (deal_of task) 0 self.old }
        ensures same { SameJob self.old self.new }
        ensures ran { HasRun (deal_of task.entry) self.new }
    {
        for k in 0..u64::MAX {
            if !self.send_line(rt, task, k) {
                return;
            }
        }
    }

    /// Sends line `k` of the sender. False where there is none, or the sender is to stop.
    fn send_line<R>(&mut self, rt: &R, task: Task<'_>, k: u64) -> bool
    where
        R: Wait + Clock + AllocGlobal,
        requires { HasTried (deal_of task) k self.old }
        ensures same { SameJob self.old self.new }
        ensures goes_on { OnTrue result (HasTried (deal_of task.entry) (k + 1) self.new) }
        ensures ran { HasRun (deal_of task.entry) self.new }
    {
        let sender = self.producer.number();
        let Some(line) = dealt(task.lines, task.senders, sender, k) else {
            return false;
        };
        let timestamp = self.stamps.next(rt);
        let Ok(record) = record_of(rt.alloc(), task.keyed, timestamp, line) else {
            self.has_lost = true;
            return false;
        };
        match self.send(rt, record) {
            Ok(()) => {
                self.flush_after(rt, task.flush_every);
                self.hear_some()
            }
            Err(SendFault::RecordTooLarge) => self.hear_some(),
            Err(_) => false,
        }
    }

    /// Sends a record, where its lane is full once there is room.
    fn send<R>(&mut self, rt: &R, body: Record) -> Result<(), SendFault>
    where
        R: Wait + Clock,
        requires { Keeps self.old }
        ensures keeps { Keeps self.new }
        ensures sent { OnOk result (HasSent self.old body self.new) }
        ensures unsent { OnErr result (SentNothing self.old self.new) }
        ensures too_large { IfErr result (λ fault. fault ≡ RecordTooLarge → (limits_in self.old).max_record < charge_of body) }
    {
        let mut body = body;
        for _ in rt.forever() {
            match self.producer.send(rt, Target::Auto, body) {
                Ok(_) => {
                    self.accepted += 1;
                    return Ok(());
                }
                Err((SendFault::LaneFull, back)) if !self.is_over() => {
                    self.hear_some();
                    thread::sleep(rt, Duration::from_micros(NAP));
                    body = back;
                }
                Err((fault, _)) => return Err(fault),
            }
        }
        unreachable!()
    }

    /// Whether nothing more is to be sent: the service has ended, or something was lost.
    fn is_over(&self) -> bool {
        self.has_lost || self.producer.is_stopped()
    }

    /// Asks for a flush, where so many records were accepted since the last.
    fn flush_after<R: Wait + Clock>(&mut self, rt: &R, every: Option<u64>)
        requires { Keeps self.old }
        ensures keeps { Keeps self.new }
        ensures nothing { SentNothing self.old self.new }
    {
        match every {
            Some(every) if every > 0 && self.accepted % every == 0 => self.flush(rt),
            _ => {}
        }
    }

    /// Asks for a flush, where the lane is full once there is room.
    fn flush<R: Wait + Clock>(&mut self, rt: &R)
        requires { Keeps self.old }
        ensures keeps { Keeps self.new }
        ensures nothing { SentNothing self.old self.new }
    {
        for _ in rt.forever() {
            match self.producer.flush() {
                Err(FlushFault::LaneFull) if !self.producer.is_stopped() => {
                    thread::sleep(rt, Duration::from_millis(FLUSH_WAIT));
                }
                _ => return,
            }
        }
        unreachable!()
    }

    /// Receives reports that have come. False where one was lost, now or before.
    fn hear_some(&mut self) -> bool
        requires { Keeps self.old }
        ensures keeps { Keeps self.new }
        ensures nothing { SentNothing self.old self.new }
    {
        for _ in 0..EARS {
            match self.producer.poll_report() {
                Some(report) => self.keep(report),
                None => break,
            }
        }
        !self.has_lost
    }

    /// Receives reports until each record that was accepted has its own, or the service has ended.
    fn hear_rest<R: Wait + Clock>(&mut self, rt: &R)
        requires { Keeps self.old }
        ensures keeps { Keeps self.new }
        ensures nothing { SentNothing self.old self.new }
    {
        for _ in rt.forever() {
            if self.producer.waiting() == 0 {
                return;
            }
            match self
                .producer
                .wait_report(rt, Duration::from_millis(PATIENCE))
            {
                Some(report) => self.keep(report),
                None if self.producer.is_stopped() => return,
                None => {}
            }
        }
        unreachable!()
    }

    /// Keeps a report that was received.
    fn keep(&mut self, report: Report)
        ensures producer { self.new.producer ≡ self.old.producer }
        ensures accepted { self.new.accepted ≡ self.old.accepted }
        ensures lost { self.new.has_lost ≡ false → self.old.has_lost ≡ false }
        ensures kept { self.new.has_lost ≡ false → self.new.heard.items ≡ self.old.heard.items ++ report ∷ [] }
    {
        if self.heard.push(report).is_err() {
            self.has_lost = true;
        }
    }
}
