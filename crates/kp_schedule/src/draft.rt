//! A schedule whose lines are read one by one.

ghost use Rattle.std.specs.Prelude.{◌≡◌};
ghost use Rattle.kp_schedule.specs.Config.{config_of};
ghost use Rattle.kp_schedule.specs.Reading.{set_or, value_of};

use crate::fault::ReplayFault;
use crate::given::Given;
use crate::line::read_line;
use crate::saying::Saying;
use crate::schedule::{Schedule, Scheduled};
use crate::setting::Setting;
use kp_accum::Config;
use kp_wire::Seq;
use kp_world::Event;
use std::alloc::Global;
use std::marker::Model;

/// What the lines that were read come to.
#[derive(Debug, Drop)]
pub struct Draft {
    alloc: Global,
    given: Vec<Given>,
    events: Vec<Scheduled>,
}

impl Model for Draft {
    ghost use Rattle.kp_schedule.specs.Reading.{Drafted};
    ghost use Rattle.kp_schedule.specs.Draft.{seen};

    ghost Value = { Drafted };

    ghost view = { λ d. seen d.given.items d.events.items };
}

impl Draft {
    ghost use Rattle.std.specs.Prelude.{[], map};
    ghost use Rattle.kp_schedule.specs.Draft.{IsSetWell, ReadsNext, Takes, at};
    ghost use Rattle.kp_schedule.specs.Grammar.{MayBeSaid};
    ghost use Rattle.kp_schedule.specs.Reading.{drafted};

    /// No line was read.
    pub(crate) fn new(alloc: Global) -> Draft
        ensures { result ≡ drafted [] }
    {
        Draft {
            alloc,
            given: Vec::new(alloc),
            events: Vec::new(alloc),
        }
    }

    fn set(&mut self, line: u64, name: Setting, value: u64) -> Result<(), ReplayFault>
        ensures { Takes self.old line (Saying.Sets name value) result self.new }
    {
        if !self.events.is_empty() {
            return Err(ReplayFault::BadLine(line));
        }
        if value_of(self.given.as_slice(), name).is_some() {
            return Err(ReplayFault::BadLine(line));
        }
        self.given.push(Given { name, value })?;
        Ok(())
    }

    fn add(&mut self, line: u64, event: Event) -> Result<(), ReplayFault>
        requires { MayBeSaid event }
        ensures { Takes self.old line (Saying.Happens event) result self.new }
    {
        self.events.push(Scheduled { line, event })?;
        Ok(())
    }

    /// Reads the line of this number, from 1.
    pub fn read(&mut self, number: u64, line: &[u8]) -> Result<(), ReplayFault>
        ensures { ReadsNext self.old number line.now result self.new }
    {
        let Some(saying) = read_line(self.alloc, line)? else {
            return Err(ReplayFault::BadLine(number));
        };
        match saying {
            Saying::Nothing => Ok(()),
            Saying::Sets(name, value) => self.set(number, name, value),
            Saying::Happens(event) => self.add(number, event),
        }
    }

    /// The schedule, where these are all lines.
    pub fn finish(self) -> Schedule
        requires partitions { IsSetWell Setting.Partitions self.settings }
        requires senders { IsSetWell Setting.Senders self.settings }
        ensures config { result.config ≡ config_of self.settings }
        ensures partitions { result.partitions ≡ set_or Setting.Partitions 1 self.settings }
        ensures senders { result.senders ≡ set_or Setting.Senders 1 self.settings }
        ensures events { map at result.events ≡ self.events }
    {
        let Draft {
            alloc: _,
            given,
            events,
        } = self;
        Schedule {
            config: config_of(given.as_slice()),
            partitions: set_or(given.as_slice(), Setting::Partitions, 1) as u32,
            senders: set_or(given.as_slice(), Setting::Senders, 1) as u32,
            events: Seq::new(events),
        }
    }
}

/// What this was set to, if it was.
fn value_of(given: &[Given], name: Setting) -> Option<u64>
    ensures { result ≡ value_of name given.now }
{
    for setting in given {
        if setting.name == name {
            return Some(setting.value);
        }
    }
    None
}

fn set_or(given: &[Given], name: Setting, default: u64) -> u64
    ensures { result ≡ set_or name default given.now }
{
    value_of(given, name).unwrap_or(default)
}

/// The configuration with what was set.
fn config_of(given: &[Given]) -> Config
    ensures { result ≡ config_of given.now }
{
    let default = Config::default();
    Config {
        batch_size: set_or(given, Setting::BatchSize, default.batch_size),
        linger_ms: set_or(given, Setting::Linger, default.linger_ms),
        buffer_memory: set_or(given, Setting::BufferMemory, default.buffer_memory),
        max_request_size: set_or(given, Setting::MaxRequestSize, default.max_request_size),
        request_timeout_ms: set_or(given, Setting::RequestTimeout, default.request_timeout_ms),
        delivery_timeout_ms: set_or(given, Setting::DeliveryTimeout, default.delivery_timeout_ms),
        retry_backoff_ms: set_or(given, Setting::RetryBackoff, default.retry_backoff_ms),
        max_in_flight_requests_per_connection: set_or(
            given,
            Setting::MaxInFlight,
            default.max_in_flight_requests_per_connection,
        ),
        sequence_limit: set_or(given, Setting::SequenceLimit, default.sequence_limit),
    }
}
