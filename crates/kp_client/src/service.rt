//! The service: what sends for all senders of a producer, on a thread of its own.

ghost use Rattle.std.specs.Prelude.{◌≡◌, IfErr, IfOk};
ghost use Rattle.kp_lanes.specs.Intake.{lanes_of};
ghost use Rattle.kp_client.specs.Fitting.{Fits};
ghost use Rattle.kp_client.specs.Left.{parts_in};
ghost use Rattle.kp_client.specs.Ends.{GaveUpLast, HasEnded};

use crate::brokers::Brokers;
use crate::left::Ended;
use crate::serving::serve;
use crate::shared::Shared;
use kp_core::Core;
use kp_hello::Hello;
use kp_lanes::Intake;
use kp_settings::{OpenFault, ServiceFault, Settings};
use std::alloc::{AllocGlobal, Global};
use std::net::{Net, TcpListener, TcpStream};
use std::random::RandomSource;
use std::sync::{Arc, Wait};
use std::thread::Threads;
use std::time::Clock;

/// What sends for all senders of a producer. It is run on a thread of its own, which makes its own connections.
#[derive(Drop)]
pub struct Service {
    alloc: Global,
    brokers: Brokers,
    hello: Hello,
    audits: bool,
    core: Core,
    intake: Intake,
    shared: Arc<Shared, Global>,
    ghost fits: { Fits audits hello core intake },
}

impl Service {
    ghost use Rattle.std.specs.Prelude.{◌≤◌, [], Ok, All, length};
    ghost use Rattle.kp_lanes.specs.Intake.{intake_limits, passed_lists, told_lists};
    ghost use Rattle.kp_settings.specs.Faults.{IsLater};
    ghost use Rattle.kp_client.specs.Brokers.{limit_for};
    ghost use Rattle.kp_client.specs.Opening.{first_core};
    ghost use Rattle.kp_client.specs.Service.{brokers_of, core_of, hello_of, intake_of, partitions_of};
    ghost use Rattle.kp_settings.specs.Settings.{checked_settings, limits_of};

    pub(crate) fn new(
        alloc: Global,
        brokers: Brokers,
        settings: Settings,
        hello: Hello,
        intake: Intake,
        shared: Arc<Shared, Global>,
    ) -> Result<Service, OpenFault>
        requires settings { checked_settings settings ≡ Ok tt }
        requires some { (1 ≤ settings.senders) × (settings.senders ≤ 64) }
        requires lanes { length (lanes_of intake) ≡ settings.senders }
        requires limits { intake_limits intake ≡ limits_of hello settings }
        requires fresh { All (λ l. l ≡ []) (passed_lists intake) × All (λ l. l ≡ []) (told_lists intake) }
        ensures core { IfOk result (λ service. core_of service ≡ first_core settings hello) }
        ensures intake { IfOk result (λ service. intake_of service ≡ intake) }
        ensures made { IfOk result (λ service. (hello_of service ≡ hello) × (brokers_of service ≡ brokers)) }
        ensures later { IfErr result IsLater }
    {
        let Settings {
            names,
            senders,
            config,
            audits,
            ..
        } = settings;
        let core = Core::new(
            alloc,
            config,
            names,
            hello.partitions,
            senders,
            hello.producer_id,
            hello.next_correlation,
            audits,
        )?;
        Ok(Service {
            alloc,
            brokers,
            hello,
            audits,
            core,
            intake,
            shared,
        })
    }

    /// How many partitions the topic has.
    pub fn partitions(&self) -> u32
        ensures { result ≡ partitions_of self.now }
    {
        self.hello.partitions
    }

    /// Sends what the senders' lanes accept, and hands reports to them, until the producer was closed and all is reported, or no
    /// connection can be had any more, or no request can go out, or memory is refused. Then what has no report is given up, and all
    /// that is left comes back. Senders that wait are told that it has ended.
    ///
    /// Names of a cluster's nodes are looked up by one thread more, which ends with it: a lookup that is under way is waited for.
    pub fn run<R>(self, rt: &R) -> Result<Ended, ServiceFault>
    where
        R: Wait + Threads + Clock + RandomSource + AllocGlobal + Sync,
        R: Net<Listener = TcpListener, Stream = TcpStream>,
        ensures lanes { IfOk result (λ ended. lanes_of (parts_in ended).intake ≡ lanes_of (intake_of self)) }

        // Its engine, if there was one, was made of the service's core and lanes, and polled to its end.
        ensures ended { IfOk result (HasEnded (core_of self) (intake_of self)) }
        ensures gave_up { IfOk result (GaveUpLast (limit_for (brokers_of self))) }
    {
        let Service {
            alloc,
            brokers,
            core,
            intake,
            shared,
            ..
        } = self;
        let ended = serve(rt, alloc, brokers, core, intake, &shared);
        shared.stop();
        ended
    }
}
