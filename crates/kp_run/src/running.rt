//! A run, from its lines to what became of them.

ghost use Rattle.std.specs.Prelude.{◌≡◌, IfOk};
ghost use Rattle.kp_dealing.specs.Dealing.{dealt};
ghost use Rattle.kp_dealing.specs.Sizing.{largest};
ghost use Rattle.kp_run.specs.Runs.{CameOf, IsAt, IsHere, IsProduced, IsProducedBy};
ghost use Rattle.kp_run.specs.Served.{ServesAll};

use crate::broker_thread::{Serving, end, serve_all};
use crate::checked::Checked;
use crate::fault::RunFault;
use crate::gathering::Produced;
use crate::producing::produce;
use crate::settings::settings_of;
use kp_broker::Broker;
use kp_client::{Cause, Settings};
use kp_core::{Core, Report};
use kp_options::{Options, Place};
use std::alloc::AllocGlobal;
use std::net::{Ipv4Addr, Net, SocketAddr, TcpListener, TcpStream};
use std::random::RandomSource;
use std::snapshot::Snapshot;
use std::sync::Wait;
use std::sync::atomic::AtomicBool;
use std::thread::{self, Threads};
use std::time::Clock;

/// What came of a run.
#[derive(Drop)]
pub struct Came {
    /// The broker, where it is one of this process.
    pub broker: Option<Broker>,
    /// The core, with the partitions' producer ids and the audit, where one is kept.
    pub core: Core,
    /// How many records the senders' lanes accepted.
    pub accepted: u64,
    /// What became of them, by sender, partition and number.
    pub reports: Vec<Report>,
    /// Why the last of the new connections that a run makes was lost, where the run was given up then.
    pub given_up: Option<Cause>,
}

/// What came of what was produced.
fn came_of(broker: Option<Broker>, produced: Produced) -> Came
    ensures broker { result.broker ≡ broker }
    ensures core { result.core ≡ produced.core }
    ensures accepted { result.accepted ≡ produced.accepted }
    ensures reports { result.reports ≡ produced.reports }
{
    let Produced {
        accepted,
        reports,
        core,
        given_up,
    } = produced;
    Came {
        broker,
        core,
        accepted,
        reports,
        given_up,
    }
}

/// Sends the lines, dealt out to the senders one by one.
pub fn run_lines<R>(rt: &R, checked: &Checked<'_>, lines: &[&[u8]]) -> Result<Came, RunFault>
where
    R: Wait + Threads + Clock + RandomSource + AllocGlobal + Sync,
    R: Net<Listener = TcpListener, Stream = TcpStream>,
    ensures { IfOk result (CameOf checked.now lines.now) }
{
    match checked.options.place {
        Place::At(address) => {
            let produced = produce_at(rt, &checked.options, address, lines)?;
            Ok(came_of(None, produced))
        }
        Place::Here(_) => run_here(rt, checked, lines),
    }
}

/// Sends them to the broker at this address.
fn produce_at<R>(
    rt: &R,
    options: &Options<'_>,
    address: SocketAddr,
    lines: &[&[u8]],
) -> Result<Produced, RunFault>
where
    R: Wait + Threads + Clock + RandomSource + AllocGlobal + Sync,
    R: Net<Listener = TcpListener, Stream = TcpStream>,
    requires { IsAt options.now.place address }
    ensures { IfOk result (λ p. IsProducedBy options.now lines.now p.accepted p.reports.items) }
{
    let settings = settings_of(rt.alloc(), options)?;
    let (keyed, flush_every) = (options.keyed, options.flush_every);
    produce(rt, settings, true, keyed, flush_every, address, lines)
}

/// Sends them to a broker that is served at a free port in a thread of this process.
fn run_here<R>(rt: &R, checked: &Checked<'_>, lines: &[&[u8]]) -> Result<Came, RunFault>
where
    R: Wait + Threads + Clock + RandomSource + AllocGlobal + Sync,
    R: Net<Listener = TcpListener, Stream = TcpStream>,
    requires { IsHere checked.now.options.place }
    ensures { IfOk result (CameOf checked.now lines.now) }
{
    let listener = TcpListener::bind(rt, SocketAddr::from((Ipv4Addr::LOCALHOST, 0)))?;
    let address = listener.local_addr()?;
    let options = &checked.options;
    let partitions = options.own_partitions();
    let broker = Broker::new(rt.alloc(), options.topic, partitions, address.port())?;
    let both = serve_and_produce(rt, checked, lines, listener, address, broker)?;
    let (broker, produced) = both;
    Ok(came_of(Some(broker), produced))
}

/// Serves the broker in a thread, and sends the lines to it from this one. Where no thread can be made, nothing is sent.
fn serve_and_produce<R>(
    rt: &R,
    checked: &Checked<'_>,
    lines: &[&[u8]],
    listener: TcpListener,
    address: SocketAddr,
    broker: Broker,
) -> Result<(Broker, Produced), RunFault>
where
    R: Wait + Threads + Clock + RandomSource + AllocGlobal + Sync,
    R: Net<Listener = TcpListener, Stream = TcpStream>,
    requires { IsHere checked.now.options.place }
    ensures served { IfOk result (λ both. ServesAll checked.now.plan broker both.0) }
    ensures produced { IfOk result (λ both. IsProducedBy checked.now.options lines.now both.1.accepted both.1.reports.items) }
{
    let options = &checked.options;
    let settings = settings_of(rt.alloc(), options)?;
    let (keyed, flush_every) = (options.keyed, options.flush_every);
    let plan = &checked.plan;
    let over = AtomicBool::new(false);
    let shared = &over;
    let (served, produced) = thread::scope(
        thread::scope_env(),
        rt,
        move |scope| -> Result<(Broker, Result<Produced, RunFault>), RunFault>
            ensures served { IfOk result (λ both. ServesAll plan.entry.now broker both.0) }
            ensures produced { IfOk result (λ both. IfOk both.1 (λ p. IsProduced address settings (dealt lines.entry.now settings.senders keyed) (largest settings.config) p.accepted p.reports.items)) }
        {
            let promise = Serving {
                plan,
                before: Snapshot::of(&broker),
            };
            let serving = scope.spawn_with(
                promise,
                move || serve_all(listener, broker, plan, shared),
            );
            let Ok(serving) = serving else {
                return Err(RunFault::OutOfMemory);
            };
            let produced = produce_and_end(
                rt,
                settings,
                keyed,
                flush_every,
                address,
                lines,
                shared,
            );
            Ok((serving.join(rt), produced))
        },
    )?;
    Ok((served, produced?))
}

/// Sends them, with timestamps that count from now, and ends the broker's thread.
fn produce_and_end<R>(
    rt: &R,
    settings: Settings,
    keyed: bool,
    flush_every: Option<u64>,
    address: SocketAddr,
    lines: &[&[u8]],
    over: &AtomicBool,
) -> Result<Produced, RunFault>
where
    R: Wait + Threads + Clock + RandomSource + AllocGlobal + Sync,
    R: Net<Listener = TcpListener, Stream = TcpStream>,
    ensures { IfOk result (λ p. IsProduced address settings (dealt lines.now settings.senders keyed) (largest settings.config) p.accepted p.reports.items) }
{
    let produced = produce(rt, settings, false, keyed, flush_every, address, lines);
    end(rt, address, over);
    produced
}
