//! What a service's thread does: it makes an engine and what keeps its connections, and runs them to their end.

ghost use Rattle.std.specs.Prelude.{◌≡◌, IfOk, None};
ghost use Rattle.kp_engine.specs.Opening.{MayTurn};
ghost use Rattle.kp_engine.specs.Polls.{IsDone};
ghost use Rattle.kp_running.specs.Fleet.{IsGoing};
ghost use Rattle.kp_client.specs.Brokers.{limit_for};
ghost use Rattle.kp_client.specs.Ends.{EndsAs, GaveUpLast, HasEnded};
ghost use Rattle.kp_client.specs.Left.{ending_of, new_connections_of};
ghost use Rattle.kp_client.specs.Policy.{limit_of};
ghost use Rattle.kp_client.specs.Serving.{ending_for, GivesUpFor, IsServing};

use crate::again::Again;
use crate::brokers::Brokers;
use crate::connecting::Way;
use crate::connector::Connector;
use crate::counting::Counting;
use crate::left::{Ended, Ending};
use crate::shared::Shared;
use crate::spread::seed;
use crate::tended::Tended;
use kp_cluster::Cluster;
use kp_connection::{Plain, Stream};
use kp_core::{Core, Names};
use kp_dial::{HostNames, Pair, Resolver, SETUP_TIMEOUT_MS, Sockets};
use kp_engine::{Clock as Moments, ClusterEngine};
use kp_lanes::Intake;
use kp_network::Network;
use kp_running::{Keeping, Millis, Over, Running};
use kp_settings::ServiceFault;
use std::alloc::{AllocGlobal, Global};
use std::io;
use std::net::{self, Net};
use std::random::RandomSource;
use std::sync::Wait;
use std::thread::{self, Threads};
use std::time::Clock;
use tokio::net::TcpStream;
use tokio::runtime::{Builder, Handle, Runtime};

/// An event loop.
fn event_loop<R>(rt: &R) -> io::Result<(Runtime, Handle)>
where
    R: Wait + Threads + Clock + RandomSource + AllocGlobal + Sync + Net,
{
    let runtime = Builder::new_current_thread().build(rt)?;
    let handle = runtime.handle().clone()?;
    Ok((runtime, handle))
}

/// Serves over connections to these brokers.
pub(crate) fn serve<R>(
    rt: &R,
    alloc: Global,
    brokers: Brokers,
    core: Core,
    intake: Intake,
    shared: &Shared,
) -> Result<Ended, ServiceFault>
where
    R: Wait + Threads + Clock + RandomSource + AllocGlobal + Sync,
    R: Net<Listener = net::TcpListener, Stream = net::TcpStream>,
    requires { MayTurn core intake }
    ensures ended { IfOk result (HasEnded core intake) }
    ensures gave_up { IfOk result (GaveUpLast (limit_for brokers)) }
{
    match brokers {
        Brokers::One(way, again) => serve_one(rt, alloc, way, again, core, intake, shared),
        Brokers::Cluster(cluster, names) => {
            serve_cluster(rt, alloc, cluster, names, core, intake, shared)
        }
    }
}

/// Serves over connections to the only broker.
fn serve_one<R>(
    rt: &R,
    alloc: Global,
    way: Way,
    again: Again,
    core: Core,
    intake: Intake,
    shared: &Shared,
) -> Result<Ended, ServiceFault>
where
    R: Wait + Threads + Clock + RandomSource + AllocGlobal + Sync + Net,
    requires { MayTurn core intake }
    ensures ended { IfOk result (HasEnded core intake) }
    ensures gave_up { IfOk result (GaveUpLast (limit_of again.policy)) }
{
    match event_loop(rt) {
        Ok((mut runtime, handle)) => {
            let connector = Connector::new(rt, handle, way, again, seed(rt));
            serve_over(rt, alloc, &mut runtime, connector, core, intake, shared)
        }
        Err(_) => Ok(unserved(alloc, core, intake)),
    }
}

/// Serves over connections to a cluster's nodes, whose names another thread looks up.
fn serve_cluster<R>(
    rt: &R,
    alloc: Global,
    cluster: Cluster,
    names: Names,
    core: Core,
    intake: Intake,
    shared: &Shared,
) -> Result<Ended, ServiceFault>
where
    R: Wait + Threads + Clock + RandomSource + AllocGlobal + Sync,
    R: Net<Listener = net::TcpListener, Stream = net::TcpStream>,
    requires { MayTurn core intake }
    ensures ended { IfOk result (HasEnded core intake) }
    ensures gave_up { IfOk result (GaveUpLast None) }
{
    match HostNames::new(alloc) {
        Ok((hosts, resolver)) => {
            let pair = Pair::new();
            let pair = &pair;
            let (_, ended) = thread::join(
                rt,
                move || resolve(rt, pair, resolver),
                move ||
                    requires { MayTurn core intake }
                { serve_beside(rt, alloc, pair, hosts, cluster, names, core, intake, shared) },
            );
            ended
        }
        Err(_) => Ok(unserved(alloc, core, intake)),
    }
}

/// Looks up names, where the service begins beside it, until that has ended.
fn resolve<R>(rt: &R, pair: &Pair, resolver: Resolver)
where
    R: Wait + Threads + Clock + RandomSource + AllocGlobal + Sync + Net,
{
    if pair.begin(rt) {
        // Where memory is refused it ends before the service: no name is found any more then.
        let _ = resolver.run(rt);
    }
}

/// Serves over connections to a cluster's nodes, where the thread that looks up names begins beside it.
fn serve_beside<R>(
    rt: &R,
    alloc: Global,
    pair: &Pair,
    hosts: HostNames,
    cluster: Cluster,
    names: Names,
    core: Core,
    intake: Intake,
    shared: &Shared,
) -> Result<Ended, ServiceFault>
where
    R: Wait + Threads + Clock + RandomSource + AllocGlobal + Sync + Net,
    requires { MayTurn core intake }
    ensures ended { IfOk result (HasEnded core intake) }
    ensures gave_up { IfOk result (GaveUpLast None) }
{
    if !pair.begin(rt) {
        return Ok(unserved(alloc, core, intake));
    }
    match event_loop(rt) {
        Ok((mut runtime, handle)) => {
            let setup_timeout = core.config().request_timeout_ms.min(SETUP_TIMEOUT_MS);
            let sockets = Sockets::new(rt, handle, hosts, setup_timeout);
            let network = Network::new(alloc, rt, sockets, names, cluster, shared.start);
            serve_over(rt, alloc, &mut runtime, network, core, intake, shared)
        }
        Err(_) => Ok(unserved(alloc, core, intake)),
    }
}

/// The end of a service without the memory to begin.
fn unserved(alloc: Global, core: Core, intake: Intake) -> Ended
    requires { MayTurn core intake }
    ensures ended { HasEnded core intake result }
    ensures ending { ending_of result ≡ Ending.OutOfMemory }
{
    Ended::unserved(alloc, core, intake, Ending::OutOfMemory, 0)
}

/// Serves over the connections that this keeps.
fn serve_over<R, K: Keeping<Stream = Plain<TcpStream>>>(
    rt: &R,
    alloc: Global,
    runtime: &mut Runtime,
    keeping: K,
    core: Core,
    intake: Intake,
    shared: &Shared,
) -> Result<Ended, ServiceFault>
where
    R: Wait + Threads + Clock + RandomSource + AllocGlobal + Sync + Net,
    requires { MayTurn core intake }
    ensures ended { IfOk result (HasEnded core intake) }
    ensures gave_up { IfOk result (GaveUpLast (K.limit keeping)) }
{
    let counting = Counting::new(keeping, shared);
    let clock = Millis::since(rt, shared.start);
    match ClusterEngine::new(alloc, core, intake, clock) {
        Ok(engine) => {
            let tended = Tended::new(engine, counting, shared);
            serve_on(rt, runtime, shared, tended)
        }
        Err((core, intake, _clock)) => Ok(unserved(alloc, core, intake)),
    }
}

/// Serves over the connections that there are, and with none.
fn serve_on<'a, R, K: Keeping<Stream = Plain<TcpStream>>>(
    rt: &'a R,
    runtime: &mut Runtime,
    shared: &'a Shared,
    tended: Tended<'a, Plain<TcpStream>, Millis<'a, R>, K>,
) -> Result<Ended, ServiceFault>
where
    R: Wait + Threads + Clock + RandomSource + AllocGlobal + Sync + Net,
    requires serves { IsServing tended.fleet }
    requires going { IsGoing tended.fleet }
    ensures ended { IfOk result (EndsAs tended.entry.fleet) }
    ensures gave_up { IfOk result (GaveUpLast (K.limit tended.entry.fleet.keeping)) }
{
    match Running::new(rt, runtime.handle(), &shared.bells, tended) {
        Ok(running) => {
            let (tended, over) = runtime.block_on(rt, running)?;
            let made = tended.fleet.keeping.new_connections();
            Ok(ended(tended, ending_for(over), made))
        }
        Err((_refused, tended)) => {
            let made = tended.fleet.keeping.new_connections();
            Ok(ended(tended, Ending::OutOfMemory, made))
        }
    }
}

/// Why the service ends.
fn ending_for(over: Over) -> Ending
    ensures { result ≡ ending_for over }
{
    match over {
        Over::Done => Ending::Done,
        Over::GaveUp(cause) => Ending::GaveUp(cause),
        Over::Spent => Ending::Spent,
        Over::OutOfMemory => Ending::OutOfMemory,
    }
}

/// Gives up what has no report, and takes the engine apart.
fn ended<S: Stream, C: Moments, K: Keeping<Stream = S>>(
    tended: Tended<'_, S, C, K>,
    ending: Ending,
    made: u32,
) -> Ended
    requires serves { IsServing tended.fleet }
    requires done { ending ≡ Ending.Done → IsDone tended.fleet.engine.exchange }
    requires cause { GivesUpFor ending tended.fleet }
    ensures ended { EndsAs tended.entry.fleet result }
    ensures told { (ending_of result ≡ ending) × (new_connections_of result ≡ made) }
{
    tended.count_batches();
    let mut engine = tended.into_engine();
    let _told = engine.end();
    Ended::new(engine.into_parts(), ending, made)
}
