//! Opening a producer.

ghost use Rattle.std.specs.Prelude.{◌≡◌, ◌≤◌, ◌++◌, ◌∷◌, [], Ok, Err, OnOk, IfOk, IfErr, IfSome, All, length, map};
ghost use Rattle.std.specs.Arc.{arc_value};
ghost use Rattle.kp_settings.specs.Faults.{IsLater, OfSettings};
ghost use Rattle.kp_client.specs.Producer.{lane_of};
ghost use Rattle.kp_client.specs.Service.{HasBell};
ghost use Rattle.kp_settings.specs.Settings.{checked_for_cluster, checked_settings};
ghost use Rattle.kp_cluster.specs.declared.learning.TheConstants.{SLOT_LIMIT};
ghost use Rattle.kp_client.specs.Brokers.{IsAt, IsOf};
ghost use Rattle.kp_engine.specs.Opening.{MayTurn};
ghost use Rattle.kp_client.specs.Opening.{IsGreeting, IsOpen, IsOpenSingle};

use crate::again::Again;
use crate::brokers::Brokers;
use crate::closer::Closer;
use crate::connecting::Way;
use crate::greeting::{Asked, greet_until};
use crate::producer::Producer;
use crate::service::Service;
use crate::shared::Shared;
use crate::spread::seed;
use kp_cluster::{Address, Cluster, ClusterConfig};
use kp_dial::SETUP_TIMEOUT_MS;
use kp_hello::Hello;
use kp_lanes::{Sender, open_lanes};
use kp_settings::{OpenFault, Settings};
use std::alloc::{AllocError, AllocFailed, AllocGlobal, Global};
use std::net::{Net, SocketAddr};
use std::random::RandomSource;
use std::sync::{Arc, Wait};
use std::thread::Threads;
use std::time::{Clock, Duration, Instant};

/// A producer: the handles of its senders, each for a thread of its own, what closes it, and the service that sends for
/// all of them, on a thread of its own.
#[derive(Drop)]
pub struct Opened {
    pub producers: Vec<Producer>,
    pub closer: Closer,
    pub service: Service,
}

/// Opens a producer over the broker at this address: connects, asks for the topic's partitions and for a producer id, and
/// opens the lanes. While the broker can't be reached it tries again, for `open_timeout_ms`; so it does where the topic is not
/// there yet or has no leader, and where what gives producer ids is not ready. Nothing is sent before the service runs.
pub fn open<R>(rt: &R, address: SocketAddr, settings: Settings) -> Result<Opened, OpenFault>
where
    R: Wait + Threads + Clock + RandomSource + AllocGlobal + Sync + Net,
    ensures opened { IfOk result (IsOpen (IsAt address settings) settings) }

    // A fault of the settings is looked for first, and told just where there is one.
    ensures first { IfErr (checked_settings settings) (λ fault. result ≡ Err fault) }
    ensures only { IfErr result (λ fault. OfSettings fault → checked_settings settings ≡ Err fault) }
{
    settings.check()?;
    let alloc = rt.alloc();
    let start = Instant::now(rt)?;
    let patience = settings.patience();
    let hello = greet_until(rt, Asked::One(address), patience, &settings, start)?;
    let again = Again::new(settings.policy, settings.config.retry_backoff_ms);
    let brokers = Brokers::One(Way { address, patience }, again);
    open_known(alloc, brokers, settings, hello, start)
}

/// Opens a producer over the cluster of which a broker may be at each of these addresses (`bootstrap.servers`), as `open` does
/// over one: the first that can be reached is asked. The service finds who leads each partition, and connects to those that there
/// is something to send to, under the host and the port by which the cluster names them; their names are looked up each time.
pub fn open_cluster<R>(
    rt: &R,
    bootstrap: Vec<Address>,
    settings: Settings,
) -> Result<Opened, OpenFault>
where
    R: Wait + Threads + Clock + RandomSource + AllocGlobal + Sync + Net,
    requires some { 1 ≤ length bootstrap.items }
    requires few { length bootstrap.items ≤ SLOT_LIMIT }
    ensures opened { IfOk result (IsOpen (IsOf bootstrap.items settings) settings) }

    // A fault of the settings is looked for first, and told just where there is one.
    ensures first { IfErr (checked_for_cluster settings) (λ fault. result ≡ Err fault) }
    ensures only { IfErr result (λ fault. OfSettings fault → checked_for_cluster settings ≡ Err fault) }
{
    settings.check_for_cluster()?;
    open_over_cluster(rt, bootstrap, settings)
}

/// The same, where the settings have no fault.
fn open_over_cluster<R>(
    rt: &R,
    bootstrap: Vec<Address>,
    settings: Settings,
) -> Result<Opened, OpenFault>
where
    R: Wait + Threads + Clock + RandomSource + AllocGlobal + Sync + Net,
    requires some { 1 ≤ length bootstrap.items }
    requires few { length bootstrap.items ≤ SLOT_LIMIT }
    requires settings { checked_settings settings ≡ Ok tt }
    ensures opened { IfOk result (IsOpen (IsOf bootstrap.items settings) settings) }
    ensures later { IfErr result IsLater }
{
    let alloc = rt.alloc();
    let start = Instant::now(rt)?;
    let patience = settings
        .patience()
        .min(Duration::from_millis(SETUP_TIMEOUT_MS));
    let hello = greet_until(rt, Asked::Each(&bootstrap), patience, &settings, start)?;
    let brokers = cluster_of(rt, alloc, bootstrap, &settings)?;
    open_known(alloc, brokers, settings, hello, start)
}

/// The brokers of the cluster of which these addresses are known.
fn cluster_of<R: RandomSource>(
    rt: &R,
    alloc: Global,
    bootstrap: Vec<Address>,
    settings: &Settings,
) -> Result<Brokers, OpenFault>
    requires some { 1 ≤ length bootstrap.items }
    requires few { length bootstrap.items ≤ SLOT_LIMIT }
    ensures of { IfOk result (IsOf bootstrap.items settings.now) }
    ensures later { IfErr result IsLater }
{
    let config = ClusterConfig {
        request_timeout_ms: settings.config.request_timeout_ms,
        ..ClusterConfig::DEFAULT
    };
    let names = settings.copy_names(alloc)?;
    let cluster = Cluster::new(alloc, config, bootstrap, seed(rt))?;
    Ok(Brokers::Cluster(cluster, names))
}

/// Opens a producer with one sender, whatever the settings say of senders: its handle, what closes it, and its service.
pub fn open_single<R>(
    rt: &R,
    address: SocketAddr,
    settings: Settings,
) -> Result<(Producer, Closer, Service), OpenFault>
where
    R: Wait + Threads + Clock + RandomSource + AllocGlobal + Sync + Net,
    ensures opened { IfOk result (λ r. IsOpenSingle (IsAt address settings) settings r.0 r.1 r.2) }
    ensures first { IfErr (checked_settings settings) (λ fault. result ≡ Err fault) }
    ensures only { IfErr result (λ fault. OfSettings fault → checked_settings settings ≡ Err fault) }
{
    let settings = Settings {
        senders: 1,
        ..settings
    };
    let Opened {
        mut producers,
        closer,
        service,
    } = open(rt, address, settings)?;
    match producers.pop() {
        Some(producer) => Ok((producer, closer, service)),
        None => unreachable!(),
    }
}

/// Opens it where the broker has said hello.
fn open_known(
    alloc: Global,
    brokers: Brokers,
    settings: Settings,
    hello: Hello,
    start: Instant,
) -> Result<Opened, OpenFault>
    requires settings { checked_settings settings ≡ Ok tt }
    requires greeting { IsGreeting settings.names hello }
    requires asked { IfSome settings.partitions (λ n. hello.partitions ≡ n) }
    ensures opened { IfOk result (IsOpen (λ its. its ≡ brokers) settings) }
    ensures later { IfErr result IsLater }
{
    let shared = Shared::new(alloc, settings.senders as usize, start)?;
    shared.counts.connections.add(1);
    let (senders, intake, lanes) = open_lanes(
        alloc,
        settings.senders,
        settings.capacity,
        hello.partitions,
        settings.max_record(),
    )?;
    let producers = handles(alloc, senders, &shared)?;
    let closer = Closer::new(lanes, Arc::try_clone(&shared)?);
    let service = Service::new(alloc, brokers, settings, hello, intake, shared)?;
    Ok(Opened {
        producers,
        closer,
        service,
    })
}

/// The senders' handles.
fn handles(
    alloc: Global,
    senders: Vec<Sender>,
    shared: &Arc<Shared, Global>,
) -> Result<Vec<Producer>, AllocError>
    requires { All (HasBell (arc_value shared.now)) senders.items }
    ensures { IfOk result (λ producers. map lane_of producers.items ≡ senders.items) }
{
    let mut producers = Vec::new(alloc);
    for sender in senders {
        let producer = Producer::new(sender, Arc::try_clone(shared)?);
        push(&mut producers, producer)?;
    }
    Ok(producers)
}

/// Adds to a list.
fn push<T: Drop>(all: &mut Vec<T>, x: T) -> Result<(), AllocError>
    ensures { OnOk result (all.new.items ≡ all.old.items ++ x ∷ []) }
{
    match all.push(x) {
        Ok(()) => Ok(()),
        Err(AllocFailed { value: _ }) => Err(AllocError),
    }
}
