//! The hello of a broker, which is asked for until there is one.

ghost use Rattle.std.specs.Prelude.{◌≡◌, ◌≢◌, IfErr, IfOk, IfSome};
ghost use Rattle.kp_settings.specs.Faults.{IsLater};
ghost use Rattle.kp_client.specs.Opening.{IsGreeting};
ghost use Rattle.kp_settings.specs.declared.fault.OpenFault.TheVariants.{Partitions};

use crate::connecting::{Way, greet};
use kp_cluster::Address;
use kp_hello::{HandshakeFault, Hello};
use kp_settings::{OpenFault, Settings};
use std::alloc::AllocGlobal;
use std::io;
use std::net::{Ipv4Addr, Net, SocketAddr};
use std::random::RandomSource;
use std::sync::Wait;
use std::thread::{self, Threads};
use std::time::{Clock, Duration, Instant};

/// The wait before the first further try to open, in milliseconds.
const SHORTEST: u64 = 50;

/// The longest such wait, in milliseconds.
const LONGEST: u64 = 1000;

/// The most addresses of a host that are looked at.
const MOST: usize = 8;

/// Who is asked for a hello.
#[derive(Clone, Copy)]
pub(crate) enum Asked<'a> {
    /// The broker at this address.
    One(SocketAddr),
    /// The brokers of these hosts, one after the other. Their addresses are looked up each time.
    Each(&'a [Address]),
}

/// The hello of the broker that is asked, or of the first that has one, with as many partitions as the settings expect. While it may
/// get better they are asked again, until `open_timeout_ms` have passed since then.
pub(crate) fn greet_until<R>(
    rt: &R,
    asked: Asked<'_>,
    patience: Duration,
    settings: &Settings,
    begun: Instant,
) -> Result<Hello, OpenFault>
where
    R: Wait + Threads + Clock + RandomSource + AllocGlobal + Sync + Net,
    ensures greeting { IfOk result (IsGreeting settings.now.names) }
    ensures asked { IfOk result (λ hello. IfSome settings.now.partitions (λ n. hello.partitions ≡ n)) }
    ensures later { IfErr result IsLater }
{
    let hello = greet_again(rt, asked, patience, settings, begun)?;
    expect_partitions(hello, settings.partitions)?;
    Ok(hello)
}

/// The same, of any number of partitions.
fn greet_again<R>(
    rt: &R,
    asked: Asked<'_>,
    patience: Duration,
    settings: &Settings,
    begun: Instant,
) -> Result<Hello, OpenFault>
where
    R: Wait + Threads + Clock + RandomSource + AllocGlobal + Sync + Net,
    ensures greeting { IfOk result (IsGreeting settings.now.names) }
    ensures later { IfErr result IsLater }
{
    let within = Duration::from_millis(settings.open_timeout_ms);
    let mut wait = SHORTEST;
    for _ in rt.forever() {
        let greeted = greet_once(rt, asked, patience, settings);
        let left = left_of(rt, begun, within);
        if !may_get_better(&greeted) || left.is_zero() {
            return greeted;
        }
        thread::sleep(rt, left.min(Duration::from_millis(wait)));
        wait = wait.saturating_mul(2).min(LONGEST);
    }
    unreachable!()
}

/// The hello, where each is asked once.
fn greet_once<R>(
    rt: &R,
    asked: Asked<'_>,
    patience: Duration,
    settings: &Settings,
) -> Result<Hello, OpenFault>
where
    R: Wait + Threads + Clock + RandomSource + AllocGlobal + Sync + Net,
    ensures greeting { IfOk result (IsGreeting settings.now.names) }
    ensures later { IfErr result IsLater }
{
    match asked {
        Asked::One(address) => {
            let names = settings.copy_names(rt.alloc())?;
            greet(rt, Way { address, patience }, names)
        }
        Asked::Each(hosts) => {
            let addresses = addresses_of(rt, hosts)?;
            greet_any(rt, &addresses, patience, settings)
        }
    }
}

/// The addresses of these hosts. One of which none is found is passed over.
fn addresses_of<R: Net + AllocGlobal>(
    rt: &R,
    hosts: &[Address],
) -> Result<Vec<SocketAddr>, OpenFault>
    ensures later { IfErr result IsLater }
{
    let mut all = Vec::new(rt.alloc());
    for host in hosts {
        put_addresses(rt, host, &mut all)?;
    }
    Ok(all)
}

/// Puts those of this host behind the others.
fn put_addresses<R: Net>(
    rt: &R,
    address: &Address,
    all: &mut Vec<SocketAddr>,
) -> Result<(), OpenFault>
    ensures later { IfErr result IsLater }
{
    let mut found = [SocketAddr::from((Ipv4Addr::UNSPECIFIED, address.port)); MOST];
    match rt.lookup_host(address.host.as_str(), address.port, &mut found) {
        Ok(count) => {
            let (found, _) = found.split_at(count.min(MOST));
            all.extend_from_slice(found)?;
            Ok(())
        }
        Err(error) if error.kind() == io::ErrorKind::OutOfMemory => Err(OpenFault::OutOfMemory),
        Err(_) => Ok(()),
    }
}

/// The hello of the first of these that has one; or what the last one said that could be reached.
fn greet_any<R>(
    rt: &R,
    addresses: &[SocketAddr],
    patience: Duration,
    settings: &Settings,
) -> Result<Hello, OpenFault>
where
    R: Wait + Threads + Clock + RandomSource + AllocGlobal + Sync + Net,
    ensures greeting { IfOk result (IsGreeting settings.now.names) }
    ensures later { IfErr result IsLater }
{
    let mut why = OpenFault::Network;
    for address in addresses {
        let way = Way {
            address: *address,
            patience,
        };
        let names = settings.copy_names(rt.alloc())?;
        match greet(rt, way, names) {
            Ok(hello) => return Ok(hello),
            Err(OpenFault::Network) => {}
            Err(fault) => why = fault,
        }
    }
    Err(why)
}

/// Whether a later try may give a hello: no broker could be reached; the topic was not there yet or had no leader (3, 5);
/// or what gives producer ids was not ready (7, 14, 15, 16, 51).
fn may_get_better(greeted: &Result<Hello, OpenFault>) -> bool {
    match greeted {
        Err(OpenFault::Network) => true,
        Err(OpenFault::Handshake(HandshakeFault::Refused(code))) => {
            matches!(*code, 3 | 5 | 7 | 14 | 15 | 16 | 51)
        }
        _ => false,
    }
}

/// What is left of so much time from then on: nothing where the clock can't be read.
fn left_of<R: Clock>(rt: &R, begun: Instant, within: Duration) -> Duration {
    match begun.elapsed(rt) {
        Ok(passed) => within.saturating_sub(passed),
        Err(_) => Duration::ZERO,
    }
}

/// A hello that names another number of partitions than was asked for is none.
fn expect_partitions(hello: Hello, partitions: Option<u32>) -> Result<(), OpenFault>
    ensures asked { IfOk result (λ _. IfSome partitions (λ n. hello.partitions ≡ n)) }
    ensures other { IfErr result (λ fault. IfSome partitions (λ n. (fault ≡ Partitions n hello.partitions) × (hello.partitions ≢ n))) }
    ensures later { IfErr result IsLater }
{
    match partitions {
        Some(expected) if expected != hello.partitions => Err(OpenFault::Partitions {
            expected,
            found: hello.partitions,
        }),
        _ => Ok(()),
    }
}
