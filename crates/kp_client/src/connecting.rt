//! Connections to a broker.

ghost use Rattle.std.specs.Prelude.{IfErr, IfOk};
ghost use Rattle.kp_settings.specs.Faults.{IsLater};
ghost use Rattle.kp_client.specs.Opening.{IsGreeting};

use kp_connection::{Handshake, Plain};
use kp_core::Names;
use kp_hello::Hello;
use kp_settings::OpenFault;
use std::alloc::AllocGlobal;
use std::io;
use std::net::{Net, SocketAddr};
use std::random::RandomSource;
use std::sync::Wait;
use std::thread::Threads;
use std::time::{Clock, Duration};
use tokio::net::TcpStream;
use tokio::runtime::{Builder, Runtime};

/// The way to a broker.
#[derive(Clone, Copy, Debug)]
pub(crate) struct Way {
    pub(crate) address: SocketAddr,
    /// How long a connection may take to be made, and a handshake.
    pub(crate) patience: Duration,
}

/// A connection to the broker.
fn connect<R>(rt: &R, runtime: &mut Runtime, way: Way) -> io::Result<TcpStream>
where
    R: Wait + Threads + Clock + RandomSource + AllocGlobal + Sync + Net,
{
    let connecting = TcpStream::connect(rt, way.address, runtime.handle().reactor());
    let timed = runtime
        .handle()
        .time()
        .timeout(rt, way.patience, connecting)?;
    match runtime.block_on(rt, timed)? {
        Ok(connected) => {
            let socket = connected?;
            socket.set_nodelay(true)?;
            Ok(socket)
        }
        Err(_elapsed) => Err(io::ErrorKind::TimedOut.into()),
    }
}

/// Asks the broker for the topic's partitions and for a producer id, over a connection that ends with this.
pub(crate) fn greet<R>(rt: &R, way: Way, names: Names) -> Result<Hello, OpenFault>
where
    R: Wait + Threads + Clock + RandomSource + AllocGlobal + Sync + Net,
    ensures greeting { IfOk result (IsGreeting names) }
    ensures later { IfErr result IsLater }
{
    let mut runtime = Builder::new_current_thread().build(rt)?;
    greet_on(rt, &mut runtime, way, names)
}

/// The same, on this event loop.
fn greet_on<R>(rt: &R, runtime: &mut Runtime, way: Way, names: Names) -> Result<Hello, OpenFault>
where
    R: Wait + Threads + Clock + RandomSource + AllocGlobal + Sync + Net,
    ensures greeting { IfOk result (IsGreeting names) }
    ensures later { IfErr result IsLater }
{
    let inner = connect(rt, runtime, way)?;
    let greeting = Handshake::new(rt.alloc(), Plain { inner }, names);
    let timed = runtime.handle().time().timeout(rt, way.patience, greeting)?;
    match runtime.block_on(rt, timed)? {
        Ok(Ok((hello, _stream))) => Ok(hello),
        Ok(Err(fault)) => Err(fault.into()),
        Err(_elapsed) => Err(OpenFault::Network),
    }
}
