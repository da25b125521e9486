//! Connections by tokio's sockets.

ghost use Rattle.std.specs.Duration.{as_nanos};
ghost use Rattle.std.specs.Prelude.{◌≡◌, ◌*◌, ℕ, IfSome};
ghost use Rattle.futures.specs.Poll.{OnPending};
ghost use Rattle.futures.specs.Task.{Covers, Keeps};
ghost use Rattle.kp_dial.specs.Dialing.{connecting_waits, dialing_waits, setup_timeout_of};
ghost use Rattle.tokio.specs.Timers.{IsDelayedBy, sleep_deadline, timeout_delay};

use crate::dial::Dial;
use crate::lookup::Lookup;
use futures::Future;
use futures::task::{Context, Poll};
use kp_connection::Plain;
use std::net::{Net, SocketAddr};
use std::time::{Clock, Duration};
use tokio::net::{ConnectFuture, TcpStream};
use tokio::runtime::Handle;
use tokio::time::Timeout;

/// How long a connection may take to be made, in milliseconds: the default of Kafka's socket.connection.setup.timeout.ms.
pub const SETUP_TIMEOUT_MS: u64 = 10_000;

/// A connection that is being made.
#[derive(Drop)]
pub enum Dialing<L> {
    /// Its host is being looked up.
    Looking(L),
    Connecting(Timeout<ConnectFuture>),
}

/// Makes connections by tokio's sockets, with TCP_NODELAY.
#[derive(Drop)]
pub struct Sockets<'r, R, L> {
    rt: &'r R,
    handle: Handle,
    lookup: L,
    /// How long a connection may take to be made, once its host was looked up.
    setup_timeout: Duration,
}

impl<'r, R: Net + Clock, L> Sockets<'r, R, L> {
    /// By the event loop of this handle. A connection may take `setup_timeout_ms` to be made, once its host was looked up.
    pub fn new(rt: &'r R, handle: Handle, lookup: L, setup_timeout_ms: u64) -> Sockets<'r, R, L>
        ensures { as_nanos (setup_timeout_of result) ≡ setup_timeout_ms * 1_000_000 }
    {
        Sockets {
            rt,
            handle,
            lookup,
            setup_timeout: Duration::from_millis(setup_timeout_ms),
        }
    }

    /// Begins to connect. None where memory is refused, or the clock can't be read.
    fn connect(&self, address: SocketAddr) -> Option<Timeout<ConnectFuture>>
        ensures { IfSome result (λ t. IsDelayedBy (setup_timeout_of self.now) (sleep_deadline (timeout_delay t))) }
    {
        let connecting = TcpStream::connect(self.rt, address, self.handle.reactor());
        let timed = self
            .handle
            .time()
            .timeout(self.rt, self.setup_timeout, connecting);
        timed.ok()
    }
}

/// The connection, or none where it can't be made in time.
fn poll_connecting(
    connecting: &mut Timeout<ConnectFuture>,
    cx: &mut Context<'_>,
) -> Poll<Option<Plain<TcpStream>>>
    ensures registered { OnPending result (Covers cx.new (connecting_waits connecting.new)) }
    ensures kept { Keeps cx.old cx.new }
{
    match connecting.poll(cx) {
        Poll::Pending => Poll::Pending,
        Poll::Ready(Ok(Ok(inner))) => {
            let _set = inner.set_nodelay(true);
            Poll::Ready(Some(Plain { inner }))
        }
        Poll::Ready(_) => Poll::Ready(None),
    }
}

impl<R: Net + Clock, K: Drop, L: Lookup<Looking = K>> Dial for Sockets<'_, R, L> {
    type Stream = Plain<TcpStream>;

    type Dialing = Dialing<K>;

    ghost waits = { dialing_waits L.waits };

    fn dial(&mut self, host: &str, port: u16) -> Option<Dialing<K>> {
        match self.lookup.look_up(host, port) {
            Some(looking) => Some(Dialing::Looking(looking)),
            None => None,
        }
    }

    fn poll_dial(
        &mut self,
        cx: &mut Context<'_>,
        dialing: &mut Dialing<K>,
    ) -> Poll<Option<Plain<TcpStream>>> {
        let looking = match dialing {
            Dialing::Connecting(connecting) => return poll_connecting(connecting, cx),
            Dialing::Looking(looking) => looking,
        };
        match self.lookup.poll_look_up(cx, looking) {
            Poll::Pending => Poll::Pending,
            Poll::Ready(None) => Poll::Ready(None),
            Poll::Ready(Some(address)) => match self.connect(address) {
                None => Poll::Ready(None),
                Some(connecting) => {
                    *dialing = Dialing::Connecting(connecting);
                    cx.yield_now()
                }
            },
        }
    }
}
