//! What looks up the addresses of hosts.

ghost use Rattle.std.specs.Prelude.{ℕ};
ghost use Rattle.futures.specs.Poll.{OnPending};
ghost use Rattle.futures.specs.Task.{Covers, Keeps};

use futures::task::{Context, Poll};
use std::net::{IpAddr, SocketAddr};

/// Looks up the addresses of hosts, any number beside one another. Each connection asks anew.
pub trait Lookup: Drop {
    /// A host that is being looked up.
    type Looking;

    /// Holds of each source that a pending poll of it waits for.
    ghost waits: { Self.Looking → ℕ → Type 0 };

    /// Begins to look up a host, whose address is to have this port. None where that can't be begun.
    fn look_up(&mut self, host: &str, port: u16) -> Option<Self::Looking>;

    /// The address, or none where there is none.
    fn poll_look_up(
        &mut self,
        cx: &mut Context<'_>,
        looking: &mut Self::Looking,
    ) -> Poll<Option<SocketAddr>>
        ensures registered { OnPending result (Covers cx.new (waits looking.new)) }
        ensures kept { Keeps cx.old cx.new };
}

/// Knows hosts that are IP addresses, as `127.0.0.1` and `::1`, and no names.
#[derive(Clone, Copy, Debug)]
pub struct Numeric;

impl Lookup for Numeric {
    type Looking = SocketAddr;

    ghost waits = { λ _ _. ⊥ };

    fn look_up(&mut self, host: &str, port: u16) -> Option<SocketAddr> {
        match host.parse::<IpAddr>() {
            Ok(ip) => Some(SocketAddr::new(ip, port)),
            Err(_) => None,
        }
    }

    fn poll_look_up(
        &mut self,
        _cx: &mut Context<'_>,
        looking: &mut SocketAddr,
    ) -> Poll<Option<SocketAddr>> {
        Poll::Ready(Some(*looking))
    }
}
