//! What makes connections to hosts and ports: names are looked up by a thread, sockets by tokio.
#![tactic(auto)]

mod dial;
mod lookup;
mod names;
mod pair;
mod sockets;

pub use dial::Dial;
pub use lookup::{Lookup, Numeric};
pub use names::{HostNames, Named, Resolver};
pub use pair::Pair;
pub use sockets::{Dialing, SETUP_TIMEOUT_MS, Sockets};
