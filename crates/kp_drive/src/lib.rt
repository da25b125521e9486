//! A producer over a cluster with its sockets on one thread: it makes the connections that `kp_embed`'s producer asks for, moves
//! their bytes, and sleeps until there is something to do.
#![tactic(auto)]

mod doing;
mod drive;
mod flow;
mod host;
pub mod laws;
mod link;
mod links;
mod pipe;
mod unwritten;

pub use drive::{Drive, SocketDrive};

// What a caller names of the crates below.
pub use kp_accum::Config;
pub use kp_batch::Record;
pub use kp_cluster::{Address, ClusterConfig};
pub use kp_core::{Names, Report};
pub use kp_dial::{
    Dial, Dialing, HostNames, Lookup, Named, Numeric, Resolver, SETUP_TIMEOUT_MS, Sockets,
};
pub use kp_embed::{Embed, EmbedConfig, Phase, SendFault, Statistics, Target, Ticket};
