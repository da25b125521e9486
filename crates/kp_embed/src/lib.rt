//! An idempotent producer over a cluster as one value that makes no call on the system: its owner has the sockets and the
//! clock (KIP-98, and the producer configurations of Kafka's documentation).
#![tactic(auto)]

mod bytes;
mod calling;
mod embed;
mod fault;
mod leading;
mod line;
mod lines;
mod target;

pub use embed::{Embed, EmbedConfig, Phase, Statistics};
pub use fault::{Fault, SendFault};
pub use target::{Target, Ticket};
