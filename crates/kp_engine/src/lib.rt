//! The polled engine: the core, the lanes and a connection, or one to each of several nodes, turned by a poll.
#![tactic(auto)]

mod clock;
mod cluster;
mod engine;
mod exchange;
pub mod laws;
mod lines;
mod moves;
mod node_line;
mod notes;
mod parts;
mod seen;
mod stop;
mod strays;
mod turn;
mod turned;
mod window;

pub use clock::Clock;
pub use cluster::ClusterEngine;
pub use engine::Engine;
pub use moves::Moves;
pub use parts::{Held, Parts};
pub use stop::{Cause, Stop};
pub use turned::Turned;
