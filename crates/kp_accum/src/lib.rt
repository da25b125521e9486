//! What a producer gathers before it is sent: items, and how they are batched, kept waiting and given up.
#![tactic(auto)]

mod accum;
mod budget;
mod config;
mod fault;
mod flags;
mod item;
mod pending;
mod queue;

pub use accum::Accum;
pub use budget::Budget;
pub use config::Config;
pub use fault::{AppendFault, ConfigFault};
pub use flags::Flags;
pub use item::Item;
pub use pending::Pending;
pub use queue::Queue;
