//! What a service calls to publish records: producers for its threads, over connections to one broker or to a cluster's, which
//! are made anew where they are lost.
#![tactic(auto)]

mod again;
mod brokers;
mod closer;
mod connecting;
mod connector;
mod counting;
mod counts;
mod greeting;
mod left;
mod opening;
mod producer;
mod service;
mod serving;
mod shared;
mod spread;
mod statistics;
mod tended;

pub use closer::Closer;
pub use left::{Ended, Ending, Left};
pub use opening::{Opened, open, open_cluster, open_single};
pub use producer::Producer;
pub use service::Service;
pub use statistics::{Monitor, Statistics};

// What a caller names of the crates below.
pub use kp_accum::{Config, ConfigFault, Item};
pub use kp_batch::{Header, Record, Timestamp};
pub use kp_cluster::{Address, SLOT_LIMIT};
pub use kp_core::{Core, Names, Outcome, Reason, Report};
pub use kp_engine::{Cause, Held};
pub use kp_hello::HandshakeFault;
pub use kp_lanes::{
    Finished, FlushFault, OpenFault as LanesFault, SendFault, SettleFault, Target, Ticket,
};
pub use kp_settings::{OpenFault, Policy, ServiceFault, Settings};
pub use kp_wire::{Blob, Seq, Text};
