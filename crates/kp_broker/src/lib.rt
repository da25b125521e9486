//! A loopback broker of one topic: what each node of its cluster answers to a request of a producer (protocol guide;
//! KIP-98).
#![tactic(auto)]

mod broker;
mod fault;
pub mod laws;
mod plan;
mod serving;

pub use broker::Broker;
pub use fault::BrokerFault;
pub use plan::{Action, FaultPlan, PlanFault};
pub use serving::{Connection, Plain, Reply, Served};
