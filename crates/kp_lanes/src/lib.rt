//! What the threads of a producer share: lanes, on which records and reports travel without a lock, and the gate that
//! closes them.
#![tactic(auto)]

mod closer;
mod entry;
mod fault;
mod gate;
mod intake;
mod lane;
pub mod laws;
mod limits;
mod opening;
mod order;
mod sender;
mod settling;
mod target;

pub use closer::Closer;
pub use fault::{FlushFault, OpenFault, SendFault, SettleFault};
pub use intake::Intake;
pub use opening::open_lanes;
pub use sender::{Finished, Sender};
pub use settling::Settled;
pub use target::{Target, Ticket};
