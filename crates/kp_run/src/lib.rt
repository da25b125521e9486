//! Lines sent as records by many threads, through one producer, to a broker: one of the process's own, or one at an
//! address.
#![tactic(auto)]

mod broker_thread;
mod checked;
mod checks;
mod fault;
mod gathering;
mod plan;
mod producing;
mod running;
mod sender_thread;
mod settings;
mod stamps;

pub use checked::Checked;
pub use fault::RunFault;
pub use kp_dealing::is_too_large;
pub use running::{Came, run_lines};

/// Why the last connection of a run was lost.
pub use kp_client::Cause;
