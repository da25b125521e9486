//! What a producer is opened with, and why it is not opened, or its service ends without what it held.
#![tactic(auto)]

mod fault;
mod policy;
mod settings;

pub use fault::{OpenFault, ServiceFault};
pub use policy::Policy;
pub use settings::Settings;
