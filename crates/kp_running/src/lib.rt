//! How a polled engine is run without keeping a processor busy: bells between the threads of a producer, and a future
//! that owns the engine and waits for work.
#![tactic(auto)]

mod bell;
mod bells;
mod engine;
mod fleet;
mod keeping;
mod millis;
mod over;
mod pace;
mod running;
mod turning;

pub use bell::{Bell, SenderBell};
pub use bells::Bells;
pub use fleet::Fleet;
pub use keeping::{Keeping, News};
pub use millis::{Millis, Passed};
pub use over::Over;
pub use running::Running;
pub use turning::Turning;
