//! Lines sent as records, and what became of each: a line's record, the ledger of the lines that were sent, what is told of
//! them, and how long that took.
#![tactic(auto)]

mod fault;
mod form;
mod latency;
pub mod laws;
mod ledger;
mod sender;
mod telling;
mod texts;
mod told;
mod words;

pub use fault::LedgerFault;
pub use form::Form;
pub use latency::Latencies;
pub use ledger::Ledger;
pub use sender::Sender;
pub use telling::{Keep, SAID_LIMIT, Tellings, keep_of};
pub use texts::Texts;
pub use told::{Fate, Sent, Told};
