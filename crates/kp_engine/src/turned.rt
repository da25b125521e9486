//! A call on the core that a turn made.

use kp_accum::{AppendFault, Item};
use kp_rules::{CoreFault, Outgoing, Replied, Report, Ticked};
use kp_wire::Blob;

/// A call on the core that a turn made, with its arguments, of which the node comes first and then the moment, and its
/// answer. Moments are in milliseconds of the engine's clock.
#[derive(Debug, Drop)]
pub enum Turned {
    /// An item was appended, or was refused for this reason.
    Append(Item, Option<AppendFault>),
    Flush,
    Close,
    Tick(u32, u64, Ticked),
    Request(u32, u64, Result<Option<Outgoing>, CoreFault>),
    /// The content of a response was heard.
    Reply(u64, Blob, Result<Replied, CoreFault>),
    Disconnect(u32, u64),
    /// A sender's oldest report was fetched.
    Told(Report),
}
