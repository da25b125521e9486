//! Calls on a core as values, for those who make lists of them.

use kp_accum::{AppendFault, Item};
use kp_rules::{CoreFault, Outgoing, Replied, Report, Ticked};
use kp_wire::Blob;

/// A call on a core. Moments are in milliseconds of the caller's clock.
#[derive(Debug, Drop)]
pub enum Asked {
    Append(Item),
    /// The next request to this node, at this moment.
    Request(u32, u64),
    /// The content of a response is heard, at this moment.
    Reply(Blob, u64),
    /// For this node, at this moment.
    Tick(u32, u64),
    /// The connection to this node was lost, at this moment.
    Disconnect(u32, u64),
    /// This partition is led by this node, at this moment.
    Lead(u32, u32, u64),
    Close,
    Flush,
    End,
    /// The oldest report of this sender.
    Fetch(u32),
}

/// What a call on a core answered, as the call itself does.
#[derive(Debug, Drop)]
pub enum Answered {
    Append(Result<(), (AppendFault, Item)>),
    Request(Result<Option<Outgoing>, CoreFault>),
    Reply(Result<Replied, CoreFault>),
    Tick(Ticked),
    Disconnect,
    Lead,
    Close,
    Flush,
    End(usize),
    Fetch(Option<Report>),
}
