//! The events of a schedule.

use kp_wire::Blob;

/// What the broker does with a packet that comes.
#[derive(Clone, Copy, Debug, PartialEq, Eq)]
pub enum Treatment {
    /// It goes by its rule.
    Judged,
    /// It looks at nothing, and answers this error code.
    Refused(i16),
    /// It goes by its rule, and then answers this error code.
    Late(i16),
}

/// What may happen in a schedule. Senders, partitions, packets and replies are told by their numbers, from 0, and nodes by
/// any numbers.
#[derive(Debug, Drop)]
pub enum Event {
    /// A sender has a record without a key accepted.
    Accept {
        sender: u64,
        partition: u64,
        value: Blob,
    },
    /// The oldest record that a sender had accepted and that was not taken is appended.
    Take {
        sender: u64,
    },
    /// The clock shows this moment; it may go back.
    Now {
        moment: u64,
    },
    /// The producer looks at the clock, for node 0.
    Tick,
    /// The producer looks at the clock, for this node.
    TickNode {
        node: u32,
    },
    /// The next request to node 0 goes out, as a packet.
    Send,
    /// The next request to this node goes out, as a packet.
    SendNode {
        node: u32,
    },
    /// A packet comes to the broker, whose answer becomes a reply. The packet may come again.
    Deliver {
        packet: u64,
        treatment: Treatment,
    },
    /// A reply comes to the producer, and may come again.
    Reply {
        reply: u64,
    },
    /// The connection to node 0 is gone.
    Drop,
    /// The connection to this node is gone.
    DropNode {
        node: u32,
    },
    /// This node leads the partition from now on.
    Leader {
        partition: u64,
        node: u32,
    },
    /// Another producer has so many records appended.
    Other {
        partition: u64,
        count: u64,
    },
    /// No record is accepted from now on, and what was accepted is to be sent.
    Close,
    /// The producer gives up what is left.
    End,
    /// The producer is to send all that it was given.
    Flush,
}
