//! The lines in which a world tells what happened.

use kp_wire::Seq;

/// A part of a packet: its partition, base sequence and count.
#[derive(Clone, Copy, Debug, PartialEq, Eq)]
pub struct SentPart {
    pub partition: u32,
    pub sequence: u64,
    pub count: u64,
}

/// A part of a reply: its partition, Kafka's code and the base offset.
#[derive(Clone, Copy, Debug, PartialEq, Eq)]
pub struct AnswerPart {
    pub partition: u32,
    pub code: i16,
    pub base: i64,
}

/// What an event was answered. Senders, partitions, packets and replies are told by their numbers, from 0.
#[derive(Debug, Drop)]
pub enum Line {
    /// A record was not accepted: the gate is shut.
    Closed { sender: u64, partition: u64 },
    /// A record was not accepted: it is too large.
    Large { sender: u64, partition: u64 },
    /// Nothing that was accepted is to be taken.
    Empty { sender: u64 },
    /// The buffer memory is full; the item stays.
    Full { sender: u64 },
    /// The connection is to be given up.
    Reconnect,
    /// A packet with batches went out.
    SentBatches { packet: u64, parts: Seq<SentPart> },
    /// A packet that asks for a producer id went out.
    SentInit { packet: u64 },
    /// Nothing went out.
    Idle,
    /// The producer has ended.
    Ended,
    /// Batches were answered.
    AnswerBatches { reply: u64, parts: Seq<AnswerPart> },
    /// A request for a producer id was answered.
    AnswerInit { reply: u64, code: i16, id: i64 },
    /// The reply is one to no request in flight.
    Stale { reply: u64 },
    /// Something is untold that was appended before the flush.
    Flushing,
    /// Nothing is untold.
    Flushed,
}
