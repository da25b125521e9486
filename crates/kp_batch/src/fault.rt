//! Why bytes are no batch.

use kp_wire::WireFault;
use thiserror::Error;

/// Why bytes are no batch: of these, from the top, the first that applies.
#[derive(Clone, Copy, Debug, PartialEq, Eq, Error)]
pub enum BatchFault {
    /// The input is shorter than a batch's fields, or than its length says.
    #[error("the batch is cut short")]
    Short,
    /// The length is below that of the fields, or bytes stand behind the batch.
    #[error("the batch's length is not that of its bytes")]
    Length,
    /// The magic byte is not 2.
    #[error("the magic byte is not 2")]
    Magic,
    /// The checksum is not that of the bytes.
    #[error("the checksum is not that of the bytes")]
    Checksum,
    /// The attributes are not 0: compressed, transactional and control batches are not read.
    #[error("the batch's attributes are not 0")]
    Attributes,
    /// There is no record, or the last offset delta is not the count less 1.
    #[error("the count of records is not that of the offsets")]
    Count,
    /// The first fault in the records.
    #[error("a record is faulty: {0}")]
    BadRecord(WireFault),
    /// A record's offset delta is not its place.
    #[error("an offset delta is not the record's place")]
    Deltas,
    /// The first record's timestamp is not the base, a timestamp is below 0 or above an int64, or the
    /// greatest is not the one that the batch names.
    #[error("the timestamps are not those that the batch names")]
    Timestamps,
    /// A growth was refused, at whatever place behind the count.
    #[error("out of memory")]
    OutOfMemory,
}
