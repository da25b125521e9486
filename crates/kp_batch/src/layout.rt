//! Where a batch's fields stand, in bytes from its beginning (Kafka's documentation, "Record Batch").

/// Where the length stands.
pub(crate) const LENGTH_AT: usize = 8;

/// Where begins what the length counts.
pub const LENGTH_END: usize = 12;

/// Where the checksum stands.
pub(crate) const CHECKSUM_AT: usize = 17;

/// Where begins what the checksum covers.
pub(crate) const COVERED_AT: usize = 21;

/// Where the records begin.
pub const RECORDS_AT: usize = 61;

/// The only magic byte.
pub const MAGIC: i8 = 2;
