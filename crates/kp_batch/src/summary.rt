//! The fields before a batch's records.

use crate::batch::BatchHead;

/// The fields that no checksum covers.
#[derive(Clone, Copy, Debug)]
pub struct Front {
    pub base_offset: i64,
    /// How many bytes stand behind this field.
    pub batch_length: i32,
    pub leader_epoch: i32,
    pub magic: i8,
    pub checksum: u32,
}

/// The fields between the checksum and the records.
#[derive(Clone, Copy, Debug)]
pub struct Summary {
    pub attributes: i16,
    pub last_offset_delta: i32,
    pub base_timestamp: i64,
    pub max_timestamp: i64,
    pub head: BatchHead,
    pub count: i32,
}
