//! A record as it stands in a batch: its timestamp and its offset less those of the batch.

use crate::record::Header;
use kp_wire::{Blob, Seq};

/// A record as it stands in a batch.
#[derive(Debug, Drop)]
pub struct RelativeRecord {
    pub timestamp_delta: i64,
    pub offset_delta: i32,
    pub key: Option<Blob>,
    pub value: Option<Blob>,
    pub headers: Seq<Header>,
}
