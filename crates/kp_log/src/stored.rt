//! A record of a log.

use kp_batch::Record;

/// A record of a log, and whose it is.
#[derive(Debug, Drop)]
pub struct Stored {
    pub producer_id: i64,
    pub body: Record,
}
