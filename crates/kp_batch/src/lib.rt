//! Record batches of magic 2 (Kafka's documentation, "Message Format": "Record Batch").
#![tactic(auto)]

mod as_record;
mod batch;
mod fault;
pub mod fields;
pub mod laws;
pub mod layout;
mod record;
mod relative;
mod size;
mod summary;
mod writing;

pub use as_record::AsRecord;
pub use batch::{Batch, BatchHead};
pub use fault::BatchFault;
pub use record::{Header, Record, Timestamp};
pub use relative::RelativeRecord;
pub use size::{SIZE_LIMIT, batch_size, charge, record_size, size_with};
pub use summary::{Front, Summary};
pub use writing::write_batch;
