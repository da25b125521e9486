//! Record batches of magic 2, read (Kafka's documentation, "Message Format": "Record Batch").
#![tactic(auto)]

mod fields;
mod gathering;
mod opening;
mod reading;
mod records;

pub use reading::read_batch;
