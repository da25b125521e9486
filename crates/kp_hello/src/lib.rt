//! What a producer asks the brokers of a cluster before its first batch and while it goes on, and what their answers give
//! (protocol guide, "Metadata API (Key: 3)" and "InitProducerId API (Key: 22)"; KIP-98). No stream is known here.
#![tactic(auto)]

mod asking;
mod chart;
mod charting;
mod fault;
mod hello;
mod judging;

pub use asking::{write_metadata, write_producer_id};
pub use chart::{Chart, Node};
pub use charting::read_chart;
pub use fault::HandshakeFault;
pub use hello::{Hello, PARTITION_LIMIT};
pub use judging::{METADATA_CORRELATION, PRODUCER_ID_CORRELATION, read_metadata, read_producer_id};
