//! Kafka's frames: six messages of a producer's connection, written and read, and a stream cut into frames (protocol
//! guide, "Protocol Structure").
#![tactic(auto)]

mod api;
mod fault;
mod frame;
pub mod laws;
mod metadata;
mod produce;
mod producer_id;
mod request;
mod response;
mod splitter;

pub use api::Api;
pub use fault::FrameFault;
pub use frame::CONTENT_LIMIT;
pub use metadata::{Broker, MetadataRequest, MetadataResponse, PartitionMetadata, TopicMetadata};
pub use produce::{
    PartitionProduceData, PartitionProduceResponse, ProduceRequest, ProduceResponse,
    TopicProduceData, TopicProduceResponse,
};
pub use producer_id::{InitProducerIdRequest, InitProducerIdResponse};
pub use request::{Request, RequestBody, read_request, write_request};
pub use response::{Response, ResponseBody, read_response, write_response};
pub use splitter::Splitter;
