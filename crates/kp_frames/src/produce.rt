//! Produce: batches for partitions, and where they were put (protocol guide, "Produce API (Key: 0)", version 3).

use kp_wire::{
    Blob, MeasuredField, ReadError, ReadField, Seq, Text, add_sizes, put_array, put_i16, put_i32,
    put_i64, put_nullable_text, put_records, put_text, read_array, read_i16, read_i32, read_i64,
    read_nullable_text, read_records, read_text, size_of_array, size_of_i16, size_of_i32,
    size_of_i64, size_of_nullable_text, size_of_records, size_of_text,
};
use std::alloc::{AllocError, Global};

/// A batch for a partition.
#[derive(Debug, Drop)]
pub struct PartitionProduceData {
    /// The partition's number, from 0.
    pub partition: i32,
    /// The bytes of one record batch.
    pub records: Blob,
}

impl ReadField for PartitionProduceData {
    ghost use Rattle.kp_frames.specs.Produce.{partition_data};

    ghost reads = { λ after. partition_data.read };

    #[tactic(auto, unfolding(crate::specs::Produce::partition_data))]
    fn read(alloc: Global, bytes: &[u8], _after: usize) -> Result<(Self, &[u8]), ReadError> {
        let (partition, rest) = read_i32(bytes)?;
        let (records, rest) = read_records(alloc, rest)?;
        Ok((PartitionProduceData { partition, records }, rest))
    }
}

impl MeasuredField for PartitionProduceData {
    ghost use Rattle.kp_frames.specs.Produce.{partition_data};

    ghost spells = { partition_data.spell };

    ghost fits = { partition_data.Fits };

    #[tactic(auto, unfolding(crate::specs::Produce::partition_data))]
    fn size(&self) -> Option<u64> {
        let size = size_of_i32(self.partition);
        let size = add_sizes(size, size_of_records(&self.records)?);
        Some(size)
    }

    #[tactic(auto, unfolding(crate::specs::Produce::partition_data))]
    fn put(&self, out: &mut Vec<u8>) -> Result<(), AllocError> {
        put_i32(out, self.partition)?;
        put_records(out, &self.records)
    }
}

/// Batches for a topic.
#[derive(Debug, Drop)]
pub struct TopicProduceData {
    pub topic: Text,
    pub partitions: Seq<PartitionProduceData>,
}

impl ReadField for TopicProduceData {
    ghost use Rattle.kp_frames.specs.Produce.{topic_data};

    ghost reads = { λ after. topic_data.read };

    #[tactic(auto, unfolding(crate::specs::Produce::topic_data))]
    fn read(alloc: Global, bytes: &[u8], _after: usize) -> Result<(Self, &[u8]), ReadError> {
        let (topic, rest) = read_text(alloc, bytes)?;
        let (partitions, rest) = read_array(alloc, rest)?;
        Ok((TopicProduceData { topic, partitions }, rest))
    }
}

impl MeasuredField for TopicProduceData {
    ghost use Rattle.kp_frames.specs.Produce.{topic_data};

    ghost spells = { topic_data.spell };

    ghost fits = { topic_data.Fits };

    #[tactic(auto, unfolding(crate::specs::Produce::topic_data))]
    fn size(&self) -> Option<u64> {
        let size = size_of_text(&self.topic)?;
        let size = add_sizes(size, size_of_array(&self.partitions)?);
        Some(size)
    }

    #[tactic(auto, unfolding(crate::specs::Produce::topic_data))]
    fn put(&self, out: &mut Vec<u8>) -> Result<(), AllocError> {
        put_text(out, &self.topic)?;
        put_array(out, &self.partitions)
    }
}

/// Asks a broker to append batches to its logs.
#[derive(Debug, Drop)]
pub struct ProduceRequest {
    /// None where the producer has no transactions.
    pub transactional_id: Option<Text>,
    /// How many replicas have a batch before it is answered: -1 for all that are in sync.
    pub acks: i16,
    /// How long the broker may wait for these replicas, in milliseconds.
    pub timeout_ms: i32,
    pub topics: Seq<TopicProduceData>,
}

impl ReadField for ProduceRequest {
    ghost use Rattle.kp_frames.specs.Produce.{produce_request};

    ghost reads = { λ after. produce_request.read };

    #[tactic(auto, unfolding(crate::specs::Produce::produce_request))]
    fn read(alloc: Global, bytes: &[u8], _after: usize) -> Result<(Self, &[u8]), ReadError> {
        let (transactional_id, rest) = read_nullable_text(alloc, bytes)?;
        let (acks, rest) = read_i16(rest)?;
        let (timeout_ms, rest) = read_i32(rest)?;
        let (topics, rest) = read_array(alloc, rest)?;
        Ok((
            ProduceRequest {
                transactional_id,
                acks,
                timeout_ms,
                topics,
            },
            rest,
        ))
    }
}

impl MeasuredField for ProduceRequest {
    ghost use Rattle.kp_frames.specs.Produce.{produce_request};

    ghost spells = { produce_request.spell };

    ghost fits = { produce_request.Fits };

    #[tactic(auto, unfolding(crate::specs::Produce::produce_request))]
    fn size(&self) -> Option<u64> {
        let size = size_of_nullable_text(&self.transactional_id)?;
        let size = add_sizes(size, size_of_i16(self.acks));
        let size = add_sizes(size, size_of_i32(self.timeout_ms));
        let size = add_sizes(size, size_of_array(&self.topics)?);
        Some(size)
    }

    #[tactic(auto, unfolding(crate::specs::Produce::produce_request))]
    fn put(&self, out: &mut Vec<u8>) -> Result<(), AllocError> {
        put_nullable_text(out, &self.transactional_id)?;
        put_i16(out, self.acks)?;
        put_i32(out, self.timeout_ms)?;
        put_array(out, &self.topics)
    }
}

/// What became of a partition's batch.
#[derive(Clone, Copy, Debug, PartialEq, Eq)]
pub struct PartitionProduceResponse {
    pub partition: i32,
    /// 0 where the batch was appended (protocol guide, "Error Codes").
    pub error_code: i16,
    /// The offset of the batch's first record, or -1.
    pub base_offset: i64,
    /// When the broker appended the batch, in milliseconds since the beginning of 1970, or -1 where the records keep
    /// their own timestamps.
    pub log_append_time_ms: i64,
}

impl ReadField for PartitionProduceResponse {
    ghost use Rattle.kp_frames.specs.Produce.{partition_response};

    ghost reads = { λ after. partition_response.read };

    #[tactic(auto, unfolding(crate::specs::Produce::partition_response))]
    fn read(_alloc: Global, bytes: &[u8], _after: usize) -> Result<(Self, &[u8]), ReadError> {
        let (partition, rest) = read_i32(bytes)?;
        let (error_code, rest) = read_i16(rest)?;
        let (base_offset, rest) = read_i64(rest)?;
        let (log_append_time_ms, rest) = read_i64(rest)?;
        Ok((
            PartitionProduceResponse {
                partition,
                error_code,
                base_offset,
                log_append_time_ms,
            },
            rest,
        ))
    }
}

impl MeasuredField for PartitionProduceResponse {
    ghost use Rattle.kp_frames.specs.Produce.{partition_response};

    ghost spells = { partition_response.spell };

    ghost fits = { partition_response.Fits };

    #[tactic(auto, unfolding(crate::specs::Produce::partition_response))]
    fn size(&self) -> Option<u64> {
        let size = size_of_i32(self.partition);
        let size = add_sizes(size, size_of_i16(self.error_code));
        let size = add_sizes(size, size_of_i64(self.base_offset));
        let size = add_sizes(size, size_of_i64(self.log_append_time_ms));
        Some(size)
    }

    #[tactic(auto, unfolding(crate::specs::Produce::partition_response))]
    fn put(&self, out: &mut Vec<u8>) -> Result<(), AllocError> {
        put_i32(out, self.partition)?;
        put_i16(out, self.error_code)?;
        put_i64(out, self.base_offset)?;
        put_i64(out, self.log_append_time_ms)?;
        Ok(())
    }
}

/// What became of a topic's batches.
#[derive(Debug, Drop)]
pub struct TopicProduceResponse {
    pub topic: Text,
    pub partitions: Seq<PartitionProduceResponse>,
}

impl ReadField for TopicProduceResponse {
    ghost use Rattle.kp_frames.specs.Produce.{topic_response};

    ghost reads = { λ after. topic_response.read };

    #[tactic(auto, unfolding(crate::specs::Produce::topic_response))]
    fn read(alloc: Global, bytes: &[u8], _after: usize) -> Result<(Self, &[u8]), ReadError> {
        let (topic, rest) = read_text(alloc, bytes)?;
        let (partitions, rest) = read_array(alloc, rest)?;
        Ok((TopicProduceResponse { topic, partitions }, rest))
    }
}

impl MeasuredField for TopicProduceResponse {
    ghost use Rattle.kp_frames.specs.Produce.{topic_response};

    ghost spells = { topic_response.spell };

    ghost fits = { topic_response.Fits };

    #[tactic(auto, unfolding(crate::specs::Produce::topic_response))]
    fn size(&self) -> Option<u64> {
        let size = size_of_text(&self.topic)?;
        let size = add_sizes(size, size_of_array(&self.partitions)?);
        Some(size)
    }

    #[tactic(auto, unfolding(crate::specs::Produce::topic_response))]
    fn put(&self, out: &mut Vec<u8>) -> Result<(), AllocError> {
        put_text(out, &self.topic)?;
        put_array(out, &self.partitions)
    }
}

/// What became of the batches of a request.
#[derive(Debug, Drop)]
pub struct ProduceResponse {
    pub topics: Seq<TopicProduceResponse>,
    /// How long the broker held the answer back because of a quota, in milliseconds.
    pub throttle_time_ms: i32,
}

impl ReadField for ProduceResponse {
    ghost use Rattle.kp_frames.specs.Produce.{produce_response};

    ghost reads = { λ after. produce_response.read };

    #[tactic(auto, unfolding(crate::specs::Produce::produce_response))]
    fn read(alloc: Global, bytes: &[u8], _after: usize) -> Result<(Self, &[u8]), ReadError> {
        let (topics, rest) = read_array(alloc, bytes)?;
        let (throttle_time_ms, rest) = read_i32(rest)?;
        Ok((
            ProduceResponse {
                topics,
                throttle_time_ms,
            },
            rest,
        ))
    }
}

impl MeasuredField for ProduceResponse {
    ghost use Rattle.kp_frames.specs.Produce.{produce_response};

    ghost spells = { produce_response.spell };

    ghost fits = { produce_response.Fits };

    #[tactic(auto, unfolding(crate::specs::Produce::produce_response))]
    fn size(&self) -> Option<u64> {
        let size = size_of_array(&self.topics)?;
        let size = add_sizes(size, size_of_i32(self.throttle_time_ms));
        Some(size)
    }

    #[tactic(auto, unfolding(crate::specs::Produce::produce_response))]
    fn put(&self, out: &mut Vec<u8>) -> Result<(), AllocError> {
        put_array(out, &self.topics)?;
        put_i32(out, self.throttle_time_ms)
    }
}
