//! Metadata: brokers, topics and their partitions (protocol guide, "Metadata API (Key: 3)", version 1).

use kp_wire::{
    MeasuredField, ReadError, ReadField, Seq, Text, add_sizes, put_array, put_bool, put_i16,
    put_i32, put_nullable_array, put_nullable_text, put_text, read_array, read_bool, read_i16,
    read_i32, read_nullable_array, read_nullable_text, read_text, size_of_array, size_of_bool,
    size_of_i16, size_of_i32, size_of_nullable_array, size_of_nullable_text, size_of_text,
};
use std::alloc::{AllocError, Global};

/// Asks a broker what it knows of topics.
#[derive(Debug, Drop)]
pub struct MetadataRequest {
    /// The topics' names, or None for all topics.
    pub topics: Option<Seq<Text>>,
}

impl ReadField for MetadataRequest {
    ghost use Rattle.kp_frames.specs.Metadata.{metadata_request};

    ghost reads = { λ after. metadata_request.read };

    #[tactic(auto, unfolding(crate::specs::Metadata::metadata_request))]
    fn read(alloc: Global, bytes: &[u8], _after: usize) -> Result<(Self, &[u8]), ReadError> {
        let (topics, rest) = read_nullable_array(alloc, bytes)?;
        Ok((MetadataRequest { topics }, rest))
    }
}

impl MeasuredField for MetadataRequest {
    ghost use Rattle.kp_frames.specs.Metadata.{metadata_request};

    ghost spells = { metadata_request.spell };

    ghost fits = { metadata_request.Fits };

    #[tactic(auto, unfolding(crate::specs::Metadata::metadata_request))]
    fn size(&self) -> Option<u64> {
        let size = size_of_nullable_array(&self.topics)?;
        Some(size)
    }

    #[tactic(auto, unfolding(crate::specs::Metadata::metadata_request))]
    fn put(&self, out: &mut Vec<u8>) -> Result<(), AllocError> {
        put_nullable_array(out, &self.topics)
    }
}

/// A broker of the cluster.
#[derive(Debug, Drop)]
pub struct Broker {
    pub node_id: i32,
    pub host: Text,
    pub port: i32,
    /// The rack where the broker stands, or None.
    pub rack: Option<Text>,
}

impl ReadField for Broker {
    ghost use Rattle.kp_frames.specs.Metadata.{broker};

    ghost reads = { λ after. broker.read };

    #[tactic(auto, unfolding(crate::specs::Metadata::broker))]
    fn read(alloc: Global, bytes: &[u8], _after: usize) -> Result<(Self, &[u8]), ReadError> {
        let (node_id, rest) = read_i32(bytes)?;
        let (host, rest) = read_text(alloc, rest)?;
        let (port, rest) = read_i32(rest)?;
        let (rack, rest) = read_nullable_text(alloc, rest)?;
        Ok((
            Broker {
                node_id,
                host,
                port,
                rack,
            },
            rest,
        ))
    }
}

impl MeasuredField for Broker {
    ghost use Rattle.kp_frames.specs.Metadata.{broker};

    ghost spells = { broker.spell };

    ghost fits = { broker.Fits };

    #[tactic(auto, unfolding(crate::specs::Metadata::broker))]
    fn size(&self) -> Option<u64> {
        let size = size_of_i32(self.node_id);
        let size = add_sizes(size, size_of_text(&self.host)?);
        let size = add_sizes(size, size_of_i32(self.port));
        let size = add_sizes(size, size_of_nullable_text(&self.rack)?);
        Some(size)
    }

    #[tactic(auto, unfolding(crate::specs::Metadata::broker))]
    fn put(&self, out: &mut Vec<u8>) -> Result<(), AllocError> {
        put_i32(out, self.node_id)?;
        put_text(out, &self.host)?;
        put_i32(out, self.port)?;
        put_nullable_text(out, &self.rack)
    }
}

/// A partition of a topic.
#[derive(Debug, Drop)]
pub struct PartitionMetadata {
    /// 0 where the partition can be used (protocol guide, "Error Codes").
    pub error_code: i16,
    /// The partition's number, from 0.
    pub partition: i32,
    /// The node id of the broker that leads the partition.
    pub leader: i32,
    /// The node ids of the brokers that have a replica.
    pub replicas: Seq<i32>,
    /// The node ids of those whose replica is in sync.
    pub isr: Seq<i32>,
}

impl ReadField for PartitionMetadata {
    ghost use Rattle.kp_frames.specs.Metadata.{partition_metadata};

    ghost reads = { λ after. partition_metadata.read };

    #[tactic(auto, unfolding(crate::specs::Metadata::partition_metadata))]
    fn read(alloc: Global, bytes: &[u8], _after: usize) -> Result<(Self, &[u8]), ReadError> {
        let (error_code, rest) = read_i16(bytes)?;
        let (partition, rest) = read_i32(rest)?;
        let (leader, rest) = read_i32(rest)?;
        let (replicas, rest) = read_array(alloc, rest)?;
        let (isr, rest) = read_array(alloc, rest)?;
        Ok((
            PartitionMetadata {
                error_code,
                partition,
                leader,
                replicas,
                isr,
            },
            rest,
        ))
    }
}

impl MeasuredField for PartitionMetadata {
    ghost use Rattle.kp_frames.specs.Metadata.{partition_metadata};

    ghost spells = { partition_metadata.spell };

    ghost fits = { partition_metadata.Fits };

    #[tactic(auto, unfolding(crate::specs::Metadata::partition_metadata))]
    fn size(&self) -> Option<u64> {
        let size = size_of_i16(self.error_code);
        let size = add_sizes(size, size_of_i32(self.partition));
        let size = add_sizes(size, size_of_i32(self.leader));
        let size = add_sizes(size, size_of_array(&self.replicas)?);
        let size = add_sizes(size, size_of_array(&self.isr)?);
        Some(size)
    }

    #[tactic(auto, unfolding(crate::specs::Metadata::partition_metadata))]
    fn put(&self, out: &mut Vec<u8>) -> Result<(), AllocError> {
        put_i16(out, self.error_code)?;
        put_i32(out, self.partition)?;
        put_i32(out, self.leader)?;
        put_array(out, &self.replicas)?;
        put_array(out, &self.isr)
    }
}

/// A topic and its partitions.
#[derive(Debug, Drop)]
pub struct TopicMetadata {
    /// 0 where the topic is known (protocol guide, "Error Codes").
    pub error_code: i16,
    pub name: Text,
    /// The topic is one of the broker's own.
    pub is_internal: bool,
    pub partitions: Seq<PartitionMetadata>,
}

impl ReadField for TopicMetadata {
    ghost use Rattle.kp_frames.specs.Metadata.{topic_metadata};

    ghost reads = { λ after. topic_metadata.read };

    #[tactic(auto, unfolding(crate::specs::Metadata::topic_metadata))]
    fn read(alloc: Global, bytes: &[u8], _after: usize) -> Result<(Self, &[u8]), ReadError> {
        let (error_code, rest) = read_i16(bytes)?;
        let (name, rest) = read_text(alloc, rest)?;
        let (is_internal, rest) = read_bool(rest)?;
        let (partitions, rest) = read_array(alloc, rest)?;
        Ok((
            TopicMetadata {
                error_code,
                name,
                is_internal,
                partitions,
            },
            rest,
        ))
    }
}

impl MeasuredField for TopicMetadata {
    ghost use Rattle.kp_frames.specs.Metadata.{topic_metadata};

    ghost spells = { topic_metadata.spell };

    ghost fits = { topic_metadata.Fits };

    #[tactic(auto, unfolding(crate::specs::Metadata::topic_metadata))]
    fn size(&self) -> Option<u64> {
        let size = size_of_i16(self.error_code);
        let size = add_sizes(size, size_of_text(&self.name)?);
        let size = add_sizes(size, size_of_bool(self.is_internal));
        let size = add_sizes(size, size_of_array(&self.partitions)?);
        Some(size)
    }

    #[tactic(auto, unfolding(crate::specs::Metadata::topic_metadata))]
    fn put(&self, out: &mut Vec<u8>) -> Result<(), AllocError> {
        put_i16(out, self.error_code)?;
        put_text(out, &self.name)?;
        put_bool(out, self.is_internal)?;
        put_array(out, &self.partitions)
    }
}

/// What a broker knows of the topics that were asked for.
#[derive(Debug, Drop)]
pub struct MetadataResponse {
    pub brokers: Seq<Broker>,
    /// The node id of the cluster's controller.
    pub controller_id: i32,
    pub topics: Seq<TopicMetadata>,
}

impl ReadField for MetadataResponse {
    ghost use Rattle.kp_frames.specs.Metadata.{metadata_response};

    ghost reads = { λ after. metadata_response.read };

    #[tactic(auto, unfolding(crate::specs::Metadata::metadata_response))]
    fn read(alloc: Global, bytes: &[u8], _after: usize) -> Result<(Self, &[u8]), ReadError> {
        let (brokers, rest) = read_array(alloc, bytes)?;
        let (controller_id, rest) = read_i32(rest)?;
        let (topics, rest) = read_array(alloc, rest)?;
        Ok((
            MetadataResponse {
                brokers,
                controller_id,
                topics,
            },
            rest,
        ))
    }
}

impl MeasuredField for MetadataResponse {
    ghost use Rattle.kp_frames.specs.Metadata.{metadata_response};

    ghost spells = { metadata_response.spell };

    ghost fits = { metadata_response.Fits };

    #[tactic(auto, unfolding(crate::specs::Metadata::metadata_response))]
    fn size(&self) -> Option<u64> {
        let size = size_of_array(&self.brokers)?;
        let size = add_sizes(size, size_of_i32(self.controller_id));
        let size = add_sizes(size, size_of_array(&self.topics)?);
        Some(size)
    }

    #[tactic(auto, unfolding(crate::specs::Metadata::metadata_response))]
    fn put(&self, out: &mut Vec<u8>) -> Result<(), AllocError> {
        put_array(out, &self.brokers)?;
        put_i32(out, self.controller_id)?;
        put_array(out, &self.topics)
    }
}
