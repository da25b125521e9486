//! InitProducerId: a number for an idempotent producer (protocol guide, "InitProducerId API (Key: 22)", version 0;
//! KIP-98).

use kp_wire::{
    MeasuredField, ReadError, ReadField, Text, add_sizes, put_i16, put_i32, put_i64,
    put_nullable_text, read_i16, read_i32, read_i64, read_nullable_text, size_of_i16, size_of_i32,
    size_of_i64, size_of_nullable_text,
};
use std::alloc::{AllocError, Global};

/// Asks a broker for a producer id.
#[derive(Debug, Drop)]
pub struct InitProducerIdRequest {
    /// None where the producer has no transactions.
    pub transactional_id: Option<Text>,
    /// How long a transaction may stay open, in milliseconds.
    pub transaction_timeout_ms: i32,
}

impl ReadField for InitProducerIdRequest {
    ghost use Rattle.kp_frames.specs.ProducerId.{init_producer_id_request};

    ghost reads = { λ after. init_producer_id_request.read };

    #[tactic(auto, unfolding(crate::specs::ProducerId::init_producer_id_request))]
    fn read(alloc: Global, bytes: &[u8], _after: usize) -> Result<(Self, &[u8]), ReadError> {
        let (transactional_id, rest) = read_nullable_text(alloc, bytes)?;
        let (transaction_timeout_ms, rest) = read_i32(rest)?;
        Ok((
            InitProducerIdRequest {
                transactional_id,
                transaction_timeout_ms,
            },
            rest,
        ))
    }
}

impl MeasuredField for InitProducerIdRequest {
    ghost use Rattle.kp_frames.specs.ProducerId.{init_producer_id_request};

    ghost spells = { init_producer_id_request.spell };

    ghost fits = { init_producer_id_request.Fits };

    #[tactic(auto, unfolding(crate::specs::ProducerId::init_producer_id_request))]
    fn size(&self) -> Option<u64> {
        let size = size_of_nullable_text(&self.transactional_id)?;
        let size = add_sizes(size, size_of_i32(self.transaction_timeout_ms));
        Some(size)
    }

    #[tactic(auto, unfolding(crate::specs::ProducerId::init_producer_id_request))]
    fn put(&self, out: &mut Vec<u8>) -> Result<(), AllocError> {
        put_nullable_text(out, &self.transactional_id)?;
        put_i32(out, self.transaction_timeout_ms)
    }
}

/// The producer id that a broker gave.
#[derive(Clone, Copy, Debug, PartialEq, Eq)]
pub struct InitProducerIdResponse {
    /// How long the broker held the answer back because of a quota, in milliseconds.
    pub throttle_time_ms: i32,
    /// 0 where there is a producer id (protocol guide, "Error Codes").
    pub error_code: i16,
    /// The producer id, or -1.
    pub producer_id: i64,
    /// The epoch of the producer id, or -1.
    pub producer_epoch: i16,
}

impl ReadField for InitProducerIdResponse {
    ghost use Rattle.kp_frames.specs.ProducerId.{init_producer_id_response};

    ghost reads = { λ after. init_producer_id_response.read };

    #[tactic(auto, unfolding(crate::specs::ProducerId::init_producer_id_response))]
    fn read(_alloc: Global, bytes: &[u8], _after: usize) -> Result<(Self, &[u8]), ReadError> {
        let (throttle_time_ms, rest) = read_i32(bytes)?;
        let (error_code, rest) = read_i16(rest)?;
        let (producer_id, rest) = read_i64(rest)?;
        let (producer_epoch, rest) = read_i16(rest)?;
        Ok((
            InitProducerIdResponse {
                throttle_time_ms,
                error_code,
                producer_id,
                producer_epoch,
            },
            rest,
        ))
    }
}

impl MeasuredField for InitProducerIdResponse {
    ghost use Rattle.kp_frames.specs.ProducerId.{init_producer_id_response};

    ghost spells = { init_producer_id_response.spell };

    ghost fits = { init_producer_id_response.Fits };

    #[tactic(auto, unfolding(crate::specs::ProducerId::init_producer_id_response))]
    fn size(&self) -> Option<u64> {
        let size = size_of_i32(self.throttle_time_ms);
        let size = add_sizes(size, size_of_i16(self.error_code));
        let size = add_sizes(size, size_of_i64(self.producer_id));
        let size = add_sizes(size, size_of_i16(self.producer_epoch));
        Some(size)
    }

    #[tactic(auto, unfolding(crate::specs::ProducerId::init_producer_id_response))]
    fn put(&self, out: &mut Vec<u8>) -> Result<(), AllocError> {
        put_i32(out, self.throttle_time_ms)?;
        put_i16(out, self.error_code)?;
        put_i64(out, self.producer_id)?;
        put_i16(out, self.producer_epoch)?;
        Ok(())
    }
}
