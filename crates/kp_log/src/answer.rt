//! What a log answers to a batch.

ghost use Rattle.std.specs.Prelude.{◌≡◌};
ghost use Rattle.kp_log.specs.Answer.{code_of, base_offset_of};

use crate::error_code::ErrorCode;

/// Why a batch was not appended: Kafka's errors, under their names in the protocol guide.
#[derive(Clone, Copy, Debug, PartialEq, Eq)]
pub enum Refusal {
    /// The bytes are no batch.
    CorruptMessage,
    /// The producer id is below 0.
    InvalidRequest,
    /// The batch's first sequence number is not the next.
    OutOfOrderSequenceNumber,
    /// The batch is older than those that the log keeps.
    DuplicateSequenceNumber,
    /// The epoch is not 0.
    InvalidProducerEpoch,
}

/// What a log answers to a batch.
#[derive(Clone, Copy, Debug, PartialEq, Eq)]
pub enum Answer {
    /// The batch stands in the log, its first record at this offset.
    Stored(i64),
    /// The log is as it was.
    Refused(Refusal),
    /// The log was told to answer so, whatever became of the batch.
    Error(ErrorCode),
}

impl Answer {
    /// Kafka's number: 0 where the batch stands in the log, else that of the error.
    pub fn code(self) -> i16
        ensures { result ≡ code_of self }
    {
        match self {
            Answer::Stored(_) => 0,
            Answer::Refused(Refusal::CorruptMessage) => 2,
            Answer::Refused(Refusal::InvalidRequest) => 42,
            Answer::Refused(Refusal::OutOfOrderSequenceNumber) => 45,
            Answer::Refused(Refusal::DuplicateSequenceNumber) => 46,
            Answer::Refused(Refusal::InvalidProducerEpoch) => 47,
            Answer::Error(code) => code.get(),
        }
    }

    /// The first record's offset, or Kafka's -1 with an error.
    pub fn base_offset(self) -> i64
        ensures { result ≡ base_offset_of self }
    {
        match self {
            Answer::Stored(offset) => offset,
            Answer::Refused(_) | Answer::Error(_) => -1,
        }
    }
}
