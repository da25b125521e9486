//! Kafka's error codes by name (the protocol guide, "Error Codes"): those that may answer a producer, and their like.

ghost use Rattle.std.specs.Prelude.{◌≡◌, IfSome};
ghost use Rattle.kp_rules.specs.Settling.{meaning_of};

use crate::meaning::Meaning;

/// An error code of Kafka's.
#[derive(Clone, Copy, Debug, PartialEq, Eq)]
pub struct ErrorCode {
    /// As it stands in a response.
    pub number: i16,
    /// What Kafka calls it.
    pub name: &'static str,
    /// What it means for a batch.
    pub meaning: Meaning,
    /// What went wrong, in a line of words.
    pub words: &'static str,
}

impl ErrorCode {
    /// The code of this number; None where the list does not have it.
    pub fn of(number: i16) -> Option<ErrorCode>
        ensures number { IfSome result (λ code. code.number ≡ number) }
        ensures meaning { IfSome result (λ code. code.meaning ≡ meaning_of number) }
    {
        let (name, words) = name_and_words(number)?;
        let meaning = meaning_of(number);
        Some(ErrorCode {
            number,
            name,
            meaning,
            words,
        })
    }
}

/// What an error code means for a batch, also one that the list does not have.
#[tactic(auto, unfolding(crate::specs::Settling::meaning_of))]
pub fn meaning_of(code: i16) -> Meaning
    ensures { result ≡ meaning_of code }
{
    match code {
        0 => Meaning::Stored,
        46 => Meaning::Duplicate,
        2 | 3 | 5 | 6 | 7 | 19 | 20 | 45 | 56 => Meaning::Retry,
        _ => Meaning::Reject,
    }
}

fn name_and_words(number: i16) -> Option<(&'static str, &'static str)> {
    Some(match number {
        -1 => (
            "UNKNOWN_SERVER_ERROR",
            "the broker met an error that it has no code for",
        ),
        0 => ("NONE", "no error"),
        1 => (
            "OFFSET_OUT_OF_RANGE",
            "the offset is outside the range that the broker keeps for the partition",
        ),
        2 => (
            "CORRUPT_MESSAGE",
            "the batch failed its checksum, is too large, or is otherwise corrupt",
        ),
        3 => (
            "UNKNOWN_TOPIC_OR_PARTITION",
            "the broker does not host the topic or the partition",
        ),
        4 => ("INVALID_FETCH_SIZE", "the fetch size is not valid"),
        5 => (
            "LEADER_NOT_AVAILABLE",
            "the partition has no leader now, an election is going on",
        ),
        6 => (
            "NOT_LEADER_OR_FOLLOWER",
            "the broker is not the leader of the partition",
        ),
        7 => (
            "REQUEST_TIMED_OUT",
            "the replicas did not acknowledge within the request's timeout",
        ),
        8 => ("BROKER_NOT_AVAILABLE", "the broker is not available"),
        9 => ("REPLICA_NOT_AVAILABLE", "the replica is not available"),
        10 => (
            "MESSAGE_TOO_LARGE",
            "the batch is larger than the broker takes (max.message.bytes)",
        ),
        11 => (
            "STALE_CONTROLLER_EPOCH",
            "the controller has moved to another broker",
        ),
        12 => (
            "OFFSET_METADATA_TOO_LARGE",
            "the metadata of the offset is too large",
        ),
        13 => (
            "NETWORK_EXCEPTION",
            "the connection ended before a response came",
        ),
        14 => ("COORDINATOR_LOAD_IN_PROGRESS", "the coordinator is loading"),
        15 => (
            "COORDINATOR_NOT_AVAILABLE",
            "the coordinator is not available",
        ),
        16 => ("NOT_COORDINATOR", "the broker is not the coordinator"),
        17 => (
            "INVALID_TOPIC_EXCEPTION",
            "the topic's name is not valid, or the topic is internal",
        ),
        18 => (
            "RECORD_LIST_TOO_LARGE",
            "the batch is larger than a segment of the log (segment.bytes)",
        ),
        19 => (
            "NOT_ENOUGH_REPLICAS",
            "fewer replicas are in sync than min.insync.replicas wants",
        ),
        20 => (
            "NOT_ENOUGH_REPLICAS_AFTER_APPEND",
            "the batch was appended, but fewer replicas are in sync than min.insync.replicas wants",
        ),
        21 => (
            "INVALID_REQUIRED_ACKS",
            "the acks of the request are not valid",
        ),
        29 => (
            "TOPIC_AUTHORIZATION_FAILED",
            "the producer may not write to the topic",
        ),
        31 => (
            "CLUSTER_AUTHORIZATION_FAILED",
            "the producer may not write idempotently to the cluster",
        ),
        32 => (
            "INVALID_TIMESTAMP",
            "a record's timestamp is out of the range that the topic takes",
        ),
        33 => (
            "UNSUPPORTED_SASL_MECHANISM",
            "the broker does not offer this SASL mechanism",
        ),
        34 => (
            "ILLEGAL_SASL_STATE",
            "the request does not fit the state of authentication",
        ),
        35 => (
            "UNSUPPORTED_VERSION",
            "the broker does not know this version of the request",
        ),
        36 => ("TOPIC_ALREADY_EXISTS", "the topic is there already"),
        37 => (
            "INVALID_PARTITIONS",
            "the number of partitions is not valid",
        ),
        38 => (
            "INVALID_REPLICATION_FACTOR",
            "the replication factor is not valid",
        ),
        39 => (
            "INVALID_REPLICA_ASSIGNMENT",
            "the assignment of replicas is not valid",
        ),
        40 => ("INVALID_CONFIG", "the configuration is not valid"),
        41 => ("NOT_CONTROLLER", "the broker is not the controller"),
        42 => ("INVALID_REQUEST", "the request is not valid"),
        43 => (
            "UNSUPPORTED_FOR_MESSAGE_FORMAT",
            "the broker's message format does not support the request",
        ),
        44 => (
            "POLICY_VIOLATION",
            "the request violates a policy of the cluster",
        ),
        45 => (
            "OUT_OF_ORDER_SEQUENCE_NUMBER",
            "the batch's sequence number is not the next one of its producer",
        ),
        46 => ("DUPLICATE_SEQUENCE_NUMBER", "the batch was appended before"),
        47 => (
            "INVALID_PRODUCER_EPOCH",
            "another producer with a newer epoch has taken over",
        ),
        48 => (
            "INVALID_TXN_STATE",
            "the request does not fit the state of the transaction",
        ),
        49 => (
            "INVALID_PRODUCER_ID_MAPPING",
            "the producer id is not the one of the transactional id",
        ),
        50 => (
            "INVALID_TRANSACTION_TIMEOUT",
            "the transaction's timeout is larger than the broker takes",
        ),
        51 => (
            "CONCURRENT_TRANSACTIONS",
            "another operation of the transactional id goes on",
        ),
        52 => (
            "TRANSACTION_COORDINATOR_FENCED",
            "the transaction coordinator has moved on",
        ),
        53 => (
            "TRANSACTIONAL_ID_AUTHORIZATION_FAILED",
            "the producer may not use the transactional id",
        ),
        54 => ("SECURITY_DISABLED", "the broker has no security"),
        55 => (
            "OPERATION_NOT_ATTEMPTED",
            "the broker did not attempt the operation",
        ),
        56 => ("KAFKA_STORAGE_ERROR", "the broker's disk failed"),
        57 => ("LOG_DIR_NOT_FOUND", "the log directory is not there"),
        58 => (
            "SASL_AUTHENTICATION_FAILED",
            "the broker does not accept who asks",
        ),
        59 => (
            "UNKNOWN_PRODUCER_ID",
            "the broker no longer knows the producer id",
        ),
        60 => (
            "REASSIGNMENT_IN_PROGRESS",
            "a reassignment of partitions goes on",
        ),
        72 => ("LISTENER_NOT_FOUND", "the leader has no listener that fits"),
        74 => (
            "FENCED_LEADER_EPOCH",
            "the leader epoch is older than the broker's",
        ),
        75 => (
            "UNKNOWN_LEADER_EPOCH",
            "the leader epoch is newer than the broker's",
        ),
        76 => (
            "UNSUPPORTED_COMPRESSION_TYPE",
            "the broker does not support the compression",
        ),
        87 => ("INVALID_RECORD", "a record failed the broker's validation"),
        89 => ("THROTTLING_QUOTA_EXCEEDED", "a quota was exceeded"),
        90 => (
            "PRODUCER_FENCED",
            "another producer with a newer epoch has taken over",
        ),
        _ => return None,
    })
}
