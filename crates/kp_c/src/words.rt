//! Statuses, outcomes and error codes in words.

ghost use Rattle.std.specs.Prelude.{◌≡◌, ◌≤◌, ◌++◌, length, min, take, drop};

use kp_rules::ErrorCode;

/// A status in words, into the front of the room for them: how many bytes. Of words that do not fit the first are there.
#[unsafe(no_mangle)]
pub extern "C" fn kp_status_words(status: i32, room: &mut [u8]) -> usize
    ensures { result ≤ length room.old }
{
    copy_words(status_words(status), room)
}

/// An outcome of a report in words, as a status.
#[unsafe(no_mangle)]
pub extern "C" fn kp_outcome_words(outcome: u32, room: &mut [u8]) -> usize
    ensures { result ≤ length room.old }
{
    copy_words(outcome_words(outcome), room)
}

/// Kafka's name of an error code, as a status; nothing of one that it has not.
#[unsafe(no_mangle)]
pub extern "C" fn kp_error_name(code: i32, room: &mut [u8]) -> usize
    ensures { result ≤ length room.old }
{
    copy_words(error_name(code), room)
}

/// The first of the words, into the front of the room: how many bytes.
fn copy_words(words: &str, room: &mut [u8]) -> usize
    ensures count { result ≡ min (length words.now) (length room.old) }
    ensures front { room.new ≡ take result words.now ++ drop result room.old }
{
    let words = words.as_bytes();
    let count = words.len().min(room.len());
    room[..count].copy_from_slice(&words[..count]);
    count
}

fn error_name(code: i32) -> &'static str {
    let Ok(code) = i16::try_from(code) else {
        return "";
    };
    match ErrorCode::of(code) {
        Some(code) => code.name,
        None => "",
    }
}

fn outcome_words(outcome: u32) -> &'static str {
    match outcome {
        0 => "it stands in the log",
        1 => "it stands in the log, at an offset that the broker no longer knows",
        2 => "it was sent and given up: it may stand in the log or not",
        3 => "the broker refused its batch",
        4 => "it was never sent: the delivery timeout was over",
        5 => "it was never sent: its partition was fenced",
        6 => "it was never sent: the producer was ended",
        _ => "no outcome",
    }
}

fn status_words(status: i32) -> &'static str {
    match status {
        0 => "done",
        1 => "the handle holds no producer",
        2 => "out of memory",
        3 => "the producer is closed",
        4 => "the producer is not ready",
        5 => "there is no such partition",
        6 => "the record is too large",
        7 => "the buffer is full",
        8 => "every correlation id, or every number of the partition's records, was used",
        9 => "there is no such node",
        10 => "there is no connection to the node",
        11 => "an answer can't be read",
        13 => "the timestamp is before 1970",
        14 => "the lengths do not fit the bytes, or a header's name is not UTF-8",
        15 => "the host does not fit into the room",
        _ => making_words(status),
    }
}

/// Those of making a producer.
fn making_words(status: i32) -> &'static str {
    match status {
        20 => "the topic's name is empty",
        21 => "the topic's name has more than 249 bytes",
        22 => "the topic's name is not UTF-8",
        23 => "the client's name has more than 249 bytes",
        24 => "the client's name is not UTF-8",
        25 => "there is no address",
        26 => "an address is not host:port, with a port from 1 to 65535",
        27 => "there are more than 65536 addresses",
        101 => "batch.size is not from 0 to 8388608",
        102 => "linger.ms is not from 0 to 86400000",
        103 => "buffer.memory is not from 100 to 1073741824",
        104 => "max.request.size is not from 100 to 8388608",
        105 => "request.timeout.ms is not from 1 to 2147483647",
        106 => "delivery.timeout.ms is not from linger.ms + request.timeout.ms to 2147483647",
        107 => "retry.backoff.ms is not from 0 to 86400000",
        108 => "max.in.flight.requests.per.connection is not from 1 to 5",
        109 => "sequence.limit is not from 1 to 2147483648",
        110 => "batch.size is above max.request.size",
        _ => "no status",
    }
}
