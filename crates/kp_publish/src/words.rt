//! How far a stream has come, as text.

use kp_drive::{Embed, Phase};
use kp_rules::ErrorCode;
use kp_send::{Latencies, Tellings};
use kp_text::{end_line, put_named};
use std::alloc::AllocError;

/// What of a stream's progress moves, at a moment in microseconds from its beginning.
#[derive(Clone, Copy, Debug)]
pub(crate) struct Progress {
    pub(crate) passed: u64,
    /// How many bytes of the input have come.
    pub(crate) bytes: u64,
    pub(crate) delivered: u64,
}

impl Progress {
    /// Nothing has moved.
    pub(crate) fn new() -> Progress {
        Progress {
            passed: 0,
            bytes: 0,
            delivered: 0,
        }
    }
}

/// How many there were a second, between two moments in microseconds.
fn rate(count: u64, micros: u64) -> u64 {
    (u128::from(count) * 1_000_000)
        .checked_div(u128::from(micros))
        .and_then(|rate| u64::try_from(rate).ok())
        .unwrap_or(0)
}

/// How far a stream has come since a moment before: `DELIVERED delivered, WAITING waiting, N a second, N.N MB a second`, and
/// what it waits for.
pub(crate) fn put_progress(
    text: &mut Vec<u8>,
    before: Progress,
    now: Progress,
    waiting: usize,
    producer: &Embed,
) -> Result<(), AllocError> {
    let micros = now.passed.saturating_sub(before.passed);
    let lines = rate(now.delivered.saturating_sub(before.delivered), micros);
    let tenths = rate(now.bytes.saturating_sub(before.bytes), micros) / 100_000;
    put_named(text, b"", now.delivered)?;
    put_named(text, b" delivered, ", waiting)?;
    put_named(text, b" waiting, ", lines)?;
    put_named(text, b" a second, ", tenths / 10)?;
    put_named(text, b".", tenths % 10)?;
    text.extend_from_slice(b" MB a second")?;
    match producer.phase() {
        Phase::Ready => Ok(()),
        Phase::Spent => text.extend_from_slice(b"; every correlation id was used"),
        Phase::Failed => text.extend_from_slice(b"; no broker was ready in time"),
        Phase::Opening => {
            text.extend_from_slice(b"; no broker is ready")?;
            match producer.statistics().refused {
                None => Ok(()),
                Some(code) => put_code(text, b": ", code),
            }
        }
    }
}

/// An error code of Kafka's, with its name.
fn put_code(text: &mut Vec<u8>, before: &[u8], code: i16) -> Result<(), AllocError> {
    put_named(text, before, code)?;
    match ErrorCode::of(code) {
        None => Ok(()),
        Some(code) => {
            text.extend_from_slice(b" ")?;
            text.extend_from_slice(code.name.as_bytes())
        }
    }
}

/// Why nothing will be sent.
pub(crate) fn put_refusal(text: &mut Vec<u8>, code: i16) -> Result<(), AllocError> {
    put_code(
        text,
        b"kprod: the broker refuses the topic or the producer: ",
        code,
    )?;
    if let Some(code) = ErrorCode::of(code) {
        text.extend_from_slice(b": ")?;
        text.extend_from_slice(code.words.as_bytes())?;
    }
    end_line(text)
}

/// That nothing can be sent any more.
pub(crate) fn put_spent(text: &mut Vec<u8>) -> Result<(), AllocError> {
    text.extend_from_slice(
        b"kprod: every correlation id was used; what was not sent can be sent by another call\n",
    )
}

/// A member of an object: its name with what stands around it, and its value, or null where there is none.
fn put_member(text: &mut Vec<u8>, name: &[u8], value: Option<u64>) -> Result<(), AllocError> {
    match value {
        Some(value) => put_named(text, name, value),
        None => {
            text.extend_from_slice(name)?;
            text.extend_from_slice(b"null")
        }
    }
}

/// A mean as a number with one place behind the point, or null where there is none.
fn put_mean(text: &mut Vec<u8>, name: &[u8], sum: u64, count: u64) -> Result<(), AllocError> {
    match sum.saturating_mul(10).checked_div(count) {
        Some(tenths) => {
            put_named(text, name, tenths / 10)?;
            put_named(text, b".", tenths % 10)
        }
        None => put_member(text, name, None),
    }
}

/// What went out: batches, and how often one of them went out again.
fn put_batches(text: &mut Vec<u8>, delivered: u64, producer: &Embed) -> Result<(), AllocError> {
    let batches = producer.batches_handed_over();
    let resends = producer.attempts_sent().saturating_sub(batches);
    put_named(text, b",\"batches\":", batches)?;
    put_mean(text, b",\"records_per_batch\":", delivered, batches)?;
    put_named(text, b",\"resends\":", resends)
}

/// What is to be seen of the producer.
fn put_producer(text: &mut Vec<u8>, producer: &Embed) -> Result<(), AllocError> {
    let seen = producer.statistics();
    put_named(text, b",\"connections\":", producer.connections())?;
    put_named(text, b",\"buffer_used\":", seen.buffer_used)?;
    put_named(text, b",\"requests_in_flight\":", seen.requests_in_flight)?;
    put_named(text, b",\"nodes\":", seen.nodes)?;
    match producer.phase() {
        Phase::Ready => text.extend_from_slice(b",\"is_ready\":true")?,
        Phase::Opening | Phase::Failed | Phase::Spent => text.extend_from_slice(
            b",\"is_ready\":false",
        )?,
    }
    match seen.refused {
        Some(code) => put_named(text, b",\"refused\":", code),
        None => text.extend_from_slice(b",\"refused\":null"),
    }
}

/// How far a stream has come, as a line of JSON. Latencies are in microseconds, from sending to report, and told to a 32nd.
pub(crate) fn put_statistics(
    text: &mut Vec<u8>,
    now: Progress,
    tellings: Tellings,
    waiting: usize,
    latencies: &Latencies,
    producer: &Embed,
) -> Result<(), AllocError> {
    put_named(text, b"{\"elapsed_ms\":", now.passed / 1_000)?;
    put_named(text, b",\"read_bytes\":", now.bytes)?;
    put_named(text, b",\"delivered\":", tellings.delivered)?;
    put_named(text, b",\"undelivered\":", tellings.undelivered)?;
    put_named(text, b",\"waiting\":", waiting)?;
    put_batches(text, tellings.delivered, producer)?;
    put_producer(text, producer)?;
    put_member(text, b",\"latency_mean\":", latencies.mean())?;
    put_member(text, b",\"latency_50\":", latencies.percentile(50))?;
    put_member(text, b",\"latency_95\":", latencies.percentile(95))?;
    put_member(text, b",\"latency_99\":", latencies.percentile(99))?;
    put_named(text, b",\"latency_max\":", latencies.greatest())?;
    text.extend_from_slice(b"}\n")
}
