//! Records are accepted.

ghost use Rattle.std.specs.Prelude.{◌≡◌, ◌≢◌, ◌≤◌, pos, length, take, drop, IfOk, OnOk, OnErr};
ghost use Rattle.kp_c.specs.Calls.{Makes, OnHeld};
ghost use Rattle.kp_c.specs.Records.{given, headers_in};
ghost use Rattle.kp_c.specs.Sending.{Accepts, AcceptsSome, AcceptsValue};
ghost use Rattle.kp_c.specs.Values.{target_of};
ghost use Rattle.kp_embed.specs.Sending.{GoesTo};

use crate::handle::KpProducer;
use crate::records::{front_of, headers_of, record_of};
use crate::status::{OK, Refusal, status_of};
use crate::values::{KpSpan, KpTicket};
use kp_batch::Record;
use kp_embed::{Embed, Target};
use kp_wire::Seq;
use std::alloc::Global;

/// Accepts a record. Its partition is any one where it is below 0.
#[unsafe(no_mangle)]
pub extern "C" fn kp_producer_send(
    producer: &mut KpProducer,
    alloc: Global,
    partition: i32,
    has_key: bool,
    key: &[u8],
    has_value: bool,
    value: &[u8],
    spans: &[KpSpan],
    headers: &[u8],
    timestamp_ms: i64,
    now: u64,
    ticket: &mut KpTicket,
) -> i32
    ensures accepts { result ≡ pos 0 → Makes (Accepts timestamp_ms (given has_key key.now) (given has_value value.now) (headers_in spans.now headers.now) now ticket.new) producer.old.sealed.value producer.new.sealed.value }
    ensures to { result ≡ pos 0 → GoesTo (target_of partition) ticket.new.partition }
    ensures refused { result ≢ pos 0 → producer.new.sealed.value ≡ producer.old.sealed.value }
{
    let headers = match headers_of(alloc, spans, headers) {
        Ok(headers) => headers,
        Err(refusal) => return refusal.status(),
    };
    let body = match record_of(alloc, timestamp_ms, has_key, key, has_value, value, headers) {
        Ok(body) => body,
        Err(refusal) => return refusal.status(),
    };
    let Some(mut embed) = producer.take(alloc) else {
        return Refusal::NoProducer.status();
    };
    let mut refused = None;
    let done = embed.send_or_refuse(target_of(partition), body, now, &mut refused);
    producer.put(embed);
    match done {
        Ok(place) => {
            *ticket = KpTicket::of(place);
            OK
        }
        Err(fault) => Refusal::Send(fault).status(),
    }
}

/// Where a record is to go: a partition, or any one where it is below 0.
fn target_of(partition: i32) -> Target
    ensures { result ≡ target_of partition }
{
    match u32::try_from(partition) {
        Ok(partition) => Target::Partition(partition),
        Err(_) => Target::Any,
    }
}

/// Accepts values, which stand one after the other, by their lengths, each as a record without key and headers: how many. It
/// ends at the first that is refused.
#[unsafe(no_mangle)]
pub extern "C" fn kp_producer_send_batch(
    producer: &mut KpProducer,
    alloc: Global,
    partition: i32,
    values: &[u8],
    lengths: &[u64],
    timestamp_ms: i64,
    now: u64,
    accepted: &mut usize,
) -> i32
    ensures accepts { OnHeld (AcceptsSome timestamp_ms now (target_of partition) lengths.now values.now accepted.new) producer.old.sealed.value producer.new.sealed.value }
    ensures all { result ≡ pos 0 → accepted.new ≡ length lengths.now }
{
    *accepted = 0;
    let Some(mut embed) = producer.take(alloc) else {
        return Refusal::NoProducer.status();
    };
    let target = target_of(partition);
    let (count, done) = send_each(
        alloc,
        &mut embed,
        target,
        values,
        lengths,
        timestamp_ms,
        now,
    );
    producer.put(embed);
    *accepted = count;
    status_of(done)
}

fn send_each(
    alloc: Global,
    embed: &mut Embed,
    target: Target,
    values: &[u8],
    lengths: &[u64],
    timestamp_ms: i64,
    now: u64,
) -> (usize, Result<(), Refusal>)
    ensures accepts { AcceptsSome timestamp_ms now target lengths.now values.now result.0 embed.old embed.new }
    ensures all { OnOk result.1 (result.0 ≡ length lengths.now) }
{
    let mut rest = values;
    let mut refused = None;
    for place in 0..lengths.len() {
        match send_first(
            alloc,
            embed,
            target,
            rest,
            lengths[place],
            timestamp_ms,
            now,
            &mut refused,
        ) {
            Ok(others) => rest = others,
            Err(refusal) => return (place, Err(refusal)),
        }
    }
    (lengths.len(), Ok(()))
}

/// Accepts the value at the front of the bytes: what stands behind it. Where it is refused, its record is put into `refused`.
#[inline]
fn send_first<'a>(
    alloc: Global,
    embed: &mut Embed,
    target: Target,
    bytes: &'a [u8],
    length: u64,
    timestamp_ms: i64,
    now: u64,
    refused: &mut Option<Record>,
) -> Result<&'a [u8], Refusal>
    ensures accepts { OnOk result (AcceptsValue timestamp_ms now target (take length bytes.now) embed.old embed.new) }
    ensures rest { IfOk result (λ rest. rest.now ≡ drop length bytes.now) }
    ensures refused { OnErr result (embed.new ≡ embed.old) }
{
    let Some((value, rest)) = front_of(bytes, length) else {
        return Err(Refusal::Lengths);
    };
    let headers = Seq::new(Vec::new(alloc));
    match record_of(alloc, timestamp_ms, false, &[], true, value, headers) {
        Err(refusal) => Err(refusal),
        Ok(body) => match embed.send_or_refuse(target, body, now, refused) {
            Ok(_ticket) => Ok(rest),
            Err(fault) => Err(Refusal::Send(fault)),
        },
    }
}
