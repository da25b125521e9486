//! Items that go through a sender core: appended, sent, answered and told of.

ghost use Rattle.std.specs.Prelude.{◌<◌};

use crate::samples::{CONFIG, item_of};
use kp_accum::Item;
use kp_core::{Core, Names, Outcome};
use kp_frames::{
    PartitionProduceResponse, ProduceResponse, Response, ResponseBody, TopicProduceResponse,
    write_response,
};
use kp_wire::{Seq, Text};
use std::alloc::{AllocError, Global};

/// How many of the items make a full batch.
const BATCH: u32 = 148;

/// How many partitions a core has of which none, or only a few, have something to do.
const PARTITIONS: u32 = 1024;

/// How many partitions have something to do, where only a few have.
const BUSY: u32 = 4;

/// When the items' requests go out, and when their reports are fetched.
#[derive(Clone, Copy, PartialEq, Eq)]
pub(crate) enum Course {
    /// Each round of items is sent, answered and fetched before the next is appended.
    ByRounds,
    /// All items are appended before the first request goes out.
    Queued,
    /// No report is fetched before the last answer.
    Unfetched,
}

/// Items of these senders in turn, for these partitions in turn. A round of them is a full batch for each partition.
#[derive(Clone, Copy)]
pub(crate) struct Plan {
    pub(crate) senders: u32,
    pub(crate) partitions: u32,
    pub(crate) items: u32,
    pub(crate) course: Course,
}

impl Plan {
    /// How many items a round has.
    fn round(self) -> u32
        ensures { 0 < result }
    {
        self.partitions.saturating_mul(BATCH).max(1)
    }

    /// The item with this number, of all of them.
    fn item(self, alloc: Global, number: u32) -> Result<Item, AllocError> {
        let sender = number.checked_rem(self.senders).ok_or(AllocError)?;
        let partition = number.checked_rem(self.partitions).ok_or(AllocError)?;
        let earlier = number.checked_div(self.senders).ok_or(AllocError)?;
        item_of(alloc, sender, partition, earlier)
    }
}

/// A core for the topic "t" and the client "kp", under the producer id 1000, which keeps no audits.
fn core_of(alloc: Global, partitions: u32, senders: u32) -> Result<Core, AllocError> {
    let names = Names {
        topic: Text::from_str(alloc, "t")?,
        client: Text::from_str(alloc, "kp")?,
    };
    if CONFIG.check().is_err()
        || names.topic.len() > 249
        || names.client.len() > 249
        || partitions == 0
        || partitions > 1024
        || senders == 0
        || senders > 64
    {
        return Err(AllocError);
    }
    Core::new(alloc, CONFIG, names, partitions, senders, 1000, 2, false)
}

/// The answers for the first so many partitions: each batch stands in its partition's log from this offset on.
fn entries_of(
    alloc: Global,
    partitions: u32,
    offset: u32,
) -> Result<Vec<PartitionProduceResponse>, AllocError> {
    let mut entries = Vec::with_capacity(alloc, partitions as usize)?;
    for partition in 0..partitions {
        entries.push(PartitionProduceResponse {
            partition: i32::try_from(partition).map_err(|_| AllocError)?,
            error_code: 0,
            base_offset: i64::from(offset),
            log_append_time_ms: -1,
        })?;
    }
    Ok(entries)
}

/// The topic, with these answers.
fn topics_of(
    alloc: Global,
    partitions: u32,
    offset: u32,
) -> Result<Vec<TopicProduceResponse>, AllocError> {
    let mut topics = Vec::with_capacity(alloc, 1)?;
    topics.push(TopicProduceResponse {
        topic: Text::from_str(alloc, "t")?,
        partitions: Seq::new(entries_of(alloc, partitions, offset)?),
    })?;
    Ok(topics)
}

/// The content of the answer to the request with this correlation id, for the first so many partitions: each batch
/// stands in its partition's log from this offset on.
fn answer_of(
    alloc: Global,
    correlation: u32,
    partitions: u32,
    offset: u32,
) -> Result<Vec<u8>, AllocError> {
    let correlation = i32::try_from(correlation).map_err(|_| AllocError)?;
    let response = Response {
        correlation,
        body: ResponseBody::Produce(ProduceResponse {
            topics: Seq::new(topics_of(alloc, partitions, offset)?),
            throttle_time_ms: 0,
        }),
    };
    write_response(alloc, &response).map_err(|_| AllocError)
}

fn append(core: &mut Core, item: Item) -> Result<(), AllocError> {
    if !core.may_append(&item) {
        return Err(AllocError);
    }
    core.append(item).map_err(|_| AllocError)
}

/// The items with these numbers are appended.
fn append_all(
    alloc: Global,
    core: &mut Core,
    plan: Plan,
    first: u32,
    end: u32,
) -> Result<(), AllocError> {
    for number in first..end {
        append(core, plan.item(alloc, number)?)?;
    }
    Ok(())
}

/// The correlation id of the request that goes out, and how many bytes it has.
fn send(core: &mut Core) -> Result<(u32, u64), AllocError> {
    match core.next_request(0, 0) {
        Ok(Some(outgoing)) => Ok((outgoing.correlation, outgoing.bytes.len() as u64)),
        _ => Err(AllocError),
    }
}

/// Hears the content of a reply to a request in flight.
fn hear(core: &mut Core, content: &[u8]) -> Result<(), AllocError> {
    match core.on_reply(content, 0) {
        Ok(replied) if replied.known => Ok(()),
        _ => Err(AllocError),
    }
}

/// A request goes out for the first so many partitions, and is answered. The answer is how many bytes it has.
fn send_round(
    alloc: Global,
    core: &mut Core,
    partitions: u32,
    offset: u32,
) -> Result<u64, AllocError> {
    let (correlation, bytes) = send(core)?;
    let frame = answer_of(alloc, correlation, partitions, offset)?;
    hear(core, frame.get(4..).unwrap_or(&[]))?;
    Ok(bytes)
}

/// The offset that the sender is told of its oldest item that it was not told of.
fn fetch(core: &mut Core, sender: u32) -> Option<u64> {
    if sender as usize >= core.senders() {
        return None;
    }
    match core.next_report(sender)?.outcome {
        Outcome::Delivered(offset) => u64::try_from(offset).ok(),
        _ => None,
    }
}

/// The sum of the offsets that the sender is told, of so many items at most.
fn fetch_line(core: &mut Core, sender: u32, items: u32) -> u64 {
    let mut sum = 0u64;
    for _ in 0..items {
        match fetch(core, sender) {
            Some(offset) => sum = sum.wrapping_add(offset),
            None => return sum,
        }
    }
    sum
}

/// The same of all senders.
fn fetch_all(core: &mut Core, plan: Plan) -> u64 {
    let mut sum = 0u64;
    for sender in 0..plan.senders {
        sum = sum.wrapping_add(fetch_line(core, sender, plan.items));
    }
    sum
}

/// A round of items goes through the core, from the one with this number on. The answer is the number of bytes that go
/// out and the sum of the offsets that are told.
fn deliver_round(
    alloc: Global,
    core: &mut Core,
    plan: Plan,
    first: u32,
) -> Result<u64, AllocError> {
    let end = first.saturating_add(plan.round()).min(plan.items);
    if plan.course != Course::Queued {
        append_all(alloc, core, plan, first, end)?;
    }
    let partitions = plan.partitions.min(end.saturating_sub(first));
    let offset = first.checked_div(plan.partitions).ok_or(AllocError)?;
    let sum = send_round(alloc, core, partitions, offset)?;
    if plan.course == Course::Unfetched {
        return Ok(sum);
    }
    Ok(sum.wrapping_add(fetch_all(core, plan)))
}

/// All items go through the core. The answer is the number of bytes that go out and the sum of the offsets that are told.
fn deliver(alloc: Global, core: &mut Core, plan: Plan) -> Result<u64, AllocError> {
    if plan.course == Course::Queued {
        append_all(alloc, core, plan, 0, plan.items)?;
    }
    let mut sum = 0u64;
    for first in (0..plan.items).step_by(plan.round() as usize) {
        sum = sum.wrapping_add(deliver_round(alloc, core, plan, first)?);
    }
    sum = sum.wrapping_add(fetch_all(core, plan));
    Ok(sum.wrapping_add(core.untold()))
}

/// So many items go through a core, none of which is left in it. The answer is the number of bytes that go out and the
/// sum of the offsets that are told.
pub(crate) fn delivers(alloc: Global, plan: Plan) -> Result<u64, AllocError> {
    let mut core = core_of(alloc, plan.partitions, plan.senders)?;
    deliver(alloc, &mut core, plan)
}

/// How many of so many ticks tell nothing, where nothing was appended.
pub(crate) fn ticks(alloc: Global, times: u32) -> Result<u64, AllocError> {
    let mut core = core_of(alloc, PARTITIONS, 1)?;
    let mut sum = 0u64;
    for _ in 0..times {
        sum = sum.wrapping_add(u64::from(tells_nothing(&mut core)));
    }
    Ok(sum)
}

fn tells_nothing(core: &mut Core) -> bool {
    core.tick(0, 0).reports == 0
}

/// How many of so many requests do not go out, where nothing was appended.
pub(crate) fn asks_in_vain(alloc: Global, times: u32) -> Result<u64, AllocError> {
    let mut core = core_of(alloc, PARTITIONS, 1)?;
    let mut sum = 0u64;
    for _ in 0..times {
        sum = sum.wrapping_add(u64::from(sends_nothing(&mut core)));
    }
    Ok(sum)
}

fn sends_nothing(core: &mut Core) -> bool {
    match core.next_request(0, 0) {
        Ok(None) => true,
        _ => false,
    }
}

/// How often it is asked in vain, after a tick that tells nothing, when the core is next to be looked at, where nothing was
/// appended.
pub(crate) fn asks_when(alloc: Global, times: u32) -> Result<u64, AllocError> {
    let mut core = core_of(alloc, PARTITIONS, 1)?;
    let mut sum = 0u64;
    for _ in 0..times {
        let is_vain = tells_nothing(&mut core) && core.next_due().is_none();
        sum = sum.wrapping_add(u64::from(is_vain));
    }
    Ok(sum)
}

/// Of how many partitions a core has of which `BUSY` have something to do.
#[derive(Clone, Copy)]
pub(crate) enum Among {
    /// No more than those.
    Few,
    /// As many as `PARTITIONS`.
    Many,
}

impl Among {
    fn partitions(self) -> u32 {
        match self {
            Among::Few => BUSY,
            Among::Many => PARTITIONS,
        }
    }
}

/// So many requests go out, of a batch with one item for each of the partitions that have something to do, and each is lost
/// with its connection. The answer is the number of bytes that go out.
pub(crate) fn asks_again(alloc: Global, among: Among, times: u32) -> Result<u64, AllocError> {
    let mut core = filled_core(alloc, among)?;
    ask_all(&mut core, times)
}

/// A core of which a few partitions, spread over all, have an item.
fn filled_core(alloc: Global, among: Among) -> Result<Core, AllocError> {
    let mut core = core_of(alloc, among.partitions(), 1)?;
    fill(alloc, &mut core, among.partitions() / BUSY)?;
    Ok(core)
}

/// Appends an item for a few partitions, with so many from each to the next.
fn fill(alloc: Global, core: &mut Core, step: u32) -> Result<(), AllocError> {
    for busy in 0..BUSY {
        append(core, item_of(alloc, 0, busy.wrapping_mul(step), busy)?)?;
    }
    Ok(())
}

/// So many requests go out, and each is lost. The answer is the number of bytes that go out.
fn ask_all(core: &mut Core, times: u32) -> Result<u64, AllocError> {
    let mut sum = 0u64;
    for time in 0..times {
        sum = sum.wrapping_add(ask_again(core, u64::from(time))?);
    }
    Ok(sum)
}

/// A request goes out and is lost, so long after the backoff of the one before it that it is ready. How many bytes it has.
fn ask_again(core: &mut Core, time: u64) -> Result<u64, AllocError> {
    let now = time.wrapping_mul(CONFIG.retry_backoff_ms);
    let bytes = match core.next_request(0, now) {
        Ok(Some(outgoing)) => outgoing.bytes.len() as u64,
        _ => return Err(AllocError),
    };
    core.on_disconnect(0, now);
    Ok(bytes)
}

/// How many of so many ticks tell nothing, where a few partitions have an item.
pub(crate) fn ticks_again(alloc: Global, among: Among, times: u32) -> Result<u64, AllocError> {
    let mut core = filled_core(alloc, among)?;
    let mut sum = 0u64;
    for _ in 0..times {
        sum = sum.wrapping_add(u64::from(tells_nothing(&mut core)));
    }
    Ok(sum)
}
