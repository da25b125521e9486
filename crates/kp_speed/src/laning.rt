//! Records that go through a lane, from a sender to the intake, and reports that go back; and items that go through a
//! bare ring.

use crate::samples::{item_of, record_of};
use kp_accum::Item;
use kp_lanes::{Intake, Sender, Target, open_lanes};
use kp_rules::{Outcome, Report};
use rtrb::{Consumer, Producer, RingBuffer};
use std::alloc::{AllocError, Global};
use std::mem;

/// How many records are sent before as many are taken.
const ROUND: u32 = 256;

/// How many places a lane and a ring have: more than a round needs.
const CAPACITY: usize = 512;

/// The most places that a lane may have.
const MOST: usize = 65536;

const PARTITIONS: u32 = 64;

/// More than a record takes.
const MAX_RECORD: u64 = 1_000_000;

/// One sender, and the intake, with so many places between them.
fn lane_of(alloc: Global, capacity: usize) -> Result<(Sender, Intake), AllocError> {
    let Ok((mut senders, intake, _closer)) = open_lanes(alloc, 1, capacity, PARTITIONS, MAX_RECORD)
    else {
        return Err(AllocError);
    };
    let sender = senders.pop().ok_or(AllocError)?;
    Ok((sender, intake))
}

/// Sends a record, round robin. The answer is its number in its partition.
fn send(alloc: Global, sender: &mut Sender) -> Result<u64, AllocError> {
    match sender.send(Target::Auto, record_of(alloc)?, 0) {
        Ok(ticket) => Ok(ticket.number),
        Err(_) => Err(AllocError),
    }
}

/// Takes the next item and drops it. The answer is its number.
fn take(intake: &mut Intake) -> Option<u64> {
    if intake.senders() == 0 {
        return None;
    }
    match intake.take(0) {
        Some(item) => Some(item.number),
        None => None,
    }
}

fn report(intake: &mut Intake, number: u64) -> Result<(), AllocError> {
    if intake.senders() == 0 {
        return Err(AllocError);
    }
    let report = Report {
        sender: 0,
        partition: 0,
        number,
        outcome: Outcome::Delivered(0),
    };
    intake.report(report).map_err(|_| AllocError)
}

/// So many records made, each dropped before the next is made. The answer is the number of bytes of their values.
pub(crate) fn records(alloc: Global, times: u32) -> Result<u64, AllocError> {
    let mut sum = 0u64;
    for _ in 0..times {
        let record = record_of(alloc)?;
        sum = sum.wrapping_add(record.value.as_ref().map_or(0, |value| value.len() as u64));
    }
    Ok(sum)
}

/// The same, where none is ever dropped.
pub(crate) fn loses(alloc: Global, times: u32) -> Result<u64, AllocError> {
    let mut sum = 0u64;
    for _ in 0..times {
        let record = record_of(alloc)?;
        sum = sum.wrapping_add(record.value.as_ref().map_or(0, |value| value.len() as u64));
        mem::forget(record);
    }
    Ok(sum)
}

/// Sends so many records. The answer is the sum of their numbers.
fn send_all(alloc: Global, sender: &mut Sender, times: u32) -> Result<u64, AllocError> {
    let mut sum = 0u64;
    for _ in 0..times {
        sum = sum.wrapping_add(send(alloc, sender)?);
    }
    Ok(sum)
}

/// So many records sent, of which none is taken, and none dropped, even at the end. The answer is the sum of their
/// numbers.
pub(crate) fn sends(alloc: Global, times: u32) -> Result<u64, AllocError> {
    let (mut sender, intake) = lane_of(alloc, MOST)?;
    let sum = send_all(alloc, &mut sender, times);
    mem::forget(sender);
    mem::forget(intake);
    sum
}

/// So many records made, sent, taken and dropped, one after the other.
fn pass_each(
    alloc: Global,
    sender: &mut Sender,
    intake: &mut Intake,
    times: u32,
) -> Result<u64, AllocError> {
    let mut sum = 0u64;
    for _ in 0..times {
        let _number = send(alloc, sender)?;
        sum = sum.wrapping_add(take(intake).ok_or(AllocError)?);
    }
    Ok(sum)
}

/// So many records made, sent, taken and dropped, one after the other. The answer is the sum of their numbers.
pub(crate) fn passes(alloc: Global, times: u32) -> Result<u64, AllocError> {
    let (mut sender, mut intake) = lane_of(alloc, CAPACITY)?;
    pass_each(alloc, &mut sender, &mut intake, times)
}

/// So many records made and sent, and then taken and dropped.
fn pass_round(
    alloc: Global,
    sender: &mut Sender,
    intake: &mut Intake,
    times: u32,
) -> Result<u64, AllocError> {
    for _ in 0..times {
        let _number = send(alloc, sender)?;
    }
    let mut sum = 0u64;
    for _ in 0..times {
        sum = sum.wrapping_add(take(intake).ok_or(AllocError)?);
    }
    Ok(sum)
}

/// So many records made, sent, taken and dropped, in rounds.
fn pass_rounds(
    alloc: Global,
    sender: &mut Sender,
    intake: &mut Intake,
    times: u32,
) -> Result<u64, AllocError> {
    let mut sum = 0u64;
    for first in (0..times).step_by(ROUND as usize) {
        let round = times.saturating_sub(first).min(ROUND);
        sum = sum.wrapping_add(pass_round(alloc, sender, intake, round)?);
    }
    Ok(sum)
}

/// So many records made, sent, taken and dropped, in rounds. The answer is the sum of their numbers.
pub(crate) fn passes_by_rounds(alloc: Global, times: u32) -> Result<u64, AllocError> {
    let (mut sender, mut intake) = lane_of(alloc, CAPACITY)?;
    pass_rounds(alloc, &mut sender, &mut intake, times)
}

fn push(alloc: Global, ring: &mut Producer<Item>, number: u32) -> Result<(), AllocError> {
    ring.push(item_of(alloc, 0, 0, number)?)
        .map_err(|_| AllocError)
}

/// Takes an item out of a ring and drops it. The answer is its number.
fn pop(ring: &mut Consumer<Item>) -> Result<u64, AllocError> {
    match ring.pop() {
        Ok(item) => Ok(item.number),
        Err(_) => Err(AllocError),
    }
}

/// So many items made, put into a ring, taken out and dropped, one after the other.
fn ring_each(
    alloc: Global,
    front: &mut Producer<Item>,
    back: &mut Consumer<Item>,
    times: u32,
) -> Result<u64, AllocError> {
    let mut sum = 0u64;
    for number in 0..times {
        push(alloc, front, number)?;
        sum = sum.wrapping_add(pop(back)?);
    }
    Ok(sum)
}

/// So many items made, put into a ring, taken out and dropped, one after the other. The answer is the sum of their
/// numbers.
pub(crate) fn rings(alloc: Global, times: u32) -> Result<u64, AllocError> {
    let (mut front, mut back) = RingBuffer::new(alloc, CAPACITY)?;
    ring_each(alloc, &mut front, &mut back, times)
}

/// So many items made and put into a ring, and then taken out and dropped.
fn ring_round(
    alloc: Global,
    front: &mut Producer<Item>,
    back: &mut Consumer<Item>,
    first: u32,
    times: u32,
) -> Result<u64, AllocError> {
    for number in first..first.saturating_add(times) {
        push(alloc, front, number)?;
    }
    let mut sum = 0u64;
    for _ in 0..times {
        sum = sum.wrapping_add(pop(back)?);
    }
    Ok(sum)
}

/// So many items made, put into a ring, taken out and dropped, in rounds.
fn ring_rounds(
    alloc: Global,
    front: &mut Producer<Item>,
    back: &mut Consumer<Item>,
    times: u32,
) -> Result<u64, AllocError> {
    let mut sum = 0u64;
    for first in (0..times).step_by(ROUND as usize) {
        let round = times.saturating_sub(first).min(ROUND);
        sum = sum.wrapping_add(ring_round(alloc, front, back, first, round)?);
    }
    Ok(sum)
}

/// So many items made, put into a ring, taken out and dropped, in rounds. The answer is the sum of their numbers.
pub(crate) fn rings_by_rounds(alloc: Global, times: u32) -> Result<u64, AllocError> {
    let (mut front, mut back) = RingBuffer::new(alloc, CAPACITY)?;
    ring_rounds(alloc, &mut front, &mut back, times)
}

/// So many reports handed over and received, one after the other.
fn hear_each(sender: &mut Sender, intake: &mut Intake, times: u32) -> Result<u64, AllocError> {
    let mut sum = 0u64;
    for number in 0..times {
        report(intake, u64::from(number))?;
        let heard = sender.poll_report().ok_or(AllocError)?;
        sum = sum.wrapping_add(heard.number);
    }
    Ok(sum)
}

/// So many reports handed over and received, one after the other. The answer is the sum of their numbers.
pub(crate) fn hears(alloc: Global, times: u32) -> Result<u64, AllocError> {
    let (mut sender, mut intake) = lane_of(alloc, CAPACITY)?;
    hear_each(&mut sender, &mut intake, times)
}

/// How many of so many takes find nothing.
fn take_in_vain(intake: &mut Intake, times: u32) -> Result<u64, AllocError> {
    let mut sum = 0u64;
    for _ in 0..times {
        if intake.senders() == 0 {
            return Err(AllocError);
        }
        sum = sum.wrapping_add(u64::from(intake.take(0).is_none()));
    }
    Ok(sum)
}

/// How many of so many takes find nothing, where nothing was sent.
pub(crate) fn takes_in_vain(alloc: Global, times: u32) -> Result<u64, AllocError> {
    let (_sender, mut intake) = lane_of(alloc, CAPACITY)?;
    take_in_vain(&mut intake, times)
}
