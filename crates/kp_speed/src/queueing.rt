//! Items that wait in an accumulator, from their append to the release of their memory.

use crate::samples::{CONFIG, item_of};
use kp_accum::{Accum, Item, Pending};
use std::alloc::{AllocError, Global};

/// A moment at which each batch's delivery timeout is over.
const LATE: u64 = 200_000;

/// How batches come out of the accumulator.
#[derive(Clone, Copy, PartialEq, Eq)]
pub(crate) enum Way {
    Taken,
    Expired,
}

fn accum_of(alloc: Global, partitions: u32) -> Result<Accum, AllocError> {
    if CONFIG.check().is_err() {
        return Err(AllocError);
    }
    Accum::new(alloc, CONFIG, partitions)
}

/// The item with this number, of those that go to so many partitions in turn.
fn item_in_turn(alloc: Global, partitions: u32, number: u32) -> Result<Item, AllocError> {
    let partition = number.checked_rem(partitions).ok_or(AllocError)?;
    item_of(alloc, 0, partition, number)
}

/// So many lists, each with room for so many items.
fn lists_of(alloc: Global, count: u32, room: u32) -> Result<Vec<Vec<Item>>, AllocError> {
    let mut lists = Vec::with_capacity(alloc, count as usize)?;
    for _ in 0..count {
        lists.push(Vec::with_capacity(alloc, room as usize)?)?;
    }
    Ok(lists)
}

/// Makes so many items, looks at each as it is before an append, and keeps them in turn in the lists. The answer is how many
/// might be appended.
fn make_all(
    alloc: Global,
    accum: &Accum,
    lists: &mut [Vec<Item>],
    partitions: u32,
    times: u32,
) -> Result<u64, AllocError> {
    let mut sum = 0u64;
    for number in 0..times {
        let item = item_in_turn(alloc, partitions, number)?;
        sum = sum.wrapping_add(u64::from(accum.may_append(&item)));
        lists
            .get_mut(item.partition as usize)
            .ok_or(AllocError)?
            .push(item)?;
    }
    Ok(sum)
}

/// So many items made, each looked at as it is before an append, kept in turn in so many lists with room for them, and
/// dropped list by list. It is what the same items cost without an accumulator.
pub(crate) fn makes(alloc: Global, partitions: u32, times: u32) -> Result<u64, AllocError> {
    let accum = accum_of(alloc, partitions)?;
    let each = times.checked_div(partitions).ok_or(AllocError)?;
    let mut lists = lists_of(alloc, partitions, each.saturating_add(1))?;
    make_all(alloc, &accum, &mut lists, partitions, times)
}

/// Appends so many items in turn to so many partitions.
fn append_all(
    alloc: Global,
    accum: &mut Accum,
    partitions: u32,
    times: u32,
) -> Result<(), AllocError> {
    for number in 0..times {
        let item = item_in_turn(alloc, partitions, number)?;
        if !accum.may_append(&item) || accum.append(item).is_err() {
            return Err(AllocError);
        }
    }
    Ok(())
}

/// Takes the batches of a partition, so many at most, and releases their memory. The answer is the number of their bytes.
fn take_all(accum: &mut Accum, partition: u32, most: u32, way: Way) -> u64 {
    let mut sum = 0u64;
    for _ in 0..most {
        let Some(batch) = next_out(accum, partition, way) else {
            break;
        };
        sum = sum.wrapping_add(batch.size());
        release(accum, &batch);
    }
    sum
}

/// Takes the batches of all partitions, of which so many items wait.
fn take_each(accum: &mut Accum, partitions: u32, times: u32, way: Way) -> u64 {
    let mut sum = 0u64;
    for partition in 0..partitions {
        // a batch has an item at least, so there are at most so many
        sum = sum.wrapping_add(take_all(accum, partition, times, way));
    }
    sum
}

/// So many items appended in turn to so many partitions, marked, and taken out again, their memory released. The answer
/// is the number of bytes of their batches.
pub(crate) fn queues(
    alloc: Global,
    partitions: u32,
    times: u32,
    way: Way,
) -> Result<u64, AllocError> {
    let mut accum = accum_of(alloc, partitions)?;
    append_all(alloc, &mut accum, partitions, times)?;
    accum.mark();
    let sum = take_each(&mut accum, partitions, times, way);
    Ok(
        sum.wrapping_add(accum.used())
            .wrapping_add(accum.marked() as u64),
    )
}

fn next_out(accum: &mut Accum, partition: u32, way: Way) -> Option<Pending> {
    if partition as usize >= accum.partitions() {
        return None;
    }
    match way {
        Way::Taken => accum.take_front(partition),
        Way::Expired => accum.expire(partition, LATE),
    }
}

fn release(accum: &mut Accum, batch: &Pending) {
    if batch.charge() <= accum.used() {
        accum.release(batch.charge());
    }
}
