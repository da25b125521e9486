//! Batches that wait, in an accumulator or in the queue of one partition alone.

ghost use Rattle.std.specs.Prelude.{◌<◌, length};

use crate::parts::framing::tell_bytes;
use crate::parts::given::{flags_of, item_of, number_or_zero};
use crate::parts::{PartPlayer, Played};
use kp_accum::{Accum, AppendFault, Config, Item, Pending, Queue};
use kp_batch::SIZE_LIMIT;
use kp_cases::{StepFault, Words, put, refused, seen_of};
use std::alloc::Global;

/// Puts the item last. Where it comes back, the fault is told, and the number of what comes back.
fn append(accum: &mut Accum, item: Item, came: &mut String) -> Played {
    if !accum.may_append(&item) {
        return Err("the item may not be appended".into());
    }
    let before = (seen_of(&*accum), seen_of(&item));
    match accum.append(item) {
        Ok(()) => Ok(()),
        Err((AppendFault::OutOfMemory, back)) => {
            let is_same = (seen_of(&*accum), seen_of(&back)) == before;
            Err(refused(is_same && accum.may_append(&back)))
        }
        Err((fault, back)) => Ok(write!(came, "{fault:?} {}", back.number)?),
    }
}

fn append_to_queue(queue: &mut Queue, config: &Config, item: Item) -> Played {
    let charge = item.charge();
    if config.check() != Ok(()) || charge > SIZE_LIMIT {
        return Err("the item may not be appended".into());
    }
    let mut refused = None;
    Ok(queue.append(config, charge, item, &mut refused)?)
}

/// Tells the numbers of the items.
pub(crate) fn tell_items(items: &[Item], came: &mut String) -> Played {
    for (k, item) in items.iter().enumerate() {
        let blank = if k == 0 { "" } else { " " };
        write!(came, "{blank}{}", item.number)?;
    }
    Ok(())
}

/// Tells the numbers of a batch's items, or that there is no batch.
fn tell_batch(batch: Option<&Pending>, came: &mut String) -> Played {
    match batch {
        Some(batch) => tell_items(batch.items(), came),
        None => put(came, &"none"),
    }
}

/// Keeps a batch that was taken, and tells it.
fn keep(taken: &mut Option<Pending>, batch: Option<Pending>, came: &mut String) -> Played {
    *taken = batch;
    tell_batch(taken.as_ref(), came)
}

/// Gives back memory that is used.
fn release(accum: &mut Accum, charge: u64) -> Played {
    if charge > accum.used() {
        return Err("so much is not used".into());
    }
    accum.release(charge);
    Ok(())
}

/// Tells the batch at the front of a partition.
fn tell_front(accum: &Accum, partition: u32, came: &mut String) -> Played {
    if partition as usize >= accum.partitions() {
        return Err("there is no such partition".into());
    }
    tell_batch(accum.front(partition), came)
}

/// Tells what is to be seen of an accumulator.
fn look_at(
    alloc: Global,
    accum: &Accum,
    call: &str,
    words: &mut Words<'_>,
    came: &mut String,
) -> Played
    requires { 0 < length accum.now.queues }
{
    match call {
        "may-append" => put(came, &accum.may_append(&item_of(alloc, words)?)),
        "partitions" => put(came, &accum.partitions()),
        "ready" => {
            let now = words.number()?;
            put(came, &accum.front_ready(0, now, flags_of(words)?))
        }
        "front" => tell_front(accum, number_or_zero(words)?, came),
        "used" => put(came, &accum.used()),
        "marked" => put(came, &accum.marked()),
        _ => Err(StepFault::NotUnderstood),
    }
}

/// Tells what is to be seen of a queue.
fn look_at_queue(
    queue: &Queue,
    config: &Config,
    call: &str,
    words: &mut Words<'_>,
    came: &mut String,
) -> Played {
    match call {
        "len" => put(came, &queue.len()),
        "ready" => {
            let now = words.number()?;
            put(came, &queue.is_ready(config, flags_of(words)?, now))
        }
        "front" => tell_batch(queue.front(), came),
        "marked" => put(came, &queue.marked()),
        _ => Err(StepFault::NotUnderstood),
    }
}

impl PartPlayer {
    /// A new accumulator.
    fn open_accum(&mut self, partitions: u32) -> Played {
        if self.config.check() != Ok(()) {
            return Err("the configuration is refused".into());
        }
        self.accum = Some(Accum::new(self.alloc, self.config, partitions)?);
        Ok(())
    }

    /// A call of an accumulator; where it takes a partition, one of partition 0.
    pub(crate) fn play_accum(&mut self, words: &mut Words<'_>, came: &mut String) -> Played {
        let call = words.word()?;
        if call == "new" {
            return self.open_accum(words.number()?);
        }
        let accum = self.accum.as_mut().ok_or(StepFault::NotUnderstood)?;
        if accum.partitions() == 0 {
            return Err("there is no partition".into());
        }
        match call {
            "append" => append(accum, item_of(self.alloc, words)?, came),
            "take" => keep(&mut self.taken, accum.take_front(0), came),
            "expire" => keep(&mut self.taken, accum.expire(0, words.number()?), came),
            "release" => release(accum, words.number()?),
            "mark" => {
                accum.mark();
                Ok(())
            }
            _ => look_at(self.alloc, accum, call, words, came),
        }
    }

    /// A call of a queue alone.
    pub(crate) fn play_queue(&mut self, words: &mut Words<'_>, came: &mut String) -> Played {
        let (queue, config) = (&mut self.queue, &self.config);
        match words.word()? {
            "append" => append_to_queue(queue, config, item_of(self.alloc, words)?),
            "take" => keep(&mut self.taken, queue.take_front(), came),
            "expire" => keep(&mut self.taken, queue.expire(config, words.number()?), came),
            "mark" => {
                queue.mark();
                Ok(())
            }
            call => look_at_queue(queue, config, call, words, came),
        }
    }

    /// Tells of the batch that was taken last.
    pub(crate) fn tell_taken(&self, came: &mut String) -> Played {
        let batch = self.taken.as_ref().ok_or("no batch was taken")?;
        write!(came, "size {} charge {}", batch.size(), batch.charge())?;
        write!(
            came,
            " begun {} marked {}",
            batch.begun(),
            batch.is_marked()
        )?;
        Ok(())
    }

    /// Tells the values of its items.
    pub(crate) fn tell_values(&self, came: &mut String) -> Played {
        let batch = self.taken.as_ref().ok_or("no batch was taken")?;
        for (k, item) in batch.items().iter().enumerate() {
            came.push_str(if k == 0 { "" } else { " " })?;
            let value = item.body.value.as_ref().ok_or("an item without a value")?;
            tell_bytes(value.as_slice(), came)?;
        }
        Ok(())
    }

    /// Tells the items that this batch gives.
    pub(crate) fn tell_given(&mut self, came: &mut String) -> Played {
        let batch = self.taken.take().ok_or("no batch was taken")?;
        tell_items(&batch.into_items(), came)
    }
}
