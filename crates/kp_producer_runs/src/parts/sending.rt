//! What a partition sends, and what it waits for.

use crate::parts::given::item_of;
use crate::parts::waiting::tell_items;
use crate::parts::{PartPlayer, Played};
use kp_accum::{Config, Flags, Item};
use kp_batch::SIZE_LIMIT;
use kp_cases::{StepFault, Words, put, put_debug};
use kp_parts::{HandedBatch, Partition};
use std::alloc::Global;

fn enqueue(partition: &mut Partition, config: &Config, item: Item) -> Played {
    let charge = item.charge();
    if config.check() != Ok(()) || charge > SIZE_LIMIT {
        return Err("the item may not be appended".into());
    }
    let mut refused = None;
    Ok(partition.enqueue(config, charge, item, &mut refused)?)
}

/// What it may send goes out in this request.
fn send(partition: &mut Partition, correlation: u32) -> Played {
    if !partition.has_place() {
        return Err("no batch more may go out".into());
    }
    partition.send_in(correlation);
    Ok(())
}

/// Tells the batch that goes out, if one does: its producer id, its first sequence number, and the numbers of its items.
fn tell_handed(handed: Option<HandedBatch<'_>>, came: &mut String) -> Played {
    let Some(batch) = handed else {
        return put(came, &"none");
    };
    write!(
        came,
        "id {} sequence {} items ",
        batch.id(),
        batch.sequence()
    )?;
    tell_items(batch.items(), came)
}

/// What befalls a partition, or what is told of it.
fn change(
    alloc: Global,
    partition: &mut Partition,
    config: &Config,
    call: &str,
    words: &mut Words<'_>,
    came: &mut String,
) -> Played {
    match call {
        "append" => enqueue(partition, config, item_of(alloc, words)?)?,
        "send" => send(partition, words.number()?)?,
        "drop-attempts" => partition.drop_attempts(words.number()?),
        "mark" => partition.mark(),
        "go-on-under" => partition.go_on_under(words.number()?)?,
        _ => return look_at(partition, config, call, words, came),
    }
    Ok(())
}

/// Tells what a partition awaits, and what it wants.
fn look_at(
    partition: &Partition,
    config: &Config,
    call: &str,
    words: &mut Words<'_>,
    came: &mut String,
) -> Played {
    match call {
        "awaits" => put(came, &partition.awaits(words.number()?)),
        "awaiting" => {
            let open = partition.awaiting(words.number()?);
            put_debug(came, &open.map(|open| (open.number(), open.begun())))
        }
        "lowest-waiting" => {
            let open = partition.lowest_waiting();
            put_debug(came, &open.map(|open| open.attempt()))
        }
        "has-marks" => put(came, &partition.has_marks()),
        "wants-id" => put(came, &partition.wants_id(config)),
        _ => Err(StepFault::NotUnderstood),
    }
}

impl PartPlayer {
    /// A new partition under this producer id.
    fn open_partition(&mut self, id: u64) -> Played {
        self.partition = Some(Partition::new(self.alloc, id, true)?);
        Ok(())
    }

    /// A call of a partition.
    pub(crate) fn play_partition(&mut self, words: &mut Words<'_>, came: &mut String) -> Played {
        let call = words.word()?;
        if call == "new" {
            return self.open_partition(words.number()?);
        }
        let partition = self.partition.as_mut().ok_or(StepFault::NotUnderstood)?;
        let config = &self.config;
        match call {
            "sends" => tell_handed(
                partition.sends(config, Flags::default(), words.number()?),
                came,
            ),
            _ => change(self.alloc, partition, config, call, words, came),
        }
    }
}
