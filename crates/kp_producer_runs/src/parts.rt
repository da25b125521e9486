//! Plays what waits in an accumulator or a queue, and what a partition sends of it: with settings, items, the memory that
//! they take, and requests as bytes.

mod framing;
mod given;
mod memory;
mod sending;
mod waiting;

use given::{flags_of, item_of, value_of};
use kp_accum::{Accum, Budget, Config, Pending, Queue};
use kp_cases::{StepFault, Words, put, put_debug};
use kp_parts::Partition;
use kp_rules::{ErrorCode, meaning_of};
use std::alloc::Global;

/// How a step ends, when it has written what it came to.
type Played = Result<(), StepFault>;

/// What a case is about.
#[derive(Drop)]
pub(crate) struct PartPlayer {
    alloc: Global,
    config: Config,
    accum: Option<Accum>,
    queue: Queue,
    /// The batch that was taken last, from the accumulator or the queue.
    taken: Option<Pending>,
    partition: Option<Partition>,
    budget: Budget,
}

impl PartPlayer {
    pub(crate) fn new(alloc: Global) -> PartPlayer {
        PartPlayer {
            alloc,
            config: Config::default(),
            accum: None,
            queue: Queue::new(alloc),
            taken: None,
            partition: None,
            budget: Budget::new(0),
        }
    }

    /// Tells what settings, flags and items come to.
    fn look_at(&mut self, step: &str, words: &mut Words<'_>, came: &mut String) -> Played {
        match step {
            "setting" => put(came, &*value_of(&mut self.config, words.word()?)?),
            "flags" => put_debug(came, &flags_of(words)?),
            "pressed" => put(came, &flags_of(words)?.is_pressed()),
            "charge" => put(came, &item_of(self.alloc, words)?.charge()),
            _ => Err(StepFault::NotUnderstood),
        }
    }
}

impl PartPlayer {
    /// Begins a case: nothing is left of the one before.
    pub(crate) fn begin(&mut self) {
        *self = PartPlayer::new(self.alloc);
    }

    /// Plays a step.
    pub(crate) fn play(&mut self, step: &str, words: &mut Words<'_>, came: &mut String) -> Played {
        match step {
            "config" => self.set(words, came),
            "copy" => self.tell_copy(words, came),
            "accum" => self.play_accum(words, came),
            "queue" => self.play_queue(words, came),
            "taken" => self.tell_taken(came),
            "values" => self.tell_values(came),
            "into-items" => self.tell_given(came),
            "partition" => self.play_partition(words, came),
            "budget" => self.play_budget(words, came),
            "desk" => self.tell_desk(words, came),
            "data" => self.tell_data(words, came),
            "produce" => self.tell_request(words, came),
            "init-producer-id" => self.tell_id_request(words, came),
            "code" => tell_code(words.number()?, came),
            _ => self.look_at(step, words, came),
        }
    }
}

/// What Kafka calls an error code, where the list has it, and what it means for a batch.
fn tell_code(number: i16, came: &mut String) -> Played {
    match ErrorCode::of(number) {
        None => write!(came, "none {:?}", meaning_of(number))?,
        Some(code) => write!(came, "{} {:?}", code.name, code.meaning)?,
    }
    Ok(())
}
