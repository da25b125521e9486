//! Plays cases of the sender core: of a producer of the topic "t" as the client "kp", whose first producer id is 1000
//! (KIP-98, and the producer configurations of Kafka's documentation). What calls answer is told as Rust's `Debug` has it. The
//! cases of `tools/sends` have text in the place of bytes and numbers (`tools/sends_cases.py`). The steps:
//!
//! - `core` and 13 numbers: the core is made, of so many partitions and senders, with this correlation id for its first
//!   request, with audits or without (`true`), and with these values of the configuration, in its order; the clock shows 0.
//!   `asked` is what it was made of.
//! - `now MOMENT`: the clock shows this moment.
//! - `append SENDER PARTITION NUMBER BATCH`: an item, accepted now, is appended, with the last record of this batch. `may`
//!   has the same words, and is whether it may be appended.
//! - `send` or `send NODE`: the next request to node 0, or to this one. `hear CONTENT`: a reply is heard.
//! - `tick` and `drop`, with a node or without: the time is looked at, the connection is lost. `lead PARTITION NODE`: the
//!   node leads the partition. `close`, `flush` and `end`.
//! - `fetch SENDER`: the oldest of what the sender is told.
//! - `list CALL`: one of the calls above joins a list; `make-all`: the calls of the list are made.
//! - `keep`: the core is kept; `unchanged`: whether it is as it was then.
//! - `audit PARTITION`: the runs that were handed over; `ids PARTITION`: its producer ids.
//! - `counts`, `used`, `untold`, `due`, `flushed`, `closing` and `ended`.
//!
//! Where no request goes out, or no reply is heard, the core has to be as it was; else the answer says so. Where memory is
//! refused to a call, the core and the item that comes back have to be as they were, and the call is made once more.

mod answer;
mod item;
mod scene;
mod setting;

use kp_cases::{StepFault, Words};
use scene::Scene;
use std::alloc::Global;

/// The core of a case, once it is made.
#[derive(Drop)]
pub(crate) struct CorePlayer {
    alloc: Global,
    scene: Option<Scene>,
}

impl CorePlayer {
    pub(crate) fn new(alloc: Global) -> CorePlayer {
        CorePlayer { alloc, scene: None }
    }
}

impl CorePlayer {
    /// Begins a case: nothing is left of the one before.
    pub(crate) fn begin(&mut self) {
        self.scene = None;
    }

    /// Plays a step.
    pub(crate) fn play(
        &mut self,
        step: &str,
        words: &mut Words<'_>,
        came: &mut String,
    ) -> Result<(), StepFault> {
        if step == "core" {
            self.scene = Some(Scene::open(self.alloc, words)?);
            return Ok(());
        }
        match &mut self.scene {
            None => Err(StepFault::CannotBe("there is no core")),
            Some(scene) => scene.play(step, words, came),
        }
    }
}
