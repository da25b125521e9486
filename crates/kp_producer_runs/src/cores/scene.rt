//! A core, and what the steps of a case do with it.

use crate::cores::answer::{does_nothing, is_refused, item_back, item_in};
use crate::cores::item::item_of;
use crate::cores::setting::core_of;
use kp_cases::{StepFault, Words, put, put_debug, refused, seen_of};
use kp_core::{Answered, Asked, Core};
use kp_wire::Blob;
use std::alloc::Global;
use std::mem;

/// A core, the clock, and what a case keeps of it.
#[derive(Drop)]
pub(crate) struct Scene {
    alloc: Global,
    core: Core,
    now: u64,
    /// The core as it was, by what it showed of itself.
    kept: u64,
    /// The calls that are to be made from a list.
    listed: Vec<Asked>,
}

impl Scene {
    pub(crate) fn open(alloc: Global, words: &mut Words<'_>) -> Result<Scene, StepFault> {
        Ok(Scene {
            alloc,
            core: core_of(alloc, words)?,
            now: 0,
            kept: 0,
            listed: Vec::new(alloc),
        })
    }

    /// Plays a step.
    pub(crate) fn play(
        &mut self,
        step: &str,
        words: &mut Words<'_>,
        came: &mut String,
    ) -> Result<(), StepFault> {
        match step {
            "now" => {
                self.now = words.number()?;
                Ok(())
            }
            "fetch" => self.fetch(words.number()?, came),
            "list" => self.list(words),
            "make-all" => self.make_all(came),
            "keep" => {
                self.kept = seen_of(&self.core);
                Ok(())
            }
            _ => self.call_or_look(step, words, came),
        }
    }

    /// The call that a step makes, if it makes one.
    fn asked(&self, step: &str, words: &mut Words<'_>) -> Result<Option<Asked>, StepFault> {
        Ok(Some(match step {
            "append" => Asked::Append(item_of(self.alloc, self.now, words)?),
            "send" => Asked::Request(node_of(words)?, self.now),
            "hear" => Asked::Reply(Blob::new(words.rest_bytes()?), self.now),
            "tick" => Asked::Tick(node_of(words)?, self.now),
            "drop" => Asked::Disconnect(node_of(words)?, self.now),
            "lead" => Asked::Lead(words.number()?, words.number()?, self.now),
            "close" => Asked::Close,
            "flush" => Asked::Flush,
            "end" => Asked::End,
            "fetch" => Asked::Fetch(words.number()?),
            _ => return Ok(None),
        }))
    }

    /// A step that is a call, or else one that looks at the core.
    fn call_or_look(
        &mut self,
        step: &str,
        words: &mut Words<'_>,
        came: &mut String,
    ) -> Result<(), StepFault> {
        match self.asked(step, words)? {
            Some(asked) => self.call(asked, came),
            None => self.look(step, words, came),
        }
    }

    /// Makes the call, unless it appends what may not be appended.
    fn call(&mut self, asked: Asked, came: &mut String) -> Result<(), StepFault> {
        if let Asked::Append(item) = &asked
            && !self.core.may_append(item)
        {
            return Err(StepFault::CannotBe("an item that may not be appended"));
        }
        let (core, item) = (seen_of(&self.core), item_in(&asked));
        let answer = self.core.make(asked);
        self.tell_call(&answer, core, item, came)
    }

    /// Tells what a call has answered, before which the core and the item that it appends showed this of themselves.
    fn tell_call(
        &self,
        answer: &Answered,
        core: u64,
        item: Option<u64>,
        came: &mut String,
    ) -> Result<(), StepFault> {
        let is_same = seen_of(&self.core) == core;
        if is_refused(answer) {
            return Err(refused(is_same && item_back(answer) == item));
        }
        self.tell_answer(answer, came)?;
        if does_nothing(answer) && !is_same {
            came.push_str(", and the core has changed")?;
        }
        Ok(())
    }

    /// Tells what a call has answered, and again where memory was refused to that, since the call was made.
    fn tell_answer(&self, answer: &Answered, came: &mut String) -> Result<(), StepFault> {
        match put_debug(came, answer) {
            Err(StepFault::OutOfMemory) => {
                came.clear();
                put_debug(came, answer)
            }
            told => told,
        }
    }

    /// Tells the sender's oldest report.
    fn fetch(&mut self, sender: u32, came: &mut String) -> Result<(), StepFault> {
        let answer = self.core.make(Asked::Fetch(sender));
        self.tell_answer(&answer, came)
    }

    fn list(&mut self, words: &mut Words<'_>) -> Result<(), StepFault> {
        let step = words.word()?;
        let asked = self.asked(step, words)?.ok_or(StepFault::NotUnderstood)?;
        Ok(self.listed.push(asked)?)
    }

    /// Makes the calls of the list.
    fn make_all(&mut self, came: &mut String) -> Result<(), StepFault> {
        let listed = mem::replace(&mut self.listed, Vec::new(self.alloc));
        let answers = self.core.make_all(listed)?;
        put_debug(came, &answers)
    }

    /// A step that looks at the core.
    fn look(&self, step: &str, words: &mut Words<'_>, came: &mut String) -> Result<(), StepFault> {
        let core = &self.core;
        match step {
            "counts" => self.count(came),
            "used" => put(came, &core.used()),
            "untold" => put(came, &core.untold()),
            "due" => put_debug(came, &core.next_due()),
            "flushed" => put(came, &core.flushed()),
            "closing" => put(came, &core.is_closing()),
            "ended" => put(came, &core.has_ended()),
            "unchanged" => put(came, &(seen_of(core) == self.kept)),
            _ => self.look_at(step, words, came),
        }
    }

    /// A step that looks at what its words say, or at all that the core was asked to be.
    fn look_at(
        &self,
        step: &str,
        words: &mut Words<'_>,
        came: &mut String,
    ) -> Result<(), StepFault> {
        match step {
            "asked" => self.tell_asked(came),
            "may" => self.tell_may(words, came),
            "ids" => self.tell_ids(words.number()?, came),
            "audit" => self.tell_audit(words.number()?, came),
            _ => Err(StepFault::NotUnderstood),
        }
    }

    fn count(&self, came: &mut String) -> Result<(), StepFault> {
        let core = &self.core;
        Ok(write!(
            came,
            "requests {} batches {} handed over {} attempts {} untold {} used {}",
            core.requests_in_flight(),
            core.batches_in_flight(),
            core.batches_handed_over(),
            core.attempts_sent(),
            core.untold(),
            core.used()
        )?)
    }

    fn tell_asked(&self, came: &mut String) -> Result<(), StepFault> {
        let core = &self.core;
        write!(
            came,
            "partitions {} senders {} {:?}",
            core.partitions(),
            core.senders(),
            core.config()
        )?;
        Ok(())
    }

    fn tell_may(&self, words: &mut Words<'_>, came: &mut String) -> Result<(), StepFault> {
        let item = item_of(self.alloc, self.now, words)?;
        put(came, &self.core.may_append(&item))
    }

    fn tell_ids(&self, partition: u32, came: &mut String) -> Result<(), StepFault> {
        if partition as usize >= self.core.partitions() {
            return Err(StepFault::CannotBe("no such partition"));
        }
        put_debug(came, &self.core.ids(partition))
    }

    fn tell_audit(&self, partition: u32, came: &mut String) -> Result<(), StepFault> {
        if partition as usize >= self.core.partitions() {
            return Err(StepFault::CannotBe("no such partition"));
        }
        put_debug(came, &self.core.audit(partition))
    }
}

/// The node of a step: the next word, or node 0 where there is none.
fn node_of(words: &mut Words<'_>) -> Result<u32, StepFault> {
    if words.is_empty() {
        return Ok(0);
    }
    words.number()
}
