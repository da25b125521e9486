//! Bytes are fed that were read, and the answers in them are heard.

ghost use Rattle.std.specs.Prelude.{◌≡◌, ◌⊎◌, List, OnOk, OnErr, None, ◌∷◌, []};
ghost use Rattle.kp_embed.specs.Going.{Acts, Stays};
ghost use Rattle.kp_embed.specs.Hearing.{GivesUp, HearsAll, HearsOver, Listens};
ghost use Rattle.kp_embed.specs.Producer.{with_cluster};
ghost use Rattle.kp_rules.specs.Calls.{Call, Reply};
ghost use Rattle.kp_rules.specs.declared.fault.CoreFault.{CoreFault as seen_fault};
ghost use Rattle.kp_rules.specs.declared.ticked.Replied.{Replied as seen_replied};
ghost use Rattle.std.specs.Prelude.{Result};

use crate::embed::Embed;
use crate::fault::Fault;
use crate::line::{Line, Question};
use kp_core::CoreFault;
use kp_rules::Replied;

impl Embed {
    /// Hears bytes that were read from the node. After a fault but `NoConnection` the connection was lost, and is to be closed.
    pub fn feed(&mut self, node: u32, bytes: &[u8], now: u64) -> Result<(), Fault>
        ensures listens { OnOk result (Listens node now self.old bytes.now self.new) }
        ensures refused { OnErr result (Stays self.old self.new ⊎ GivesUp node now self.old self.new) }
        ensures still { self.new.is_closed ≡ self.old.is_closed }
    {
        let Some(mut line) = self.lines.take(node) else {
            return Err(Fault::NoConnection);
        };
        match self.hear_all(node, &mut line, bytes, now) {
            Ok(()) => {
                self.lines.put(node, line);
                Ok(())
            }
            Err(fault) => {
                self.give_up(node, now);
                Err(fault)
            }
        }
    }

    /// Hears the answers that are whole with these bytes.
    fn hear_all(&mut self, node: u32, line: &mut Line, bytes: &[u8], now: u64) -> Result<(), Fault>
        ensures heard { OnOk result (HearsAll now self.old line.old bytes.now self.new line.new) }
        ensures acts { OnErr result ((calls : List Call) × Acts self.old calls self.new) }
        ensures lines { self.new.lines ≡ self.old.lines }
        ensures still { self.new.is_closed ≡ self.old.is_closed }
    {
        if let Err(fault) = line.held.feed(bytes) {
            return Err(Fault::from(fault));
        }
        for _ in 0..u64::MAX {
            match line.held.next_frame() {
                Ok(None) => return Ok(()),
                Ok(Some(content)) => match self.hear(node, line, &content, now) {
                    Ok(()) => {}
                    Err(fault) => return Err(fault),
                },
                Err(fault) => return Err(Fault::from(fault)),
            }
        }
        Ok(())
    }

    /// Hears an answer. Where it is one, the node's failures are forgotten.
    fn hear(&mut self, node: u32, line: &mut Line, content: &[u8], now: u64) -> Result<(), Fault>
        ensures heard { OnOk result (HearsOver now self.old line.old content.now self.new line.new) }
        ensures acts { OnErr result ((calls : List Call) × Acts self.old calls self.new) }
        ensures lines { self.new.lines ≡ self.old.lines }
        ensures still { self.new.is_closed ≡ self.old.is_closed }
    {
        match self.hear_content(line, content, now) {
            Ok(()) => {
                self.cluster.answered(node);
                Ok(())
            }
            Err(fault) => Err(fault),
        }
    }

    /// Hears an answer: to what was asked over the line, or else a reply for the core.
    fn hear_content(&mut self, line: &mut Line, content: &[u8], now: u64) -> Result<(), Fault>
        ensures heard { OnOk result (HearsOver now self.old line.old content.now self.new line.new) }
        ensures acts { OnErr result ((calls : List Call) × Acts self.old calls self.new) }
        ensures lines { self.new.lines ≡ self.old.lines }
        ensures still { self.new.is_closed ≡ self.old.is_closed }
    {
        match line.answered_by(content) {
            None => self.reply(content, now),
            Some(Question::Metadata) => {
                line.question = None;
                self.learn(content, now)
            }
            Some(Question::ProducerId) => {
                line.question = None;
                self.identity.over = None;
                self.open(content, now)
            }
        }
    }

    /// The core hears a reply. Where it tells of no record, a partition's leader may have moved.
    fn reply(&mut self, content: &[u8], now: u64) -> Result<(), Fault>
        ensures heard { OnOk result ((answer : Result seen_replied seen_fault) × Acts self.old (Reply now content.now answer ∷ []) self.new) }
        ensures acts { OnErr result ((calls : List Call) × Acts self.old calls self.new) }
        ensures lines { self.new.lines ≡ self.old.lines }
        ensures still { self.new.is_closed ≡ self.old.is_closed }
    {
        let Some(core) = &mut self.core else {
            return Err(Fault::BadAnswer);
        };
        match core.on_reply(content, now) {
            Ok(replied) => {
                self.look_again(replied);
                Ok(())
            }
            Err(CoreFault::Ended) => Ok(()),
            Err(fault) => Err(Fault::from(fault)),
        }
    }

    fn look_again(&mut self, replied: Replied)
        ensures { self.new ≡ with_cluster self.new.cluster self.old }
    {
        if replied.known && replied.reports == 0 {
            self.cluster.ask_again();
        }
    }
}
