//! Bytes are taken, to be written.

ghost use Rattle.std.specs.Prelude.{◌≡◌, ◌≤◌, [], true, None, Some, length, take, IfOk, OnOk, OnErr};
ghost use Rattle.kp_cluster.specs.Metadata.{may_ask};
ghost use Rattle.kp_embed.specs.Taking.{AsksNext, AsksNone, CarriesNone, CarriesOut};
ghost use Rattle.kp_embed.specs.declared.line.Question as Question;

use crate::bytes::Bytes;
use crate::embed::Embed;
use crate::fault::Fault;
use crate::line::{Line, Question};
use kp_core::CoreFault;
use kp_hello::{write_metadata, write_producer_id};

impl Embed {
    /// Takes bytes that are to be written to the node, as many as there are and there is room for, into the front of `room`:
    /// how many. It is called until it gives none.
    pub fn take_into(&mut self, node: u32, room: &mut [u8], now: u64) -> Result<usize, Fault>
        ensures count { IfOk result (λ n. n ≤ length room.old) }
        ensures takes { IfOk result (λ n. CarriesOut node now self.old (take n room.new) self.new) }
        ensures refused { OnErr result (CarriesNone node now self.old self.new) }
        ensures still { self.new.is_closed ≡ self.old.is_closed }
    {
        let Some(mut line) = self.lines.take(node) else {
            return Err(Fault::NoConnection);
        };
        let taken = match self.ask_next(node, &mut line, now) {
            Ok(()) => Ok(line.out.take_into(room)),
            Err(fault) => Err(fault),
        };
        self.lines.put(node, line);
        taken
    }

    /// Where nothing waits to be taken, what is asked next waits then.
    fn ask_next(&mut self, node: u32, line: &mut Line, now: u64) -> Result<(), Fault>
        ensures asks { OnOk result (AsksNext node now self.old line.old self.new line.new) }
        ensures lines { self.new.lines ≡ self.old.lines }
        ensures none { OnErr result (AsksNone node now self.old self.new) }
        ensures same { OnErr result (line.new ≡ line.old) }
        ensures still { self.new.is_closed ≡ self.old.is_closed }
    {
        if !line.out.is_empty() {
            return Ok(());
        }
        match (line.question, self.question_for(node, now)) {
            (None, Some(Question::Metadata)) => self.ask_metadata(node, line, now),
            (None, Some(Question::ProducerId)) => self.ask_producer_id(node, line, now),
            _ => self.ask_core(node, line, now),
        }
    }

    /// What is to be asked over the node's connection, beside the requests of the core.
    fn question_for(&self, node: u32, now: u64) -> Option<Question>
        ensures { result ≡ Some Question.Metadata → may_ask node now self.now.cluster ≡ true }
    {
        if self.is_failed {
            return None;
        }
        if self.cluster.may_ask(node, now) {
            return Some(Question::Metadata);
        }
        let is_wanted = self.core.is_none() && self.cluster.partitions() > 0;
        if is_wanted && self.identity.over.is_none() && now >= self.identity.not_before {
            return Some(Question::ProducerId);
        }
        None
    }

    fn ask_metadata(&mut self, node: u32, line: &mut Line, now: u64) -> Result<(), Fault>
        requires may { may_ask node now self.old.cluster ≡ true }
        requires none { line.old.question ≡ None }
        requires taken { line.old.out ≡ [] }
        ensures asks { OnOk result (AsksNext node now self.old line.old self.new line.new) }
        ensures lines { self.new.lines ≡ self.old.lines }
        ensures none { OnErr result (AsksNone node now self.old self.new) }
        ensures same { OnErr result (line.new ≡ line.old) }
        ensures still { self.new.is_closed ≡ self.old.is_closed }
    {
        match write_metadata(self.alloc, &self.names) {
            Ok(frame) => {
                self.cluster.asked(node, now);
                line.question = Some(Question::Metadata);
                line.out = Bytes::of(frame);
                Ok(())
            }
            Err(fault) => Err(Fault::from(fault)),
        }
    }

    fn ask_producer_id(&mut self, node: u32, line: &mut Line, now: u64) -> Result<(), Fault>
        requires none { line.old.question ≡ None }
        requires taken { line.old.out ≡ [] }
        ensures asks { OnOk result (AsksNext node now self.old line.old self.new line.new) }
        ensures lines { self.new.lines ≡ self.old.lines }
        ensures none { OnErr result (AsksNone node now self.old self.new) }
        ensures same { OnErr result (line.new ≡ line.old) }
        ensures still { self.new.is_closed ≡ self.old.is_closed }
    {
        match write_producer_id(self.alloc, &self.names) {
            Ok(frame) => {
                self.identity.ask(node, now);
                line.question = Some(Question::ProducerId);
                line.out = Bytes::of(frame);
                Ok(())
            }
            Err(fault) => Err(Fault::from(fault)),
        }
    }

    /// The next request of the core to the node, where there is one.
    fn ask_core(&mut self, node: u32, line: &mut Line, now: u64) -> Result<(), Fault>
        requires taken { line.old.out ≡ [] }
        ensures asks { OnOk result (AsksNext node now self.old line.old self.new line.new) }
        ensures lines { self.new.lines ≡ self.old.lines }
        ensures none { OnErr result (AsksNone node now self.old self.new) }
        ensures same { OnErr result (line.new ≡ line.old) }
        ensures still { self.new.is_closed ≡ self.old.is_closed }
    {
        let Some(core) = &mut self.core else {
            return Ok(());
        };
        match core.next_request(node, now) {
            Ok(Some(outgoing)) => {
                line.out = Bytes::of(outgoing.bytes.into_vec());
                Ok(())
            }
            Ok(None) => Ok(()),
            Err(CoreFault::Ended) => Ok(()),
            Err(CoreFault::CorrelationSpent) => Ok(()),
            Err(fault) => Err(Fault::from(fault)),
        }
    }
}
