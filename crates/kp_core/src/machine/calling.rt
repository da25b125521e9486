//! Calls that are made from a list.

ghost use Rattle.std.specs.Prelude.{◌≡◌, IfErr, IfOk, OnErr};
ghost use Rattle.kp_rules.specs.Calls.{Append, Fetch, Step};
ghost use Rattle.kp_core.specs.Answers.{answer_of};
ghost use Rattle.kp_core.specs.Calling.{AreMade, IsMade};

use crate::calls::{Answered, Asked};
use crate::machine::Core;
use kp_accum::{AppendFault, Item};
use kp_rules::Report;
use std::alloc::AllocError;

impl Core {
    /// Makes these calls, one after the other; the answers are in their order. An item that may not be appended is
    /// refused as one for which there is no memory ever, and no sender that is not there has a report. Where memory for
    /// the answers is refused no call is made.
    pub fn make_all(&mut self, asked: Vec<Asked>) -> Result<Vec<Answered>, AllocError>
        ensures ok { IfOk result (λ answers. AreMade self.old asked.items answers.items self.new) }
        ensures err { OnErr result (self.new ≡ self.old) }
    {
        let mut answers = Vec::with_capacity(self.alloc, asked.len())?;
        for call in asked {
            let answer = self.make(call);
            answers.push_reserved(answer);
        }
        Ok(answers)
    }

    /// Makes the call.
    pub fn make(&mut self, asked: Asked) -> Answered
        ensures { IsMade self.old asked result self.new }
    {
        match asked {
            Asked::Append(item) => Answered::Append(self.append_if_it_may_be(item)),
            Asked::Request(node, now) => Answered::Request(self.next_request(node, now)),
            Asked::Reply(content, now) => Answered::Reply(self.on_reply(content.as_slice(), now)),
            Asked::Tick(node, now) => Answered::Tick(self.tick(node, now)),
            Asked::Disconnect(node, now) => {
                self.on_disconnect(node, now);
                Answered::Disconnect
            }
            Asked::Lead(partition, node, now) => {
                self.lead(partition, node, now);
                Answered::Lead
            }
            Asked::Close => {
                self.close();
                Answered::Close
            }
            Asked::Flush => {
                self.flush();
                Answered::Flush
            }
            Asked::End => Answered::End(self.end()),
            Asked::Fetch(sender) => Answered::Fetch(self.next_report_if_any(sender)),
        }
    }

    fn append_if_it_may_be(&mut self, item: Item) -> Result<(), (AppendFault, Item)>
        ensures step { Step self.old (Append item (answer_of result)) self.new }
        ensures back { IfErr result (λ refused. refused.1 ≡ item) }
    {
        if !self.may_append(&item) {
            return Err((AppendFault::BufferFull, item));
        }
        self.append(item)
    }

    fn next_report_if_any(&mut self, sender: u32) -> Option<Report>
        ensures { Step self.old (Fetch sender result) self.new }
    {
        if sender as usize >= self.desk.senders() {
            return None;
        }
        self.next_report(sender)
    }
}
