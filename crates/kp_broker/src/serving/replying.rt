//! One frame that comes to a node: what is done with the request in it, and what is sent back.

ghost use Rattle.std.specs.Prelude.{◌≡◌, Some};
ghost use Rattle.kp_frames.specs.Request.{FitsRequest};
ghost use Rattle.kp_broker.specs.Replies.{Replies, RepliesBy, RepliesOn};
ghost use Rattle.kp_broker.specs.Serving.{action_for};

use crate::broker::Broker;
use crate::fault::BrokerFault;
use crate::plan::{Action, FaultPlan};
use kp_frames::{Request, RequestBody, read_request};
use kp_log::Whim;

/// What is sent back.
#[derive(Debug, Drop)]
pub enum Reply {
    /// The frame of an answer.
    Frame(Vec<u8>),
    Nothing,
    /// Nothing, and the connection ends.
    HangUp,
}

impl Broker {
    /// Handles a frame's content as this node, by the rules or by the plan. One that is not there leads no partition.
    pub fn handle(
        &mut self,
        node: u16,
        content: &[u8],
        plan: &FaultPlan,
    ) -> Result<Reply, BrokerFault>
        ensures { Replies node plan.now content.now self.old result self.new }
    {
        let request = read_request(self.alloc(), content)?;
        let action = self.planned(&request.body, plan);
        self.count(&request.body);
        self.act(node, &request, action)
    }

    /// What the plan says of the next request, if that is this one.
    fn planned(&self, body: &RequestBody, plan: &FaultPlan) -> Option<Action>
        ensures { result ≡ action_for plan.now self.now body.now }
    {
        match body {
            RequestBody::Produce(_) => plan.action(self.produced()),
            _ => None,
        }
    }

    /// Answers a request that was counted, or does what the plan says.
    fn act(
        &mut self,
        node: u16,
        request: &Request,
        action: Option<Action>,
    ) -> Result<Reply, BrokerFault>
        requires { FitsRequest request.now }
        ensures { RepliesBy action node request.now self.old result self.new }
    {
        match action {
            None => self.reply(node, request, None),
            Some(Action::DropRequest) => Ok(Reply::Nothing),
            Some(Action::DropReply) => {
                self.respond(node, request, None)?;
                Ok(Reply::Nothing)
            }
            Some(Action::Repeat) => self.reply_to_repeat(node, request),
            Some(Action::Refuse(code)) => self.reply(node, request, Some(Whim::Refuse(code))),
            Some(Action::Late(code)) => self.reply(node, request, Some(Whim::Late(code))),
            Some(Action::HangUp) => Ok(Reply::HangUp),
            Some(Action::Move(to)) => self.reply_elsewhere(node, request, to),
        }
    }

    /// Answers a request twice; the first answer is lost.
    fn reply_to_repeat(&mut self, node: u16, request: &Request) -> Result<Reply, BrokerFault>
        requires { FitsRequest request.now }
        ensures { RepliesBy (Some Action.Repeat) node request.now self.old result self.new }
    {
        self.respond(node, request, None)?;
        self.reply(node, request, None)
    }

    /// Answers a request once another node leads what this one led.
    fn reply_elsewhere(
        &mut self,
        node: u16,
        request: &Request,
        to: u16,
    ) -> Result<Reply, BrokerFault>
        requires { FitsRequest request.now }
        ensures { RepliesBy (Some (Action.Move to)) node request.now self.old result self.new }
    {
        self.move_lead(node, to);
        self.reply(node, request, None)
    }

    /// Answers a request, on a whim or by the rules.
    fn reply(
        &mut self,
        node: u16,
        request: &Request,
        whim: Option<Whim>,
    ) -> Result<Reply, BrokerFault>
        requires { FitsRequest request.now }
        ensures { RepliesOn whim node request.now self.old result self.new }
    {
        Ok(Reply::Frame(self.respond(node, request, whim)?))
    }
}
