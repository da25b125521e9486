//! Names of hosts, which a thread looks up.

ghost use Rattle.std.specs.Prelude.{◌≡◌};
ghost use Rattle.tokio.specs.Channels.{sent_source};

use crate::lookup::Lookup;
use futures::Future;
use futures::executor::block_on;
use futures::task::{Context, Poll};
use kp_wire::Text;
use std::alloc::{AllocError, AllocGlobal, Global};
use std::io;
use std::net::{Ipv4Addr, Net, SocketAddr};
use std::random::RandomSource;
use std::sync::Wait;
use tokio::sync::mpsc::{UnboundedReceiver, UnboundedSender, unbounded_channel};
use tokio::sync::oneshot::{Receiver, Sender, channel};

/// The most addresses of a host that are looked at.
const MOST: usize = 8;

/// A host that is to be looked up.
#[derive(Drop)]
struct Question {
    host: Text,
    /// The port that its address is to have.
    port: u16,
    answer: Sender<Option<SocketAddr>>,
}

/// A host that is being looked up by `HostNames`.
pub type Named = Receiver<Option<SocketAddr>>;

/// Asks a thread for the addresses of hosts, which runs the resolver that was made with this.
#[derive(Drop)]
pub struct HostNames {
    alloc: Global,
    questions: UnboundedSender<Question>,
}

/// Looks up hosts for `HostNames`. Where a host has several addresses, each answer is the next one.
#[derive(Drop)]
pub struct Resolver {
    questions: UnboundedReceiver<Question>,
    answered: usize,
}

impl HostNames {
    /// What asks, and what is to answer.
    pub fn new(alloc: Global) -> Result<(HostNames, Resolver), AllocError> {
        let (sender, receiver) = unbounded_channel(alloc)?;
        let names = HostNames {
            alloc,
            questions: sender,
        };
        let resolver = Resolver {
            questions: receiver,
            answered: 0,
        };
        Ok((names, resolver))
    }

    /// Asks for a host. None where memory is refused, or nobody answers any more.
    fn ask(&self, host: &str, port: u16) -> Option<Named> {
        let (answer, looking) = channel(self.alloc).ok()?;
        let question = Question {
            host: Text::from_str(self.alloc, host).ok()?,
            port,
            answer,
        };
        match self.questions.send(question) {
            Ok(()) => Some(looking),
            Err(_) => None,
        }
    }
}

impl Lookup for HostNames {
    type Looking = Named;

    ghost waits = { λ looking s. s ≡ sent_source looking };

    fn look_up(&mut self, host: &str, port: u16) -> Option<Named> {
        self.ask(host, port)
    }

    fn poll_look_up(
        &mut self,
        cx: &mut Context<'_>,
        looking: &mut Named,
    ) -> Poll<Option<SocketAddr>> {
        match looking.poll(cx) {
            Poll::Pending => Poll::Pending,
            Poll::Ready(Ok(address)) => Poll::Ready(address),
            Poll::Ready(Err(_)) => Poll::Ready(None),
        }
    }
}

impl Resolver {
    /// Answers, until nobody asks any more.
    pub fn run<R: Wait + Net + RandomSource + AllocGlobal>(mut self, rt: &R) -> io::Result<()> {
        for _ in rt.forever() {
            match block_on(rt, self.questions.recv())? {
                None => return Ok(()),
                Some(question) => self.answer(rt, question),
            }
        }
        unreachable!()
    }

    /// Answers one question. Nobody may wait for the answer any more.
    fn answer<R: Net>(&mut self, rt: &R, question: Question) {
        let Question { host, port, answer } = question;
        let _ = answer.send(self.look_up(rt, host.as_str(), port));
    }

    /// The next of the host's addresses.
    fn look_up<R: Net>(&mut self, rt: &R, host: &str, port: u16) -> Option<SocketAddr> {
        let mut found = [SocketAddr::from((Ipv4Addr::UNSPECIFIED, port)); MOST];
        let count = rt.lookup_host(host, port, &mut found).ok()?;
        if count == 0 {
            return None;
        }
        let place = self.answered % count;
        self.answered = self.answered.wrapping_add(1);
        found.get(place).copied()
    }
}
