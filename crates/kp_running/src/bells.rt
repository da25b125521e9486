//! The bells of a producer.

ghost use Rattle.std.specs.Prelude.{◌≡◌, ◌<◌, Some, IfOk, length, slice_get};
ghost use Rattle.kp_running.specs.Numbered.{AreNumbered};

use crate::bell::{Bell, SenderBell};
use crate::turning::Turning;
use std::alloc::{AllocError, Global};

/// The bells of a producer: the engine's, and one of each sender, numbered from 0. The threads share them by reference.
#[derive(Drop)]
pub struct Bells {
    engine: Bell,
    senders: Vec<SenderBell>,
    ghost numbered: { AreNumbered senders.items },
}

impl Bells {
    ghost use Rattle.kp_running.specs.Bells.{engine_bell, sender_bells};

    #[tactic(auto, using(crate::proofs::NumberedLemmas::none_numbered, crate::proofs::NumberedLemmas::numbered_then))]
    pub fn new(alloc: Global, senders: usize) -> Result<Bells, AllocError>
        ensures { IfOk result (λ bells. length (sender_bells bells) ≡ senders) }
    {
        let mut bells = Vec::with_capacity(alloc, senders)?;
        for sender in 0..senders {
            bells.push_reserved(SenderBell::new(sender));
        }
        Ok(Bells {
            engine: Bell::new(alloc)?,
            senders: bells,
        })
    }

    /// How many senders there are.
    pub fn senders(&self) -> usize
        ensures { result ≡ length (sender_bells self.now) }
    {
        self.senders.len()
    }

    /// The engine's bell.
    pub fn engine(&self) -> &Bell
        ensures { result.now ≡ engine_bell self.now }
    {
        &self.engine
    }

    /// A sender's bell.
    pub fn of(&self, sender: u32) -> &SenderBell
        requires { sender < length (sender_bells self.now) }
        ensures place { slice_get (sender_bells self.now) sender ≡ Some result.now }
        ensures its { result.now.number ≡ sender }
    {
        &self.senders[sender as usize]
    }

    /// Rings for each sender, as where the engine has stopped.
    pub fn ring_all(&self) {
        for bell in &self.senders {
            bell.ring();
        }
    }

    /// Rings for each sender that the last poll served.
    pub(crate) fn ring_served<E: Turning>(&self, engine: &E) {
        for (sender, bell) in self.senders.iter().enumerate() {
            if engine.has_served(sender) {
                bell.ring();
            }
        }
    }
}
