//! Calls on the core that are noted. Room for the note is made before each call.

ghost use Rattle.std.specs.Prelude.{◌≡◌, ◌<◌, true, [], ◌∷◌, Some, None, IfSome, IfOk, OnOk, OnErr};
ghost use Rattle.kp_rules.specs.Appending.{may_append};
ghost use Rattle.kp_rules.specs.Calls.{Close, Disconnect, Flush, Tick};
ghost use Rattle.kp_engine.specs.Agreement.{held_at};
ghost use Rattle.kp_engine.specs.Exchange.{OnlyCore, Runs, senders_of};
ghost use Rattle.kp_engine.specs.Steps.{AppendsOne, HoldsNow};

use crate::exchange::Exchange;
use crate::seen::see_record;
use crate::turned::Turned;
use kp_accum::{AppendFault, Item};
use kp_core::Ticked;
use std::alloc::AllocError;

impl Exchange {
    pub(crate) fn tick(&mut self, node: u32, now: u64) -> Result<Ticked, AllocError>
        ensures ok { IfOk result (λ ticked. Runs self.old (Tick node now ticked ∷ []) self.new) }
        ensures err { OnErr result (Runs self.old [] self.new) }
        ensures same { OnlyCore self.old self.new }
    {
        let Ok(()) = self.notes.reserve() else {
            return Err(AllocError);
        };
        let ticked = self.core.tick(node, now);
        self.notes.add(Turned::Tick(node, now, ticked));
        Ok(ticked)
    }

    pub(crate) fn disconnect(&mut self, node: u32, now: u64) -> Result<(), AllocError>
        ensures ok { OnOk result (Runs self.old (Disconnect node now ∷ []) self.new) }
        ensures err { OnErr result (Runs self.old [] self.new) }
        ensures same { OnlyCore self.old self.new }
    {
        let Ok(()) = self.notes.reserve() else {
            return Err(AllocError);
        };
        self.core.on_disconnect(node, now);
        self.notes.add(Turned::Disconnect(node, now));
        Ok(())
    }

    /// Appends the sender's item, or holds it back where it is refused, or memory for its entry is.
    pub(crate) fn append(&mut self, sender: u32, item: Item) -> Result<(), AppendFault>
        requires its { item.sender ≡ sender }
        requires place { sender < senders_of self.old }
        requires may { may_append item self.old.core ≡ true }
        ensures { AppendsOne sender item self.old result self.new }
    {
        see_record(&item.body);
        let Ok(copy) = self.notes.reserve_append(&item) else {
            self.hold(sender, item);
            return Err(AppendFault::OutOfMemory);
        };
        let Err((fault, item)) = self.core.append(item) else {
            self.notes.add_append(copy, None);
            return Ok(());
        };
        self.notes.add_append(copy, Some(fault));
        self.hold(sender, item);
        Err(fault)
    }

    /// Holds the sender's item back.
    fn hold(&mut self, sender: u32, item: Item)
        requires its { item.sender ≡ sender }
        requires place { sender < senders_of self.old }
        requires may { may_append item self.old.core ≡ true }
        ensures { HoldsNow sender self.old (Some item) self.new }
    {
        self.items[sender as usize] = Some(item);
    }

    /// Takes the sender's item that is held back.
    pub(crate) fn take_held(&mut self, sender: u32) -> Option<Item>
        requires { sender < senders_of self.old }
        ensures held { result ≡ held_at self.old.items.items sender }
        ensures its { IfSome result (λ x. x.sender ≡ sender) }
        ensures may { IfSome result (λ x. may_append x self.new.core ≡ true) }
        ensures now { HoldsNow sender self.old None self.new }
    {
        self.items[sender as usize].take()
    }
}
