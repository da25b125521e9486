//! Items are taken out of the lanes and appended.

ghost use Rattle.std.specs.Prelude.{◌≡◌, ◌<◌, ◌&&◌, None, OnOk, OnErr, [], true};
ghost use Rattle.kp_rules.specs.Appending.{may_append};
ghost use Rattle.kp_engine.specs.Agreement.{held_at};
ghost use Rattle.kp_engine.specs.Exchange.{OnlyCore, Runs, senders_of};
ghost use Rattle.kp_engine.specs.Steps.{AppendsFrom, AppendsHeld, Flushes, OnlyLane, OnlySide, OnlySides, TakesEach, TakesFrom, TakesOne, ended_by};

use crate::exchange::Exchange;
use crate::turned::Turned;
use kp_accum::{AppendFault, Item};
use std::alloc::AllocError;

/// The most items that a turn takes out of one lane.
const MOST_ITEMS: u32 = 64;

impl Exchange {
    /// Takes the next item out of the sender's lane.
    fn take(&mut self, sender: u32) -> Option<Item>
        requires { sender < senders_of self.old }
        ensures takes { TakesOne sender self.old result self.new }
        ensures only { OnlyLane sender self.old self.new }
    {
        let taken = self.intake.take(sender);
        if taken.is_some() {
            self.notes.moves.serve(sender);
        }
        taken
    }

    /// Appends the sender's items: the one that is held back, or else those that are taken. Whether the lane was found
    /// empty, and nothing is held.
    fn append_from(&mut self, sender: u32) -> Result<bool, AllocError>
        requires { sender < senders_of self.old }
        ensures appends { AppendsFrom sender self.old result self.new }
        ensures only { OnlySide sender self.old self.new }
    {
        match self.take_held(sender) {
            None => self.append_taken(sender),
            Some(item) => self.append_held(sender, item),
        }
    }

    /// Appends the item that was held back.
    fn append_held(&mut self, sender: u32, item: Item) -> Result<bool, AllocError>
        requires its { item.sender ≡ sender }
        requires place { sender < senders_of self.old }
        requires may { may_append item self.old.core ≡ true }
        requires free { held_at self.old.items.items sender ≡ None }
        ensures appends { AppendsHeld sender item self.old result self.new }
        ensures only { OnlySide sender self.old self.new }
    {
        match self.append(sender, item) {
            Ok(()) => Ok(false),
            Err(fault) => ended_by(fault),
        }
    }

    /// Appends items that are taken, until the lane is found empty, one is refused or there are enough.
    fn append_taken(&mut self, sender: u32) -> Result<bool, AllocError>
        requires place { sender < senders_of self.old }
        requires free { held_at self.old.items.items sender ≡ None }
        ensures appends { AppendsFrom sender self.old result self.new }
        ensures only { OnlySide sender self.old self.new }
    {
        for _ in 0..MOST_ITEMS {
            match self.take(sender) {
                None => return Ok(true),
                Some(item) => match self.append(sender, item) {
                    Ok(()) => {}
                    Err(fault) => return ended_by(fault),
                },
            }
        }
        Ok(false)
    }

    /// Flushes, where the sender asked for it by a mark that was passed.
    fn flush_if_asked(&mut self, sender: u32) -> Result<(), AllocError>
        requires { sender < senders_of self.old }
        ensures ok { OnOk result (Flushes sender self.old self.new) }
        ensures err { OnErr result (Runs self.old [] self.new × OnlyCore self.old self.new) }
        ensures only { OnlySide sender self.old self.new }
    {
        let Ok(()) = self.notes.reserve() else {
            return Err(AllocError);
        };
        if !self.intake.asked(sender) {
            return Ok(());
        }
        self.notes.moves.serve(sender);
        self.core.flush();
        self.notes.add(Turned::Flush);
        Ok(())
    }

    /// The sender's part of a turn. Whether its lane was found empty, and nothing is held.
    fn take_from(&mut self, sender: u32) -> Result<bool, AllocError>
        requires { sender < senders_of self.old }
        ensures takes { TakesFrom sender self.old result self.new }
        ensures only { OnlySide sender self.old self.new }
    {
        match self.append_from(sender) {
            Err(refused) => Err(refused),
            Ok(found_empty) => match self.flush_if_asked(sender) {
                Ok(()) => Ok(found_empty),
                Err(refused) => Err(refused),
            },
        }
    }

    /// Each sender's part of a turn, in their order. Whether every lane was found empty, and nothing is held.
    pub(crate) fn take_all(&mut self) -> Result<bool, AllocError>
        ensures takes { TakesEach self.old result self.new }
        ensures only { OnlySides self.old self.new }
    {
        let mut idle = true;
        for sender in 0..self.items.len() as u32 {
            match self.take_from(sender) {
                Ok(found_empty) => idle = both(idle, found_empty),
                Err(refused) => return Err(refused),
            }
        }
        Ok(idle)
    }
}

/// What the part of a sender ends with whose item was refused.
fn ended_by(fault: AppendFault) -> Result<bool, AllocError>
    ensures { result ≡ ended_by fault }
{
    match fault {
        AppendFault::BufferFull => Ok(false),
        AppendFault::OutOfMemory => Err(AllocError),
    }
}

pub(crate) fn both(first: bool, second: bool) -> bool
    ensures { result ≡ (first && second) }
{
    first && second
}
