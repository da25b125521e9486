//! The lines that were sent, until it is told what became of them.

ghost use Rattle.std.specs.Prelude.{◌≡◌, ◌<◌, ◌≤◌, [], ◌∷◌, length, map, IfErr, IfOk, OnErr, OnOk};
ghost use Rattle.std.specs.List.Sorted.{IsPermutation, IsSorted};
ghost use Rattle.kp_send.specs.Ledger.{by_line, entry_of, Lacks, Leaves, left_with, Moves, RefusedFor, Tells};

use crate::fault::LedgerFault;
use crate::told::{Sent, Told};
use kp_embed::Ticket;
use kp_rules::{Outcome, Report};
use std::alloc::{AllocError, Global};
use std::collections::HashMap;
use std::marker::Model;

/// The lines that were sent and wait for their reports, by ticket: seen as their list, in no order, and how many more have
/// a place that is kept for them.
#[derive(Debug, Drop)]
pub struct Ledger {
    waiting: HashMap<(u32, u64), Sent>,
}

impl Model for Ledger {
    ghost use Rattle.kp_send.specs.Ledger.{Book};
    ghost use Rattle.std.specs.HashMap.{spare};

    ghost Value = { Book };

    ghost view = { λ ledger. record {
      waiting = ledger.waiting.entries;
      room = spare ledger.waiting;
    } };
}

impl Ledger {
    /// A ledger in which no line waits. It takes no memory.
    pub fn new(alloc: Global) -> Ledger
        ensures { result.waiting ≡ [] }
    {
        Ledger {
            waiting: HashMap::new(alloc),
        }
    }

    /// Keeps a place for one more line, so that memory is not refused once its record was accepted.
    pub fn reserve(&mut self) -> Result<(), AllocError>
        ensures same { Moves self.old [] [] self.new }
        ensures room { OnOk result (0 < self.new.room) }
    {
        self.waiting.reserve(1)
    }

    /// A line's record was accepted with this ticket. What is refused comes back.
    pub fn sent(&mut self, ticket: Ticket, line: Sent) -> Result<(), (LedgerFault, Sent)>
        ensures entered { OnOk result (Moves self.old (entry_of ticket line ∷ []) [] self.new) }
        ensures new { OnOk result (Lacks ticket self.old) }
        ensures refused { IfErr result (λ refused. RefusedFor self.old ticket refused.0) }
        ensures back { IfErr result (λ refused. refused.1 ≡ line) }
        ensures unchanged { OnErr result (Moves self.old [] [] self.new) }
    {
        let key = (ticket.partition, ticket.number);
        match self.waiting.insert(key, line) {
            Ok(None) => Ok(()),
            // It goes back to where it stood: it is seldom there, and so not looked for before.
            Ok(Some(before)) => match self.waiting.insert(key, before) {
                Ok(Some(line)) => Err((LedgerFault::Waits, line)),
                Ok(None) | Err(_) => unreachable!(),
            },
            Err(refused) => Err((LedgerFault::OutOfMemory, refused.value.1)),
        }
    }

    /// The line of which this report tells, which waits no more. None where no line waits for it.
    pub fn told(&mut self, report: &Report) -> Option<Told>
        ensures told { Tells self.old report.now result self.new }
        ensures room { self.old.room ≤ self.new.room }
    {
        let sent = self.waiting.remove(&(report.partition, report.number))?;
        Some(Told::reported(sent, report.partition, report.outcome))
    }

    /// All lines that wait, in their order, with this as what became of each. None waits any more.
    pub fn left(&mut self, alloc: Global, outcome: Outcome) -> Result<Vec<Told>, AllocError>
        ensures all { IfOk result (λ left.
            IsPermutation (map (left_with outcome) self.old.waiting) left.items) }
        ensures in_order { IfOk result (λ left. IsSorted by_line left.items) }
        ensures moved { OnOk result (Moves self.old [] self.old.waiting self.new) }
        ensures none { OnOk result (self.new.waiting ≡ []) }
        ensures unchanged { OnErr result (self.new ≡ self.old) }
    {
        let mut left = Vec::with_capacity(alloc, self.len())?;
        while let Some(told) = self.next_left(outcome) {
            left.push_reserved(told);
        }
        left.sort_unstable_by_key(|told| told.line);
        Ok(left)
    }

    /// How many lines wait.
    pub fn len(&self) -> usize
        ensures { result ≡ length self.now.waiting }
    {
        self.waiting.len()
    }

    /// One of the lines that wait, with this as what became of it.
    fn next_left(&mut self, outcome: Outcome) -> Option<Told>
        ensures { Leaves self.old outcome result self.new }
    {
        let key = *self.waiting.keys().next()?;
        let sent = self.waiting.remove(&key).unwrap();
        Some(Told::reported(sent, key.0, outcome))
    }
}
