//! What all telling touches: the senders' reports that are not fetched, and the memory that items take.

ghost use Rattle.std.specs.Prelude.{◌≡◌, ◌+◌, ◌-◌, ◌≤◌, ◌<◌, ◌^◌, ◌∷◌, [], pos, ◌+ℤ◌, ◌≤ℤ◌, length, drop, sum_by, IfOk, OnOk, OnErr, slice_get, nat_le};
ghost use Rattle.kp_accum.specs.Queue.{charge_of};
ghost use Rattle.kp_parts.specs.Desk.{no_line, line_of, put, new_desk, with_place, without_place, fetched, told_lines, tell_desk, tell_free, HavePlaces, Covers};
ghost use Rattle.kp_rules.specs.Telling.{told_all, told_offsets};

use kp_accum::{Budget, Item};
use kp_rules::{Outcome, Report};
use std::alloc::{AllocError, Global};
use std::collections::VecDeque;
use std::marker::Model;

/// One sender's reports that are not fetched, and places kept for further ones.
#[derive(Debug, Drop)]
pub struct Line {
    reports: VecDeque<Report>,
    /// How many places are kept.
    room: usize,
}

impl Model for Line {
    ghost use Rattle.std.specs.Prelude.{◌+◌, ◌≤◌};
    ghost use Rattle.std.specs.VecDeque.{deque_len, deque_capacity};
    ghost use Rattle.kp_parts.specs.Desk as desk;

    ghost Value = { desk.Line };

    ghost view = { λ l. record { reports = l.reports.items; room = l.room } };

    ghost invariant = { λ l. deque_len l.reports + l.room ≤ deque_capacity l.reports };
}

impl Line {
    /// A line with no report and no place. It takes no memory.
    fn new(alloc: Global) -> Line
        ensures { result ≡ no_line }
    {
        Line {
            reports: VecDeque::new(alloc),
            room: 0,
        }
    }

    /// Keeps one place more.
    fn reserve(&mut self) -> Result<(), AllocError>
        ensures ok { OnOk result (self.new ≡ record self.old { room = self.old.room + 1 }) }
        ensures err { OnErr result (self.new ≡ self.old) }
    {
        if self.room == usize::MAX {
            return Err(AllocError);
        }
        self.reports.reserve(self.room + 1)?;
        self.room += 1;
        Ok(())
    }

    /// Gives a kept place up.
    fn give_back(&mut self)
        requires { 0 < self.old.room }
        ensures { self.new ≡ record self.old { room = self.old.room - 1 } }
    {
        self.room -= 1;
    }

    /// Puts the report last, into a kept place.
    fn push(&mut self, report: Report)
        requires { 0 < self.old.room }
        ensures { self.new ≡ put report self.old }
    {
        self.room -= 1;
        self.reports.push_back_reserved(report);
    }

    /// Takes the first report away.
    fn next(&mut self) -> Option<Report>
        ensures first { result ≡ slice_get self.old.reports 0 }
        ensures rest { self.new ≡ record self.old { reports = drop 1 self.old.reports } }
    {
        self.reports.pop_front()
    }
}

/// All senders' lines, and the memory that items take which are not told.
#[derive(Debug, Drop)]
pub struct Desk {
    lines: Vec<Line>,
    /// How many items are not told.
    untold: u64,
    budget: Budget,
}

impl Model for Desk {
    ghost use Rattle.kp_parts.specs.Desk as desk;

    ghost Value = { desk.Desk };

    ghost view = { λ d. record {
      lines = d.lines.items;
      untold = d.untold;
      used = d.budget.used;
      limit = d.budget.limit;
    } };
}

/// Tells the item's sender of it.
fn put_one(lines: &mut Vec<Line>, item: &Item, outcome: Outcome)
    requires { 0 < (line_of item.now.sender lines.old.items).room }
    ensures { lines.new.items ≡ told_lines (told_all outcome (item.now ∷ [])) lines.old.items }
{
    lines[item.sender as usize].push(Report {
        sender: item.sender,
        partition: item.partition,
        number: item.number,
        outcome,
    });
}

/// Tells of each item the same.
fn put_all(lines: &mut Vec<Line>, items: &[Item], outcome: Outcome)
    requires { HavePlaces lines.old.items (told_all outcome items.now) }
    ensures { lines.new.items ≡ told_lines (told_all outcome items.now) lines.old.items }
{
    for item in items {
        put_one(lines, item, outcome);
    }
}

/// Tells of each item its offset, the first one's being this.
fn put_offsets(lines: &mut Vec<Line>, items: &[Item], base: i64)
    requires places { HavePlaces lines.old.items (told_offsets base items.now) }
    requires fits { (base +ℤ pos (length items.now)) ≤ℤ pos (2 ^ 63 - 1) }
    ensures { lines.new.items ≡ told_lines (told_offsets base items.now) lines.old.items }
{
    let mut offset = base;
    for item in items {
        put_one(lines, item, Outcome::Delivered(offset));
        offset += 1;
    }
}

impl Desk {
    /// A desk for so many senders, of whose memory nothing is used.
    pub fn new(alloc: Global, senders: u32, limit: u64) -> Result<Desk, AllocError>
        ensures { IfOk result (λ d. d ≡ new_desk senders limit) }
    {
        let mut lines = Vec::with_capacity(alloc, senders as usize)?;
        for _ in 0..senders {
            lines.push(Line::new(alloc))?;
        }
        Ok(Desk {
            lines,
            untold: 0,
            budget: Budget::new(limit),
        })
    }

    /// How many senders there are.
    pub fn senders(&self) -> usize
        ensures { result ≡ length self.now.lines }
    {
        self.lines.len()
    }

    /// The sum of the charges that were taken and not given back.
    pub fn used(&self) -> u64
        ensures value { result ≡ self.now.used }
        ensures within { result ≤ self.now.limit }
    {
        self.budget.used()
    }

    /// Whether the charge is within the limit with what is used.
    pub fn has_room(&self, charge: u64) -> bool
        ensures { result ≡ nat_le (self.now.used + charge) self.now.limit }
    {
        self.budget.has_room(charge)
    }

    /// How many items took a charge and are not told.
    pub fn untold(&self) -> u64
        ensures { result ≡ self.now.untold }
    {
        self.untold
    }

    /// Takes the charge of one item, for which there is room.
    pub fn take(&mut self, charge: u64)
        requires room { self.old.used + charge ≤ self.old.limit }
        requires count { self.old.untold < 2 ^ 64 - 1 }
        ensures { self.new ≡ record self.old { untold = self.old.untold + 1; used = self.old.used + charge } }
    {
        self.untold += 1;
        self.budget.take(charge);
    }

    /// Keeps one place more for the sender.
    pub fn reserve(&mut self, sender: u32) -> Result<(), AllocError>
        requires { sender < length self.old.lines }
        ensures ok { OnOk result (self.new ≡ with_place sender self.old) }
        ensures err { OnErr result (self.new ≡ self.old) }
    {
        self.lines[sender as usize].reserve()
    }

    /// Gives up a place that is kept for the sender.
    pub fn give_back_place(&mut self, sender: u32)
        requires { 0 < (line_of sender self.old.lines).room }
        ensures { self.new ≡ without_place sender self.old }
    {
        self.lines[sender as usize].give_back();
    }

    /// Takes the sender's oldest report away.
    pub fn next(&mut self, sender: u32) -> Option<Report>
        requires { sender < length self.old.lines }
        ensures first { result ≡ slice_get (line_of sender self.old.lines).reports 0 }
        ensures rest { self.new ≡ fetched sender self.old }
    {
        self.lines[sender as usize].next()
    }

    /// Tells of each item the same, and gives their memory back: this charge.
    pub fn tell_all(&mut self, items: &[Item], charge: u64, outcome: Outcome)
        requires covered { Covers self.old (told_all outcome items.now) }
        requires charge_is { charge ≡ sum_by charge_of items.now }
        ensures { self.new ≡ tell_desk (told_all outcome items.now) self.old }
    {
        put_all(&mut self.lines, items, outcome);
        self.untold -= items.len() as u64;
        self.budget.release(charge);
    }

    /// Tells of each item its offset, the first one's being `base`, and gives their memory back: this charge.
    pub fn tell_offsets(&mut self, items: &[Item], charge: u64, base: i64)
        requires covered { Covers self.old (told_offsets base items.now) }
        requires charge_is { charge ≡ sum_by charge_of items.now }
        requires fits { (base +ℤ pos (length items.now)) ≤ℤ pos (2 ^ 63 - 1) }
        ensures { self.new ≡ tell_desk (told_offsets base items.now) self.old }
    {
        put_offsets(&mut self.lines, items, base);
        self.untold -= items.len() as u64;
        self.budget.release(charge);
    }

    /// Tells of an item that took no memory.
    pub fn turn_away(&mut self, item: &Item, outcome: Outcome)
        requires { 0 < (line_of item.now.sender self.old.lines).room }
        ensures { self.new ≡ tell_free (told_all outcome (item.now ∷ [])) self.old }
    {
        put_one(&mut self.lines, item, outcome);
    }
}
