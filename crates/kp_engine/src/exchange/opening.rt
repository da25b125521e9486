//! An exchange is made, and taken apart.

ghost use Rattle.std.specs.Prelude.{◌≡◌, ◌+◌, ◌≤◌, [], Some, None, IfOk, IfErr, false, length, option_map, option_to_list, replicate, vec_len, vec_capacity, if◌then◌else◌};
ghost use Rattle.std.specs.List.{flat_map};
ghost use Rattle.std.specs.Option.{option_copied};
ghost use Rattle.std.specs.Str.{IsUtf8};
ghost use Rattle.kp_rules.specs.Calls.{Disconnect, End, Lead, Step};
ghost use Rattle.kp_engine.specs.Engine.{Cleared};
ghost use Rattle.kp_engine.specs.Exchange.{OnlyCore, notes_in, with_strays};
ghost use Rattle.kp_engine.specs.Opening.{MayTurn};

use crate::exchange::Exchange;
use crate::notes::Notes;
use crate::parts::{Held, Parts};
use crate::seen::see_names;
use crate::turned::Turned;
use kp_accum::Item;
use kp_core::{Core, Report};
use kp_lanes::Intake;
use std::alloc::{AllocError, Global};

impl Exchange {
    /// An exchange in which nothing is held. Where memory is refused, its values come back.
    pub(crate) fn new(
        alloc: Global,
        core: Core,
        intake: Intake,
        keeps_turns: bool,
    ) -> Result<Exchange, (Core, Intake)>
        requires { MayTurn core intake }
        ensures made { IfOk result (λ x. (x.core ≡ core) × (x.intake ≡ intake) × (x.closed ≡ false)) }
        ensures items { IfOk result (λ x. x.items.items ≡ replicate (length core.reports) None) }
        ensures reports { IfOk result (λ x. x.reports.items ≡ replicate (length core.reports) None) }
        ensures names { IfOk result (λ _. IsUtf8 core.names.topic × IsUtf8 core.names.client) }
        ensures turn { IfOk result (λ x. option_map (λ v. v.items) x.notes.turn ≡ (if keeps_turns then Some [] else None)) }
        ensures notes { IfOk result (λ x. notes_in x ≡ record { strays = 0; calls = if keeps_turns then Some [] else None }) }
        ensures back { IfErr result (λ given. (given.0 ≡ core) × (given.1 ≡ intake)) }
    {
        see_names(&core);
        let senders = core.senders();
        let Ok(items) = no_items(alloc, senders) else {
            return Err((core, intake));
        };
        let Ok(reports) = no_reports(alloc, senders) else {
            return Err((core, intake));
        };
        let Ok(held) = room(alloc, senders) else {
            return Err((core, intake));
        };
        Ok(Exchange {
            core,
            intake,
            items,
            reports,
            closed: false,
            notes: Notes::new(alloc, keeps_turns),
            held,
        })
    }

    /// What is heard from here on is heard over a connection of whose replies so many in a row, the last ones, named no request in
    /// flight.
    pub(crate) fn hear_behind(&mut self, strays: u32)
        ensures { self.new ≡ with_strays strays self.old }
    {
        self.notes.strays = strays;
    }

    /// Forgets the calls of the last turn.
    pub(crate) fn clear(&mut self)
        ensures { Cleared self.old self.new }
    {
        self.notes.clear();
    }

    /// The calls of the last turn, where they are kept.
    pub(crate) fn last_turn(&self) -> Option<&[Turned]>
        ensures { option_copied result ≡ option_map (λ v. v.items) self.now.notes.turn }
    {
        match &self.notes.turn {
            None => None,
            Some(entries) => Some(entries.as_slice()),
        }
    }

    /// Gives up all that is left: how many items were told of.
    pub(crate) fn end(&mut self) -> usize
        ensures step { Step self.old.core (End result) self.new.core }
        ensures same { OnlyCore self.old self.new × (self.new.notes ≡ self.old.notes) }
    {
        self.core.end()
    }

    /// This node leads the partition from now on.
    pub(crate) fn lead(&mut self, partition: u32, node: u32, now: u64)
        ensures step { Step self.old.core (Lead partition node now) self.new.core }
        ensures same { OnlyCore self.old self.new × (self.new.notes ≡ self.old.notes) }
    {
        self.core.lead(partition, node, now);
    }

    /// What is in flight to this node is dropped, to be sent again.
    pub(crate) fn lose(&mut self, node: u32, now: u64)
        ensures step { Step self.old.core (Disconnect node now) self.new.core }
        ensures same { OnlyCore self.old self.new × (self.new.notes ≡ self.old.notes) }
    {
        self.core.on_disconnect(node, now);
    }

    /// The core and the lanes' end, with what is held between them.
    pub(crate) fn into_parts(self) -> Parts
        ensures core { (result.core ≡ self.core) × (result.intake ≡ self.intake) }
        ensures items { result.held.items.items ≡ flat_map option_to_list self.items.items }
        ensures reports { result.held.reports.items ≡ flat_map option_to_list self.reports.items }
    {
        let Exchange {
            core,
            intake,
            items,
            reports,
            mut held,
            ..
        } = self;
        gather_items(items, &mut held.items);
        gather_reports(reports, &mut held.reports);
        Parts { core, intake, held }
    }
}

/// So many places in which no item is held.
fn no_items(alloc: Global, count: usize) -> Result<Vec<Option<Item>>, AllocError>
    ensures { IfOk result (λ v. v.items ≡ replicate count None) }
{
    let mut places = Vec::with_capacity(alloc, count)?;
    for _ in 0..count {
        places.push_reserved(None);
    }
    Ok(places)
}

/// So many places in which no report is held.
fn no_reports(alloc: Global, count: usize) -> Result<Vec<Option<Report>>, AllocError>
    ensures { IfOk result (λ v. v.items ≡ replicate count None) }
{
    let mut places = Vec::with_capacity(alloc, count)?;
    for _ in 0..count {
        places.push_reserved(None);
    }
    Ok(places)
}

/// Room for so many items and reports.
fn room(alloc: Global, count: usize) -> Result<Held, AllocError>
    ensures items { IfOk result (λ h. (vec_len h.items ≡ 0) × (vec_capacity h.items ≡ count)) }
    ensures reports { IfOk result (λ h. (vec_len h.reports ≡ 0) × (vec_capacity h.reports ≡ count)) }
{
    let items = Vec::with_capacity(alloc, count)?;
    let reports = Vec::with_capacity(alloc, count)?;
    Ok(Held { items, reports })
}

/// Puts the items that are held behind one another.
fn gather_items(places: Vec<Option<Item>>, into: &mut Vec<Item>)
    requires empty { vec_len into.old ≡ 0 }
    requires room { length places.items ≤ vec_capacity into.old }
    ensures { into.new.items ≡ flat_map option_to_list places.items }
{
    for place in places {
        if let Some(item) = place {
            into.push_reserved(item);
        }
    }
}

/// Puts the reports that are held behind one another.
fn gather_reports(places: Vec<Option<Report>>, into: &mut Vec<Report>)
    requires empty { vec_len into.old ≡ 0 }
    requires room { length places.items ≤ vec_capacity into.old }
    ensures { into.new.items ≡ flat_map option_to_list places.items }
{
    for place in places {
        if let Some(report) = place {
            into.push_reserved(report);
        }
    }
}
