//! The intake's ends of one sender's rings.

ghost use Rattle.std.specs.Prelude.{◌≡◌, ◌≤◌, length, drop};
ghost use Rattle.rtrb.specs.Ring.{received};
ghost use Rattle.kp_lanes.specs.Entries.{has_mark};

use crate::entry::Entry;
use crate::limits::Limits;
use crate::order::InOrder;
use crate::sender::Finished;
use kp_accum::Item;
use kp_rules::Report;
use rtrb::{Consumer, Producer, PushError};
use std::alloc::Global;
use std::snapshot::Snapshot;

/// The intake's ends of one sender's rings.
#[derive(Drop)]
pub struct Port {
    pub(crate) entries: Consumer<Entry, Global, InOrder>,
    pub(crate) reports: Producer<Report>,
    asked: bool,
    /// The end of the ring as it was when `asked` was called last.
    since: Snapshot<Consumer<Entry, Global, InOrder>>,
    ghost later: { length (received since.value) ≤ length (received entries) },
    ghost saw: { asked ≡ has_mark (drop (length (received since.value)) (received entries)) },
}

/// What stands first in a lane.
#[derive(Clone, Copy)]
pub(crate) enum Front {
    /// An item that its sender may have sent.
    AnItem,
    AMark,
    Nothing,
}

impl Port {
    ghost use Rattle.std.specs.Prelude.{◌≡◌, ◌⊎◌, ◌≤◌, ◌<◌, ◌+◌, ◌++◌, ◌∷◌, [], List, MatchBool, length, drop, IfSome, IfNone, OnOk, IfErr, vec_len, vec_capacity};
    ghost use Rattle.rtrb.specs.Ring.{known_items, known_free, received};
    ghost use Rattle.kp_lanes.specs.Entries.{items_of, has_mark, IsNext};
    ghost use Rattle.kp_lanes.specs.Limits.{Meets};
    ghost use Rattle.kp_lanes.specs.Rings.{push_end, pop_end};
    ghost use Rattle.kp_lanes.specs.Port.{passed, taken, told, asked_at, room, seen, places, SamePort, Extends, HasNothing, Stands};
    ghost use Rattle.kp_accum.specs.declared.item.Item.{Item};
    ghost use Rattle.kp_lanes.specs.declared.entry.Entry.{Entry};
    ghost use Rattle.kp_lanes.specs.declared.entry.Entry.TheVariants.{Sent, Mark};
    ghost use Rattle.kp_lanes.specs.declared.intake.port.Front.TheVariants.{AnItem};

    pub(crate) fn new(entries: Consumer<Entry, Global, InOrder>, reports: Producer<Report>) -> Port
        ensures { (result.entries ≡ entries) × (result.reports ≡ reports) × (asked_at result ≡ length (received entries)) }
    {
        let since = Snapshot::of(&entries);
        Port {
            entries,
            reports,
            asked: false,
            since,
        }
    }

    /// What stands first, as far as this end sees.
    #[inline(always)]
    fn front(&mut self, sender: u32, limits: Limits) -> Front
        ensures same { SamePort self.old self.new × (asked_at self.new ≡ asked_at self.old) × (passed self.new ≡ passed self.old) }
        ensures stands { Stands limits sender (seen self.new) result }
    {
        if self.entries.is_empty() {
            return Front::Nothing;
        }
        match self.entries.peek_known() {
            Entry::Mark => Front::AMark,
            Entry::Sent(item) if limits.allow(sender, item) => Front::AnItem,
            Entry::Sent(_) => Front::Nothing,
        }
    }

    /// Takes out the mark that stands first.
    fn pass_mark(&mut self)
        requires { (rest : List Entry) × (seen self.old ≡ Mark ∷ rest) }
        ensures same { SamePort self.old self.new × (asked_at self.new ≡ asked_at self.old) }
        ensures taken { taken self.new ≡ taken self.old }
        ensures passed { (length (passed self.new) ≡ length (passed self.old) + 1) × Extends (passed self.old) (passed self.new) }
    {
        self.entries.pop_known();
        self.asked = true;
    }

    /// Passes over marks, at most as many as the lane has places, and tells whether an item that this sender may have
    /// sent stands first then.
    #[inline]
    fn finds(&mut self, sender: u32, limits: Limits) -> bool
        ensures same { SamePort self.old self.new × (asked_at self.new ≡ asked_at self.old) }
        ensures taken { taken self.new ≡ taken self.old }
        ensures passed { Extends (passed self.old) (passed self.new) }
        ensures found { MatchBool result (Stands limits sender (seen self.new) AnItem)
            (HasNothing limits sender (seen self.new) ⊎ (length (passed self.new) ≡ length (passed self.old) + places self.old)) }
    {
        for _ in 0..self.entries.capacity() {
            match self.front(sender, limits) {
                Front::AnItem => return true,
                Front::AMark => self.pass_mark(),
                Front::Nothing => return false,
            }
        }
        false
    }

    /// Takes out the item that stands first.
    #[inline(never)]
    fn pop_item(&mut self) -> Item
        requires { (x : Item) × (rest : List Entry) × (seen self.old ≡ Sent x ∷ rest) }
        ensures same { SamePort self.old self.new × (asked_at self.new ≡ asked_at self.old) }
        ensures first { seen self.old ≡ Sent result ∷ seen self.new }
        ensures taken { taken self.new ≡ taken self.old ++ result ∷ [] }
        ensures next { IsNext (taken self.old) result }
        ensures passed { Extends (passed self.old) (passed self.new) }
    {
        match self.entries.pop_known() {
            Entry::Sent(item) => item,
            Entry::Mark => unreachable!(),
        }
    }

    /// The next item, if this end sees one behind fewer marks than the ring has places. An item that this sender may not
    /// have sent stays in the ring.
    #[inline(always)]
    pub(crate) fn take(&mut self, sender: u32, limits: Limits) -> Option<Item>
        ensures same { SamePort self.old self.new × (asked_at self.new ≡ asked_at self.old) }
        ensures some { IfSome result (λ x. (taken self.new ≡ taken self.old ++ x ∷ []) × IsNext (taken self.old) x × Meets limits sender x) }
        ensures none { IfNone result ((taken self.new ≡ taken self.old)
            × (HasNothing limits sender (seen self.new) ⊎ (length (passed self.new) ≡ length (passed self.old) + places self.old))) }
        ensures passed { Extends (passed self.old) (passed self.new) }
    {
        if !self.finds(sender, limits) {
            return None;
        }
        Some(self.pop_item())
    }

    /// Whether a mark was passed since the last call.
    pub(crate) fn asked(&mut self) -> bool
        ensures answer { result ≡ has_mark (drop (asked_at self.old) (passed self.old)) }
        ensures since { asked_at self.new ≡ length (passed self.old) }
        ensures same { (self.new.entries ≡ self.old.entries) × (self.new.reports ≡ self.old.reports) }
    {
        let asked = self.asked;
        self.since = Snapshot::of(&self.entries);
        self.asked = false;
        asked
    }

    pub(crate) fn report(&mut self, report: Report) -> Result<(), Report>
        ensures same { (push_end self.new.reports ≡ push_end self.old.reports) × (self.new.entries ≡ self.old.entries) × (asked_at self.new ≡ asked_at self.old) }
        ensures ok { OnOk result (told self.new ≡ told self.old ++ report ∷ []) }
        ensures full { IfErr result (λ back. (back ≡ report) × (told self.new ≡ told self.old) × (room self.old ≡ 0)) }
    {
        match self.reports.push(report) {
            Ok(()) => Ok(()),
            Err(PushError::Full(back)) => Err(back),
        }
    }
}

impl Port {
    ghost use Rattle.std.specs.Prelude.{[]};
    ghost use Rattle.kp_lanes.specs.Port.{passed, taken, told, asked_at};
    ghost use Rattle.kp_lanes.specs.Rings.{push_end, pop_end};
    ghost use Rattle.kp_lanes.specs.Sender.{finished_number, finished_id, all_entered, all_accepted, all_got};
    ghost use Rattle.kp_lanes.specs.Settling.{Meet};
    ghost use mathlib.Core.List.{IsPrefix};

    /// How many entries and reports are left in the rings, with both ends here.
    pub(crate) fn look(&mut self, finished: &mut Finished) -> (usize, usize)
        requires { Meet self.old finished.old }
        ensures port { (pop_end self.new.entries ≡ pop_end self.old.entries) × (push_end self.new.reports ≡ push_end self.old.reports)
            × (passed self.new ≡ passed self.old) × (told self.new ≡ told self.old) × (asked_at self.new ≡ asked_at self.old) }
        ensures finished { (finished_number finished.new ≡ finished_number finished.old) × (finished_id finished.new ≡ finished_id finished.old)
            × (all_entered finished.new ≡ all_entered finished.old) × (all_got finished.new ≡ all_got finished.old) }
        ensures left { passed self.old ++ known_items self.new.entries ≡ all_entered finished.old }
        ensures reports_left { all_got finished.old ++ known_items finished.new.reports ≡ told self.old }
        ensures items { length (all_accepted finished.old) ≤ length (taken self.old) + result.0 }
        ensures reports { length (told self.old) ≤ length (all_got finished.old) + result.1 }
    {
        let entries = self.entries.slots_beside(&mut finished.outbox.lane.ring);
        let reports = finished.reports.slots_beside(&mut self.reports);
        (entries, reports)
    }

    /// Takes out what is left in both rings, with both ends here.
    pub(crate) fn settle(
        &mut self,
        finished: &mut Finished,
        left: &mut Vec<Item>,
        reports: &mut Vec<Report>,
    )
        requires meet { Meet self.old finished.old }
        requires empty { (left.old.items ≡ []) × (reports.old.items ≡ []) }
        requires items { length (all_accepted finished.old) ≤ length (taken self.old) + vec_capacity left.old }
        requires reports { length (told self.old) ≤ length (all_got finished.old) + vec_capacity reports.old }
        ensures number { finished_number finished.new ≡ finished_number finished.old }
        ensures entered { IsPrefix (passed self.old) (all_entered finished.old) }
        ensures left { all_accepted finished.old ≡ taken self.old ++ left.new.items }
        ensures reports { told self.old ≡ all_got finished.old ++ reports.new.items }
    {
        self.look(finished);
        drain_items(&mut self.entries, left);
        drain_reports(&mut finished.reports, reports);
        self.since = Snapshot::of(&self.entries);
        self.asked = false;
    }
}

ghost use Rattle.std.specs.Prelude.{◌+◌, ◌++◌, vec_len, vec_capacity};
ghost use Rattle.rtrb.specs.Ring.{known_items};
ghost use Rattle.kp_lanes.specs.Entries.{items_of};

/// Takes out all entries that are known, drops the marks, and puts the items behind others.
fn drain_items(entries: &mut Consumer<Entry, Global, InOrder>, into: &mut Vec<Item>)
    requires { vec_len into.old + length (items_of (known_items entries.old)) ≤ vec_capacity into.old }
    ensures { into.new.items ≡ into.old.items ++ items_of (known_items entries.old) }
{
    for _ in 0..entries.cached_slots() {
        if let Entry::Sent(item) = entries.pop_known() {
            into.push_reserved(item);
        }
    }
}

/// Takes out all reports that are known, and puts them behind others.
fn drain_reports(reports: &mut Consumer<Report>, into: &mut Vec<Report>)
    requires { vec_len into.old + length (known_items reports.old) ≤ vec_capacity into.old }
    ensures { into.new.items ≡ into.old.items ++ known_items reports.old }
{
    for _ in 0..reports.cached_slots() {
        into.push_reserved(reports.pop_known());
    }
}
