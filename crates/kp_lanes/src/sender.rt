//! What sends records and receives reports of them.

ghost use Rattle.std.specs.Prelude.{◌≡◌, ◌^◌, ◌-◌, min, length};
ghost use Rattle.std.specs.Arc.{arc_value};
ghost use Rattle.kp_lanes.specs.declared.gate.view.Stage.TheVariants.{Out};
ghost use Rattle.rtrb.specs.Ring.{received};
ghost use Rattle.kp_lanes.specs.Limits.{AreInPlace};

pub(crate) mod outbox;

use crate::fault::{FlushFault, SendFault};
use crate::gate::Seat;
use crate::sender::outbox::Outbox;
use crate::target::{Target, Ticket};
use kp_batch::Record;
use kp_rules::Report;
use rtrb::Consumer;

/// What sends records and receives reports of them, on a thread of its own.
#[derive(Drop)]
pub struct Sender {
    outbox: Outbox,
    reports: Consumer<Report>,
    /// How many reports were received, or u64::MAX where there were more.
    heard: u64,
    seat: Seat,
    ghost here: { seat.table_id ≡ (arc_value outbox.lane.gate).table.shared.table_id },
    ghost stands: { (seat.me.0.stage ≡ Out) × (seat.me.0.room ≡ 1) },
    ghost counted: { heard ≡ min (length (received reports)) (2 ^ 64 - 1) },
}

impl Sender {
    ghost use Rattle.std.specs.Prelude.{◌≡◌, ◌≢◌, ◌<◌, ◌-◌, ◌++◌, ◌∷◌, [], true, length, IfOk, IfErr, IsErr, OnOk, OnErr, IfSome, IfNone, IsSome, ◌⊎◌};
    ghost use Rattle.kp_lanes.specs.declared.fault.FlushFault.TheVariants as flushing;
    ghost use Rattle.kp_lanes.specs.declared.fault.SendFault.TheVariants.{Closed};
    ghost use Rattle.kp_lanes.specs.declared.entry.Entry.TheVariants.{Sent, Mark};
    ghost use Rattle.kp_accum.specs.declared.item.Item.{Item};
    ghost use Rattle.kp_lanes.specs.Entries.{count_of};
    ghost use Rattle.kp_lanes.specs.Gate.{told_shut};
    ghost use Rattle.kp_lanes.specs.Lane.{pushed};
    ghost use Rattle.kp_lanes.specs.Sender.{SameSender, sender_number, sender_id, sender_view, entered, accepted, got, seen_reports, turn, known_free_of, goes_to, turn_after, Accepts, Refuses, limits_of, finished_number, finished_id, all_entered, all_accepted, all_got};

    pub(crate) fn new(outbox: Outbox, reports: Consumer<Report>, seat: Seat) -> Sender
        requires here { seat.table_id ≡ (arc_value outbox.lane.gate).table.shared.table_id }
        requires stands { (seat.me.0.stage ≡ Out) × (seat.me.0.room ≡ 1) }
        requires unheard { received reports ≡ [] }
        ensures { (result.outbox ≡ outbox) × (result.reports ≡ reports) × (result.seat ≡ seat) }
    {
        Sender {
            outbox,
            reports,
            heard: 0,
            seat,
        }
    }

    /// Which of the senders it is, from 0.
    pub fn number(&self) -> u32
        ensures { result ≡ sender_number self.now }
    {
        self.outbox.sender()
    }

    /// Sends a record that the caller accepted at the moment `at`, and says where it stands. At a fault it comes back and
    /// nothing has changed, but that the sender may now know that the gate is shut.
    pub fn send(
        &mut self,
        target: Target,
        body: Record,
        at: u64,
    ) -> Result<Ticket, (SendFault, Record)>
        ensures same { SameSender self.old self.new × (got self.new ≡ got self.old) }

        // An accepted record stands last in the lane, with the next number of its partition.
        ensures accepts { IfOk result (λ t. Accepts self.old t.partition body) }
        ensures partition { IfOk result (λ t. t.partition ≡ goes_to self.old target body) }
        ensures number { IfOk result (λ t. t.number ≡ count_of t.partition (accepted self.old)) }
        ensures entered { IfOk result (λ t. entered self.new ≡ entered self.old
            ++ Sent (record { sender = sender_number self.old; partition = t.partition; number = t.number; at = at; body = body }) ∷ []) }
        ensures accepted { IfOk result (λ t. accepted self.new ≡ accepted self.old
            ++ record { sender = sender_number self.old; partition = t.partition; number = t.number; at = at; body = body } ∷ []) }
        ensures turn { OnOk result (turn self.new ≡ turn_after self.old target body) }

        // A refused one comes back.
        ensures back { IfErr result (λ e. e.1 ≡ body) }
        ensures lost_nothing { OnErr result ((entered self.new ≡ entered self.old) × (turn self.new ≡ turn self.old)) }
        ensures why { IfErr result (λ e. e.0 ≢ Closed → Refuses self.old (goes_to self.old target body) body e.0) }

        // What the sender knows of the gate.
        ensures unknown { OnOk result (sender_view self.new ≡ sender_view self.old) }
        ensures other { IfErr result (λ e. e.0 ≢ Closed → sender_view self.new ≡ sender_view self.old) }
        ensures closed { IfErr result (λ e. e.0 ≡ Closed → sender_view self.new ≡ told_shut (sender_view self.old)) }
        ensures stays { (sender_view self.old).knows_shut ≡ true → IfErr result (λ e. e.0 ≡ Closed) × IsErr result }
    {
        if !self.outbox.gate().enter(&mut self.seat) {
            self.outbox.gate().back_out(&mut self.seat);
            return Err((SendFault::Closed, body));
        }
        let sent = self.outbox.offer(&self.seat, target, body, at);
        self.outbox.gate().leave(&mut self.seat);
        sent
    }

    /// Asks for a flush of all that this sender has sent: puts a mark behind it. At a fault nothing has changed, but that
    /// the sender may now know that the gate is shut.
    pub fn flush(&mut self) -> Result<(), FlushFault>
        ensures same { SameSender self.old self.new × (got self.new ≡ got self.old) × (turn self.new ≡ turn self.old) }
        ensures items { accepted self.new ≡ accepted self.old }
        ensures ok { OnOk result (entered self.new ≡ entered self.old ++ Mark ∷ []) }
        ensures lost_nothing { OnErr result (entered self.new ≡ entered self.old) }
        ensures full { IfErr result (λ e. e ≡ flushing.LaneFull → known_free_of self.old ≡ 0) }
        ensures unknown { OnOk result (sender_view self.new ≡ sender_view self.old) }
        ensures other { IfErr result (λ e. e ≢ flushing.Closed → sender_view self.new ≡ sender_view self.old) }
        ensures closed { IfErr result (λ e. e ≡ flushing.Closed → sender_view self.new ≡ told_shut (sender_view self.old)) }
        ensures stays { (sender_view self.old).knows_shut ≡ true → IfErr result (λ e. e ≡ flushing.Closed) × IsErr result }
    {
        if self.outbox.gate().enter(&mut self.seat) {
            let marked = self.outbox.mark(&self.seat);
            self.outbox.gate().leave(&mut self.seat);
            marked
        } else {
            self.outbox.gate().back_out(&mut self.seat);
            Err(FlushFault::Closed)
        }
    }

    /// How many records were accepted, less the reports that were received; 0 where these are more.
    pub fn waiting(&self) -> u64
        ensures { result ≡ length (accepted self.now) - length (got self.now) }
    {
        self.outbox.count().saturating_sub(self.heard)
    }

    /// The next report, if this end sees one.
    pub fn poll_report(&mut self) -> Option<Report>
        ensures same { SameSender self.old self.new × (sender_view self.new ≡ sender_view self.old) }
        ensures lane { (entered self.new ≡ entered self.old) × (turn self.new ≡ turn self.old) × (known_free_of self.new ≡ known_free_of self.old) }
        ensures some { IfSome result (λ r. got self.new ≡ got self.old ++ r ∷ []) }
        ensures none { IfNone result ((got self.new ≡ got self.old) × (seen_reports self.new ≡ [])) }
        ensures sees { 0 < length (seen_reports self.old) → IsSome result }
    {
        let report = self.reports.pop().ok()?;
        self.heard = self.heard.saturating_add(1);
        Some(report)
    }

    /// Ends the sender. Its ends of the rings stay as they are.
    pub fn finish(self) -> Finished
        ensures same { (finished_number result ≡ sender_number self) × (finished_id result ≡ sender_id self) × (all_accepted result ≡ accepted self) × (all_got result ≡ got self) }
        ensures entered { all_entered result ≡ entered self }

        // Each record was numbered by its place.
        ensures in_place { AreInPlace (limits_of self) (sender_number self) (all_accepted result) }
    {
        let Sender {
            outbox,
            reports,
            heard: _,
            seat: _,
        } = self;
        Finished { outbox, reports }
    }
}

/// A sender's ends of its rings, once it sends no more.
#[derive(Drop)]
pub struct Finished {
    pub(crate) outbox: Outbox,
    pub(crate) reports: Consumer<Report>,
}
