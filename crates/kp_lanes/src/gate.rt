//! The gate: one word that counts who is sending, and is shut once.

ghost use Rattle.std.specs.Prelude.{◌≡◌, ◌≤◌, ◌+◌, ◌==◌, [], IfOk, true, false, MatchBool};
ghost use Rattle.kp_lanes.specs.declared.gate.view.Stage.TheVariants.{Out, Trying, Inside};
ghost use Rattle.kp_lanes.specs.Gate.{entered, newcomer, keeper, admitted, refused, outside, told_shut, looked, less_room};

pub mod plays;
pub mod view;

use crate::gate::plays::{Enter, GateRule, Leave, Look, SeatSender, SeatWatcher, Shut};
use crate::gate::view::View;
use atomic_table::Table;
use std::alloc::{AllocError, Global};

/// A token of no bytes, which carries what its owner knows of a gate. Only who has it can take a step at that gate.
pub type Seat = atomic_table::Seat<(), View>;

/// The bit of the word that says that the gate is shut.
const SHUT: u64 = 1;

/// What the word grows by for each seat that is trying or inside.
const ONE: u64 = 2;

/// One word: its lowest bit says that the gate is shut, the others count who is trying or inside.
#[derive(Drop)]
pub struct Gate {
    table: Table<(), View, (), GateRule, Global>,
    ghost one_word: { table.shared.table_id.words ≡ 1 },
}

impl Gate {
    /// An open gate, and its first seat, which has room for 64 senders. It alone may shut the gate.
    pub fn new(alloc: Global) -> Result<(Gate, Seat), AllocError>
        ensures here { IfOk result (λ r. r.1.table_id ≡ r.0.table.shared.table_id) }
        ensures view { IfOk result (λ r. r.1.me.0 ≡ keeper 64) }
    {
        let (table, seat) = Table::of_words(alloc, &[0], &())?;
        Ok((Gate { table }, seat))
    }

    /// A seat for one sender, with room from the given one.
    pub fn seat_sender(&self, seat: &mut Seat) -> Seat
        requires here { seat.old.table_id ≡ self.now.table.shared.table_id }
        requires out { seat.old.me.0.stage ≡ Out }
        requires room { 1 ≤ seat.old.me.0.room }
        ensures here { (seat.new.table_id ≡ seat.old.table_id) × (result.table_id ≡ seat.old.table_id) }
        ensures view { seat.new.me.0 ≡ less_room 1 seat.old.me.0 }
        ensures new { result.me.0 ≡ newcomer 1 }
    {
        self.table.shared.split_seat::<SeatSender>(seat)
    }

    /// A seat for someone who looks, and never enters.
    pub fn seat_watcher(&self, seat: &mut Seat) -> Seat
        requires here { seat.old.table_id ≡ self.now.table.shared.table_id }
        requires out { seat.old.me.0.stage ≡ Out }
        ensures here { (seat.new.table_id ≡ seat.old.table_id) × (result.table_id ≡ seat.old.table_id) }
        ensures view { seat.new.me.0 ≡ seat.old.me.0 }
        ensures new { result.me.0 ≡ newcomer 0 }
    {
        self.table.shared.split_seat::<SeatWatcher>(seat)
    }

    /// Enters, and says so; or finds the gate shut, and is then counted until it backs out.
    pub fn enter(&self, seat: &mut Seat) -> bool
        requires here { seat.old.table_id ≡ self.now.table.shared.table_id }
        requires out { (seat.old.me.0.stage ≡ Out) × (seat.old.me.0.room ≡ 1) }
        ensures here { seat.new.table_id ≡ seat.old.table_id }
        ensures view { MatchBool result
            ((seat.old.me.0.knows_shut ≡ false) × (seat.new.me.0 ≡ admitted seat.old.me.0))
            (seat.new.me.0 ≡ refused seat.old.me.0) }
    {
        let found = self.table.shared.fetch_add::<Enter>(seat, 0, ONE);
        !(found % 2 == SHUT)
    }

    /// Counts itself out again, where it found the gate shut.
    pub fn back_out(&self, seat: &mut Seat)
        requires here { seat.old.table_id ≡ self.now.table.shared.table_id }
        requires trying { seat.old.me.0.stage ≡ Trying }
        ensures here { seat.new.table_id ≡ seat.old.table_id }
        ensures view { seat.new.me.0 ≡ outside seat.old.me.0 }
    {
        self.count_out(seat);
    }

    /// Leaves, where it is inside.
    pub fn leave(&self, seat: &mut Seat)
        requires here { seat.old.table_id ≡ self.now.table.shared.table_id }
        requires inside { seat.old.me.0.stage ≡ Inside }
        ensures here { seat.new.table_id ≡ seat.old.table_id }
        ensures view { seat.new.me.0 ≡ outside seat.old.me.0 }
    {
        self.count_out(seat);
    }

    /// Who is trying or inside is counted no more.
    fn count_out(&self, seat: &mut Seat)
        requires here { seat.old.table_id ≡ self.now.table.shared.table_id }
        requires counted { entered seat.old.me.0 ≡ 1 }
        ensures here { seat.new.table_id ≡ seat.old.table_id }
        ensures view { seat.new.me.0 ≡ outside seat.old.me.0 }
    {
        self.table.shared.fetch_sub::<Leave>(seat, 0, ONE);
    }

    /// Shuts the gate, for good.
    pub fn shut(&self, seat: &mut Seat)
        requires here { seat.old.table_id ≡ self.now.table.shared.table_id }
        requires may { seat.old.me.0.may_shut ≡ true }
        ensures here { seat.new.table_id ≡ seat.old.table_id }
        ensures view { seat.new.me.0 ≡ told_shut seat.old.me.0 }
    {
        self.table.shared.fetch_or::<Shut>(seat, 0, SHUT);
    }

    /// Looks once. It is true where the gate was shut and nobody was trying or inside. Who may shut it finds it shut only
    /// where it has shut it.
    pub fn quiet(&self, seat: &mut Seat) -> bool
        requires here { seat.old.table_id ≡ self.now.table.shared.table_id }
        ensures here { seat.new.table_id ≡ seat.old.table_id }
        ensures view { seat.new.me.0 ≡ looked seat.old.me.0 seat.new.me.0.found }
        ensures answer { result ≡ (seat.new.me.0.found == 1) }
        ensures only { seat.old.me.0.may_shut ≡ true → seat.new.me.0.knows_shut ≡ seat.old.me.0.knows_shut }
    {
        let found = self.table.shared.load::<Look>(seat, 0);
        found == SHUT
    }
}
