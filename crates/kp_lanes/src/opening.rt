//! Opening the lanes.

ghost use Rattle.std.specs.Prelude.{◌≡◌, ◌≤◌, ◌<◌, ◌-◌, ◌++◌, ◌∷◌, [], IfOk, IfErr, OnOk, length, map, slice_index_or, All};
ghost use Rattle.std.specs.Arc.{arc_value};
ghost use Rattle.kp_lanes.specs.declared.gate.view.Stage.TheVariants.{Out};
ghost use Rattle.kp_lanes.specs.Gate.{newcomer, keeper, less_room};
ghost use Rattle.kp_lanes.specs.Tokens.{gate_id, seat_gate, view};
ghost use Rattle.kp_lanes.specs.Sender.{sender_id, sender_number, IsFresh, IsSenderOf};
ghost use Rattle.kp_lanes.specs.Port.{port_id};
ghost use Rattle.kp_lanes.specs.Intake.{lanes_of, intake_gate, intake_view, intake_limits, passed_lists, told_lists, asked_lists, rooms, IsEmpty, numbers_below};
ghost use Rattle.kp_lanes.specs.Closer.{closer_gate, closer_view};
ghost use Rattle.kp_lanes.specs.Opening.{MayOpen, MayNotOpen};

use crate::closer::Closer;
use crate::fault::OpenFault;
use crate::gate::{Gate, Seat};
use crate::intake::Intake;
use crate::intake::port::Port;
use crate::lane::Lane;
use crate::limits::Limits;
use crate::order::InOrder;
use crate::sender::Sender;
use crate::sender::outbox::Outbox;
use rtrb::RingBuffer;
use std::alloc::{AllocError, AllocFailed, Global};
use std::sync::Arc;

/// The most senders: the gate has room for so many.
const MOST_SENDERS: u32 = 64;

/// The most places of a lane, and of a ring of reports.
const MOST_CAPACITY: usize = 65536;

/// The most partitions.
const MOST_PARTITIONS: u32 = 1024;

/// Adds to a list.
pub(crate) fn push<T: Drop>(all: &mut Vec<T>, x: T) -> Result<(), AllocError>
    ensures { OnOk result (all.new.items ≡ all.old.items ++ x ∷ []) }
{
    match all.push(x) {
        Ok(()) => Ok(()),
        Err(AllocFailed { value: _ }) => Err(AllocError),
    }
}

/// So many zeros.
fn zeros(alloc: Global, len: usize) -> Result<Vec<u64>, AllocError>
    ensures len { IfOk result (λ v. length v.items ≡ len) }
    ensures zeros { IfOk result (λ v. All (λ n. n ≡ 0) v.items) }
{
    let mut all = Vec::with_capacity(alloc, len)?;
    for _ in 0..len {
        push(&mut all, 0)?;
    }
    Ok(all)
}

fn shared(alloc: Global, gate: Gate) -> Result<Arc<Gate, Global>, AllocError>
    ensures { IfOk result (λ a. arc_value a ≡ gate) }
{
    Ok(Arc::new(alloc, gate)?)
}

/// The sender of this number, and the intake's ends of its rings.
fn open_lane(
    alloc: Global,
    gate: &Arc<Gate, Global>,
    seat: &mut Seat,
    number: u32,
    capacity: usize,
    limits: Limits,
) -> Result<(Sender, Port), AllocError>
    requires here { seat_gate seat.old ≡ gate_id (arc_value gate.now) }
    requires out { (view seat.old).stage ≡ Out }
    requires room { 1 ≤ (view seat.old).room }
    requires some { 1 ≤ limits.partitions }
    ensures seat { (seat_gate seat.new ≡ seat_gate seat.old) × (view seat.new ≡ less_room 1 (view seat.old)) }
    ensures fresh { IfOk result (λ r. IsFresh capacity limits r.0 × IsEmpty capacity r.1) }
    ensures meet { IfOk result (λ r. sender_id r.0 ≡ port_id (record { gate = gate_id (arc_value gate.now); limits = limits }) r.1) }
    ensures number { IfOk result (λ r. sender_number r.0 ≡ number) }
{
    let mine = gate.seat_sender(seat);
    let (producer, entries) = RingBuffer::with_protocol::<Global, InOrder>(alloc, capacity)?;
    let (reports, consumer) = RingBuffer::new(alloc, capacity)?;
    let next = zeros(alloc, limits.partitions as usize)?;
    let lane = Lane::new(Arc::try_clone(gate)?, producer);
    let outbox = Outbox::new(number, limits, next, lane);
    Ok((
        Sender::new(outbox, consumer, mine),
        Port::new(entries, reports),
    ))
}

/// Opens lanes for senders 0, 1, 2, .., each with room for `capacity` items and marks, and for as many reports. Records
/// go to partitions below `partitions`, and each is at most `max_record`, as the size in bytes of the batch that holds it
/// alone.
pub fn open_lanes(
    alloc: Global,
    senders: u32,
    capacity: usize,
    partitions: u32,
    max_record: u64,
) -> Result<(Vec<Sender>, Intake, Closer), OpenFault>
    ensures opened { IfOk result (λ _. MayOpen senders capacity partitions) }
    ensures refused { IfErr result (MayNotOpen senders capacity partitions) }

    // Each sender, at its place, is new, and its rings are those of the intake.
    ensures count { IfOk result (λ r. length r.0.items ≡ senders) }
    ensures numbers { IfOk result (λ r. map sender_number r.0.items ≡ numbers_below senders) }
    ensures meet { IfOk result (λ r. map sender_id r.0.items ≡ lanes_of r.1) }
    ensures of { IfOk result (λ r. All (IsSenderOf (lanes_of r.1)) r.0.items) }
    ensures lanes { IfOk result (λ r. length (lanes_of r.1) ≡ senders) }
    ensures fresh { IfOk result (λ r. All (IsFresh capacity (record { partitions = partitions; max_record = max_record })) r.0.items) }
    ensures limits { IfOk result (λ r. intake_limits r.1 ≡ record { partitions = partitions; max_record = max_record }) }
    ensures empty { IfOk result (λ r. All (λ l. l ≡ []) (passed_lists r.1) × All (λ l. l ≡ []) (told_lists r.1) × All (λ n. n ≡ 0) (asked_lists r.1)) }
    ensures rooms { IfOk result (λ r. All (λ n. n ≡ capacity) (rooms r.1)) }

    // The gate is open, and the closer alone may shut it.
    ensures gate { IfOk result (λ r. closer_gate r.2 ≡ intake_gate r.1) }
    ensures views { IfOk result (λ r. (intake_view r.1 ≡ newcomer 0) × (closer_view r.2 ≡ keeper (64 - senders))) }
{
    if senders < 1 || senders > MOST_SENDERS {
        return Err(OpenFault::Senders);
    }
    if capacity < 1 || capacity > MOST_CAPACITY {
        return Err(OpenFault::Capacity);
    }
    if partitions < 1 || partitions > MOST_PARTITIONS {
        return Err(OpenFault::Partitions);
    }
    let limits = Limits {
        partitions,
        max_record,
    };
    Ok(open_all(alloc, senders, capacity, limits)?)
}

fn open_all(
    alloc: Global,
    senders: u32,
    capacity: usize,
    limits: Limits,
) -> Result<(Vec<Sender>, Intake, Closer), AllocError>
    requires few { senders ≤ 64 }
    requires some { 1 ≤ limits.partitions }
    ensures count { IfOk result (λ r. length r.0.items ≡ senders) }
    ensures numbers { IfOk result (λ r. map sender_number r.0.items ≡ numbers_below senders) }
    ensures meet { IfOk result (λ r. map sender_id r.0.items ≡ lanes_of r.1) }
    ensures of { IfOk result (λ r. All (IsSenderOf (lanes_of r.1)) r.0.items) }
    ensures lanes { IfOk result (λ r. length (lanes_of r.1) ≡ senders) }
    ensures fresh { IfOk result (λ r. All (IsFresh capacity limits) r.0.items) }
    ensures limits { IfOk result (λ r. intake_limits r.1 ≡ limits) }
    ensures empty { IfOk result (λ r. All (λ l. l ≡ []) (passed_lists r.1) × All (λ l. l ≡ []) (told_lists r.1) × All (λ n. n ≡ 0) (asked_lists r.1)) }
    ensures rooms { IfOk result (λ r. All (λ n. n ≡ capacity) (rooms r.1)) }
    ensures gate { IfOk result (λ r. closer_gate r.2 ≡ intake_gate r.1) }
    ensures views { IfOk result (λ r. (intake_view r.1 ≡ newcomer 0) × (closer_view r.2 ≡ keeper (64 - senders))) }
{
    let (gate, mut seat) = Gate::new(alloc)?;
    let gate = shared(alloc, gate)?;
    let watcher = gate.seat_watcher(&mut seat);
    let mut ends: Vec<Sender> = Vec::new(alloc);
    let mut ports: Vec<Port> = Vec::new(alloc);
    for number in 0..senders {
        let (sender, port) = open_lane(alloc, &gate, &mut seat, number, capacity, limits)?;
        push(&mut ends, sender)?;
        push(&mut ports, port)?;
    }
    let intake = Intake::new(Arc::try_clone(&gate)?, watcher, limits, ports);
    Ok((ends, intake, Closer::new(gate, seat)))
}
