//! Settling: both ends of each ring come together, and what is left in it is taken out.

ghost use Rattle.std.specs.Prelude.{◌≡◌, ℕ, ◌≤◌, ◌<◌, ◌+◌, ◌++◌, ◌↔◌, [], length, map, slice_index_or, All, IsTrue, IfOk, vec_len, vec_capacity};
ghost use mathlib.Core.List.{IsPrefix};
ghost use Rattle.kp_lanes.specs.Port.{passed, taken, told};
ghost use Rattle.kp_lanes.specs.Sender.{all_entered, all_accepted, all_got, finished_number};
ghost use Rattle.kp_lanes.specs.Settling.{numbers, left_items, left_reports, HasRooms, AddsAt, Differ, SameBut, MeetAt, Placed, SamePorts, SameFinished};

use crate::intake::port::Port;
use crate::opening::push;
use crate::sender::Finished;
use kp_accum::Item;
use kp_rules::Report;
use std::alloc::{AllocError, Global};

/// What was left in the rings.
#[derive(Drop)]
pub struct Settled {
    /// The items that were accepted and not taken: at place i those of sender i, in order.
    pub left: Vec<Vec<Item>>,
    /// The reports that were handed over and not received: at place i those of sender i, in order.
    pub reports: Vec<Vec<Report>>,
}

/// Whether no sender is there twice.
pub(crate) fn differ(finished: &Vec<Finished>) -> bool
    ensures { IsTrue result ↔ Differ (numbers finished.now.items) }
{
    for k in 0..finished.len() {
        for j in 0..k {
            if finished[j].outbox.sender == finished[k].outbox.sender {
                return false;
            }
        }
    }
    true
}

/// How many entries and reports are left of one sender.
fn look_at(
    ports: &mut Vec<Port>,
    finished: &mut Vec<Finished>,
    i: usize,
    j: usize,
) -> (usize, usize)
    requires port { i < vec_len ports.old }
    requires end { j < vec_len finished.old }
    requires meet { MeetAt ports.old.items finished.old.items i j }
    ensures ports { SamePorts ports.old.items ports.new.items }
    ensures finished { SameFinished finished.old.items finished.new.items }
    ensures items { length (slice_index_or (map all_accepted finished.old.items) j []) ≤ length (slice_index_or (map taken ports.old.items) i []) + result.0 }
    ensures reports { length (slice_index_or (map told ports.old.items) i []) ≤ length (slice_index_or (map all_got finished.old.items) j []) + result.1 }
{
    ports[i].look(&mut finished[j])
}

/// Takes out what is left of one sender.
fn settle_at(
    ports: &mut Vec<Port>,
    finished: &mut Vec<Finished>,
    settled: &mut Settled,
    i: usize,
    j: usize,
)
    requires port { (i < vec_len ports.old) × (i < vec_len settled.old.left) × (i < vec_len settled.old.reports) }
    requires end { j < vec_len finished.old }
    requires meet { MeetAt ports.old.items finished.old.items i j }
    requires empty { (slice_index_or (left_items settled.old.left.items) i [] ≡ []) × (slice_index_or (left_reports settled.old.reports.items) i [] ≡ []) }
    requires items { length (slice_index_or (map all_accepted finished.old.items) j [])
        ≤ length (slice_index_or (map taken ports.old.items) i []) + slice_index_or (map vec_capacity settled.old.left.items) i 0 }
    requires reports { length (slice_index_or (map told ports.old.items) i [])
        ≤ length (slice_index_or (map all_got finished.old.items) j []) + slice_index_or (map vec_capacity settled.old.reports.items) i 0 }
    ensures others { SameBut i ports.old.items ports.new.items × SameBut j finished.old.items finished.new.items × SameBut i settled.old.left.items settled.new.left.items × SameBut i settled.old.reports.items settled.new.reports.items }
    ensures numbers { map finished_number finished.new.items ≡ map finished_number finished.old.items }
    ensures entered { IsPrefix (slice_index_or (map passed ports.old.items) i []) (slice_index_or (map all_entered finished.old.items) j []) }
    ensures left { slice_index_or (map all_accepted finished.old.items) j []
        ≡ slice_index_or (map taken ports.old.items) i [] ++ slice_index_or (left_items settled.new.left.items) i [] }
    ensures told { slice_index_or (map told ports.old.items) i []
        ≡ slice_index_or (map all_got finished.old.items) j [] ++ slice_index_or (left_reports settled.new.reports.items) i [] }
{
    let left = &mut settled.left[i];
    let reports = &mut settled.reports[i];
    ports[i].settle(&mut finished[j], left, reports);
}

/// Empty lists for each sender, with room for what is left of it. The ends only look.
pub(crate) fn rooms(
    alloc: Global,
    ports: &mut Vec<Port>,
    finished: &mut Vec<Finished>,
) -> Result<Settled, AllocError>
    requires placed { Placed ports.old.items finished.old.items }
    requires differ { Differ (numbers finished.old.items) }
    ensures ports { SamePorts ports.old.items ports.new.items }
    ensures finished { SameFinished finished.old.items finished.new.items }
    ensures rooms { IfOk result (λ s. HasRooms ports.old.items finished.old.items s (length finished.old.items)) }
{
    let mut settled = empty(alloc, ports.len())?;
    for j in 0..finished.len() {
        let i = finished[j].outbox.sender as usize;
        let (items, reports) = look_at(ports, finished, i, j);
        settled.left[i] = Vec::with_capacity(alloc, items)?;
        settled.reports[i] = Vec::with_capacity(alloc, reports)?;
    }
    Ok(settled)
}

/// Empty lists for each sender, with no room.
fn empty(alloc: Global, senders: usize) -> Result<Settled, AllocError>
    ensures { IfOk result (λ s. (length s.left.items ≡ senders) × (length s.reports.items ≡ senders) × All (λ v. v.items ≡ []) s.left.items × All (λ v. v.items ≡ []) s.reports.items) }
{
    let mut settled = Settled {
        left: Vec::new(alloc),
        reports: Vec::new(alloc),
    };
    for _ in 0..senders {
        push(&mut settled.left, Vec::new(alloc))?;
        push(&mut settled.reports, Vec::new(alloc))?;
    }
    Ok(settled)
}

/// Takes out what is left of each sender. It takes no memory.
pub(crate) fn drain_all(ports: &mut Vec<Port>, finished: &mut Vec<Finished>, settled: &mut Settled)
    requires placed { Placed ports.old.items finished.old.items }
    requires differ { Differ (numbers finished.old.items) }
    requires rooms { HasRooms ports.old.items finished.old.items settled.old (length finished.old.items) }
    ensures all { (j : ℕ) → j < length finished.old.items → AddsAt ports.old.items finished.old.items settled.new j }
    ensures wide { (length settled.new.left.items ≡ length settled.old.left.items) × (length settled.new.reports.items ≡ length settled.old.reports.items) }
{
    for j in 0..finished.len() {
        let i = finished[j].outbox.sender as usize;
        settle_at(ports, finished, settled, i, j);
    }
}
