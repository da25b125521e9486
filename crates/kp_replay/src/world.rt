//! A world that runs.

ghost use Rattle.std.specs.Prelude.{◌≡◌, ◌==◌, [], ◌∷◌, if◌then◌else◌};
ghost use Rattle.kp_replay.specs.Line.{line_of, lines_of};
ghost use Rattle.kp_world.specs.Line as line;

mod accepting;
mod delivering;
mod happening;
mod hearing;
mod lines;
mod others;
mod sending;
mod taking;

use crate::accepted::Accepted;
use crate::broker::FIRST_ID;
use crate::fetching::fetch_all;
use crate::happened::Happened;
use crate::line::Line;
use crate::opening::{empty_logs, names_of_all, nothing_accepted, nothing_taken};
use kp_accum::Config;
use kp_core::{Core, Outgoing};
use kp_log::PartitionLog;
use kp_wire::Blob;
use std::alloc::{AllocError, Global};
use std::marker::Model;

/// The correlation id of the first request: a handshake uses 0 and 1.
const FIRST_CORRELATION: u32 = 2;

/// The sender core with its audit, the partitions' logs, copies of what was accepted, each packet and each reply as its
/// frame, and what happened, event by event.
#[derive(Debug, Drop)]
pub struct World {
    alloc: Global,
    core: Core,
    /// By sender, in order.
    accepted: Vec<Accepted>,
    /// By sender, how many of these were taken and appended.
    taken: Vec<usize>,
    packets: Vec<Outgoing>,
    replies: Vec<Blob>,
    /// By partition.
    logs: Vec<PartitionLog>,
    /// How many producer ids were drawn.
    drawn: u64,
    moment: u64,
    is_shut: bool,
    past: Vec<Happened>,
}

impl Model for World {
    ghost use Rattle.std.specs.Prelude.{length, map};
    ghost use Rattle.kp_replay.specs.Bounds.{IsInBounds};
    ghost use Rattle.kp_replay.specs.Line.{lines_of};
    ghost use Rattle.kp_replay.specs.Shown.{Seen};

    ghost Value = { Seen };

    ghost view = { λ w. record {
      core = w.core;
      accepted = w.accepted.items;
      taken = w.taken.items;
      packets = w.packets.items;
      replies = w.replies.items;
      logs = w.logs.items;
      drawn = w.drawn;
      moment = w.moment;
      is_shut = w.is_shut;
      past = map (λ h. record { answer = lines_of h.answer; reports = h.reports.items; flushed = h.flushed }) w.past.items;
    } };

    ghost invariant = { λ w.
        IsInBounds w.core (length w.accepted.items) (length w.taken.items) (length w.logs.items) w.moment };
}

impl World {
    ghost use Rattle.std.specs.Prelude.{◌≡◌, ◌<◌, ◌≤◌, ◌^◌, true, Ok, IfOk, OnOk};
    ghost use Rattle.kp_accum.specs.Config.{checked};
    ghost use Rattle.kp_replay.specs.Line.{lines_of};
    ghost use Rattle.kp_replay.specs.Shown.{LeadsOn, Shows, is_there, with_noted};
    ghost use Rattle.kp_world.specs.World.{opening, scheduled};
    ghost use Rattle.kp_world.specs.declared.event.Event.TheVariants as event;

    /// The world with which a schedule begins: nothing was accepted, sent or stored. There are so many partitions and
    /// senders, numbered from 0.
    pub fn open(
        alloc: Global,
        config: Config,
        partitions: u32,
        senders: u32,
    ) -> Result<World, AllocError>
        requires config { checked config ≡ Ok tt }
        requires some_partitions { 1 ≤ partitions }
        requires few_partitions { partitions ≤ 1024 }
        requires some_senders { 1 ≤ senders }
        requires few_senders { senders ≤ 64 }
        ensures { IfOk result (λ world. Shows config (opening (scheduled config partitions senders)) world) }
    {
        let names = names_of_all(alloc)?;
        let accepted = nothing_accepted(alloc, senders)?;
        let taken = nothing_taken(alloc, senders)?;
        let logs = empty_logs(alloc, partitions)?;
        let core = Core::new(
            alloc,
            config,
            names,
            partitions,
            senders,
            FIRST_ID,
            FIRST_CORRELATION,
            true,
        )?;
        Ok(World {
            alloc,
            core,
            accepted,
            taken,
            packets: Vec::new(alloc),
            replies: Vec::new(alloc),
            logs,
            drawn: 1,
            moment: 0,
            is_shut: false,
            past: Vec::new(alloc),
        })
    }

    /// Ends an event: fetches its reports, and notes them with what was answered.
    fn note(&mut self, was_flushed: bool, answer: Option<Line>) -> Result<(), AllocError>
        ensures { OnOk result (self.new ≡ with_noted (lines_of answer) was_flushed self.old) }
    {
        let flushed = !was_flushed && self.core.flushed();
        let reports = fetch_all(self.alloc, &mut self.core)?;
        self.past.push(Happened {
            answer,
            reports,
            flushed,
        })?;
        Ok(())
    }

    /// The clock shows this moment.
    pub fn now(&mut self, moment: u64) -> Result<(), AllocError>
        requires { moment < 2 ^ 63 }
        ensures { OnOk result (LeadsOn (event.Now moment) self.old self.new) }
    {
        let was_flushed = self.core.flushed();
        self.moment = moment;
        self.note(was_flushed, None)
    }

    /// The producer looks at the clock, for this node.
    pub fn tick(&mut self, node: u32) -> Result<(), AllocError>
        ensures { OnOk result (LeadsOn (event.TickNode node) self.old self.new) }
    {
        let was_flushed = self.core.flushed();
        let ticked = self.core.tick(node, self.moment);
        self.note(was_flushed, reconnect_line(ticked.reconnect))
    }

    /// The connection to this node is gone.
    pub fn drop_connection(&mut self, node: u32) -> Result<(), AllocError>
        ensures { OnOk result (LeadsOn (event.DropNode node) self.old self.new) }
    {
        let was_flushed = self.core.flushed();
        self.core.on_disconnect(node, self.moment);
        self.note(was_flushed, None)
    }

    /// This node leads the partition from now on.
    pub fn lead(&mut self, partition: u64, node: u32) -> Result<(), AllocError>
        requires { is_there (event.Leader partition node) self.old ≡ true }
        ensures { OnOk result (LeadsOn (event.Leader partition node) self.old self.new) }
    {
        let was_flushed = self.core.flushed();
        self.core.lead(partition as u32, node, self.moment);
        self.note(was_flushed, None)
    }

    /// No record is accepted from now on, and what was accepted is to be sent.
    pub fn close(&mut self) -> Result<(), AllocError>
        ensures { OnOk result (LeadsOn event.Close self.old self.new) }
    {
        let was_flushed = self.core.flushed();
        self.is_shut = true;
        self.core.close();
        self.note(was_flushed, None)
    }

    /// The producer gives up what is left.
    pub fn end(&mut self) -> Result<(), AllocError>
        ensures { OnOk result (LeadsOn event.End self.old self.new) }
    {
        let was_flushed = self.core.flushed();
        self.core.end();
        self.note(was_flushed, None)
    }

    /// The producer is to send all that it was given.
    pub fn flush(&mut self) -> Result<(), AllocError>
        ensures { OnOk result (LeadsOn event.Flush self.old self.new) }
    {
        let was_flushed = self.core.flushed();
        let answer = flush_line(self.core.untold());
        self.core.flush();
        self.note(was_flushed, Some(answer))
    }
}

/// Whether the connection is to be given up.
fn reconnect_line(reconnect: bool) -> Option<Line>
    ensures { lines_of result ≡ (if reconnect then line.Reconnect ∷ [] else []) }
{
    if reconnect {
        Some(Line::Reconnect)
    } else {
        None
    }
}

/// What a flush is answered where so many items are untold.
fn flush_line(untold: u64) -> Line
    ensures { line_of result ≡ (if untold == 0 then line.Flushed else line.Flushing) }
{
    if untold == 0 {
        Line::Flushed
    } else {
        Line::Flushing
    }
}
