//! The producer.

ghost use Rattle.std.specs.Prelude.{◌≡◌, ◌≤◌, Ok, Some, None, IfOk, OnErr, OnOk, MatchOption, length};
ghost use Rattle.kp_accum.specs.Config.{checked};
ghost use Rattle.kp_rules.specs.Opening.{NAME_LIMIT};
ghost use Rattle.kp_cluster.specs.Actions.{told};
ghost use Rattle.kp_cluster.specs.Cluster.{address_at, new_cluster};
ghost use Rattle.kp_cluster.specs.declared.learning.TheConstants.{SLOT_LIMIT};

mod due;
mod ending;
mod feeding;
mod opening;
mod sending;
mod taking;
mod ticking;

use crate::calling;
use crate::fault::Fault;
use crate::line::Line;
use crate::lines::Lines;
pub use ending::Statistics;
use kp_accum::Config;
use kp_cluster::{Action, Address, Cluster, ClusterConfig};
use kp_core::{Core, Names};
use std::alloc::{AllocError, Global};
use std::marker::Model;

/// How a producer is configured, by Kafka's names.
#[derive(Clone, Copy, Debug, PartialEq, Eq)]
pub struct EmbedConfig {
    pub producer: Config,
    pub cluster: ClusterConfig,
    /// For how long after its making, in milliseconds, the producer tries to be ready.
    pub open_timeout_ms: u64,
}

/// How far a producer has come.
#[derive(Clone, Copy, Debug, PartialEq, Eq)]
pub enum Phase {
    /// No broker has said yet which partitions there are, and under which id the producer sends.
    Opening,
    /// Records are accepted, unless it is closed.
    Ready,
    /// Every correlation id was used: no further request goes out, and no record is accepted. What is open is told as ever, and
    /// what is queued then given up by `tick`.
    Spent,
    /// It was not ready in time, and never will be.
    Failed,
}

/// The request for a producer id.
#[derive(Debug, Drop)]
struct Identity {
    /// The node that was asked and has not answered.
    over: Option<u32>,
    asked_at: u64,
    /// Before this moment it is not asked for again.
    not_before: u64,
}

impl Identity {
    fn ask(&mut self, node: u32, now: u64) {
        self.over = Some(node);
        self.asked_at = now;
    }

    /// The node's connection is gone: what was asked over it is asked again.
    fn lose(&mut self, node: u32) {
        if self.over == Some(node) {
            self.over = None;
        }
    }
}

/// An idempotent producer of one topic, over the brokers of a cluster, which makes no call on the system: its owner connects,
/// moves the bytes and tells the time, in milliseconds of one clock.
#[derive(Debug, Drop)]
pub struct Embed {
    alloc: Global,
    config: EmbedConfig,
    names: Names,
    /// None before a broker has given an id.
    core: Option<Core>,
    /// By partition, the number of its next record.
    counts: Vec<u64>,
    /// By node, what its connection carries.
    lines: Lines,
    cluster: Cluster,
    identity: Identity,
    /// Where the next record goes that names no partition and has no key.
    turn: u32,
    is_closed: bool,
    /// It is to be ready before this moment.
    open_until: u64,
    is_failed: bool,
    /// The error code of the last refusal of Metadata or of a producer id.
    refused: Option<i16>,
}

impl Model for Embed {
    ghost use Rattle.std.specs.Prelude.{◌≡◌, ◌≤◌, Ok, length};
    ghost use Rattle.kp_accum.specs.Config.{checked};
    ghost use Rattle.kp_embed.specs.Producer.{Producer};
    ghost use Rattle.kp_embed.specs.Sound.{IsSound};

    ghost Value = { Producer };

    ghost view = { λ e. record {
      is_failed = e.is_failed;
      is_closed = e.is_closed;
      config = e.config.producer;
      names = e.names;
      core = e.core;
      counts = e.counts.items;
      lines = e.lines;
      cluster = e.cluster;
    } };

    ghost invariant = { λ e. IsSound e.config.producer e.names e.core e.counts.items };
}

impl Embed {
    ghost use Rattle.kp_embed.specs.Connecting.{Connects, Loses};
    ghost use Rattle.kp_embed.specs.Going.{Stays};
    ghost use Rattle.kp_embed.specs.Producer.{new_producer, with_cluster};

    /// A producer that knows these addresses (`bootstrap.servers`). The seed spreads its waits.
    pub fn new(
        alloc: Global,
        config: EmbedConfig,
        names: Names,
        bootstrap: Vec<Address>,
        seed: u64,
        now: u64,
    ) -> Result<Embed, AllocError>
        requires right { checked config.producer ≡ Ok tt }
        requires topic { length names.topic ≤ NAME_LIMIT }
        requires client { length names.client ≤ NAME_LIMIT }
        requires some { 1 ≤ length bootstrap.items }
        requires few { length bootstrap.items ≤ SLOT_LIMIT }
        ensures { IfOk result (λ e. e ≡ new_producer config.producer names (new_cluster config.cluster bootstrap.items)) }
    {
        let cluster = Cluster::new(alloc, config.cluster, bootstrap, seed)?;
        Ok(Embed {
            alloc,
            config,
            names,
            core: None,
            counts: Vec::new(alloc),
            lines: Lines::new(alloc),
            cluster,
            identity: Identity {
                over: None,
                asked_at: 0,
                not_before: 0,
            },
            turn: 0,
            is_closed: false,
            open_until: now.saturating_add(config.open_timeout_ms),
            is_failed: false,
            refused: None,
        })
    }

    /// What the owner is to do next, each told once: to connect to a node, whose address is `address`, and then to say
    /// `connected` or `lost`; or to close a connection, and then to say `lost`. It is called until there is nothing.
    pub fn next_action(&mut self, now: u64) -> Option<Action>
        ensures told { told now self.old.cluster ≡ record { action = result; cluster = self.new.cluster } }
        ensures same { self.new ≡ with_cluster self.new.cluster self.old }
    {
        self.cluster.next_action(now)
    }

    /// The host and the port of a node.
    pub fn address(&self, node: u32) -> Option<(&str, u16)>
        ensures { MatchOption result (address_at node self.now.cluster ≡ None) (λ a. address_at node self.now.cluster ≡ Some (a.0.now, a.1)) }
    {
        self.cluster.address(node)
    }

    /// A connection to the node is open: what is taken and fed from now on is of it. Where there was one, that is lost.
    pub fn connected(&mut self, node: u32, now: u64) -> Result<(), Fault>
        ensures connects { OnOk result (Connects node now self.old self.new) }
        ensures refused { OnErr result (Stays self.old self.new) }
        ensures still { self.new.is_closed ≡ self.old.is_closed }
    {
        let count = self.cluster.nodes();
        if node as usize >= count {
            return Err(Fault::NoNode);
        }
        let Ok(()) = self.lines.grow(count) else {
            return Err(Fault::OutOfMemory);
        };
        self.drop_line(node, now);
        self.lines.put(node, Line::new(self.alloc));
        self.cluster.connected(node);
        Ok(())
    }

    /// There is no connection to the node any more, by whoever closed it, or it could not be made. What was in flight there is
    /// sent again.
    pub fn lost(&mut self, node: u32, now: u64)
        ensures loses { Loses node now self.old self.new }
        ensures still { self.new.is_closed ≡ self.old.is_closed }
    {
        self.drop_line(node, now);
        self.cluster.lost(node, now);
    }

    /// The connection is of no use, and is to be closed.
    fn give_up(&mut self, node: u32, now: u64)
        ensures loses { Loses node now self.old self.new }
        ensures unopened { self.old.core ≡ None → self.new.core ≡ None }
        ensures still { self.new.is_closed ≡ self.old.is_closed }
    {
        self.drop_line(node, now);
        self.cluster.give_up(node);
    }

    /// Nothing is carried to the node any more.
    #[tactic(auto, using(crate::proofs::ActLemmas::still_none))]
    fn drop_line(&mut self, node: u32, now: u64)
        ensures loses { Loses node now self.old self.new }
        ensures cluster { self.new.cluster ≡ self.old.cluster }
        ensures there { length self.new.lines ≡ length self.old.lines }
        ensures unopened { self.old.core ≡ None → self.new.core ≡ None }
        ensures still { self.new.is_closed ≡ self.old.is_closed }
    {
        let _line = self.lines.take(node);
        calling::on_disconnect(&mut self.core, node, now);
        self.identity.lose(node);
    }
}
