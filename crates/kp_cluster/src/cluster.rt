//! A cluster: its slots, who leads each partition, and when Metadata is asked for.

ghost use Rattle.std.specs.Prelude.{◌≡◌, ◌≤◌, ◌<◌, ◌+◌, Option, Some, None, length, true, IfOk, OnOk, OnErr, MatchOption};
ghost use Rattle.kp_cluster.specs.Cluster.{new_cluster, leader_of, is_open_at, address_at, connected, with_given_up, with_wanted, with_answered, asking_again, chart_refused};
ghost use Rattle.kp_cluster.specs.Backoff.{Loses};
ghost use Rattle.kp_cluster.specs.Metadata.{may_ask, asked, heeded};
ghost use Rattle.kp_cluster.specs.Actions.{told, next_due, next_metadata};
ghost use Rattle.kp_cluster.specs.Learning.{learned, charted_to_one, charted_by_id, with_leaders};

use crate::action::Action;
use crate::actions::{
    earlier, first_due, first_given_up, is_any_live, is_any_open, later_than, next_connect,
    pause_end, ready_in_turn,
};
use crate::backoff::Spread;
use crate::config::ClusterConfig;
use crate::learning::{SLOT_LIMIT, all_led_by, all_placed, leader_slots, mark_leaders, of_known};
use crate::metadata::{Metadata, is_past_or};
use crate::slot::{Address, Phase, Slot};
use crate::slots;
use kp_hello::Chart;
use std::alloc::{AllocError, Global};
use std::marker::Model;

/// Who leads each partition of a topic, and which connections are wanted.
#[derive(Debug, Drop)]
pub struct Cluster {
    alloc: Global,
    config: ClusterConfig,
    slots: Vec<Slot>,
    /// By partition the slot that leads it.
    leaders: Vec<Option<u32>>,
    metadata: Metadata,
    /// The slot from which on one is sought where no connection is open.
    turn: usize,
    spread: Spread,
}

impl Model for Cluster {
    ghost use Rattle.kp_cluster.specs.Cluster as seen;
    ghost use Rattle.kp_cluster.specs.Sound.{IsSound};

    ghost Value = { seen.Cluster };

    ghost view = { λ c. record { config = c.config; slots = c.slots.items; leaders = c.leaders.items; metadata = c.metadata; turn = c.turn } };

    ghost invariant = { λ c. IsSound c.slots.items c.turn };
}

impl Cluster {
    /// A cluster of which these addresses are known (`bootstrap.servers`), with no connection. The seed spreads the waits.
    pub fn new(
        alloc: Global,
        config: ClusterConfig,
        bootstrap: Vec<Address>,
        seed: u64,
    ) -> Result<Cluster, AllocError>
        requires some { 1 ≤ length bootstrap.items }
        requires limit { length bootstrap.items ≤ SLOT_LIMIT }
        ensures { IfOk result (λ c. c ≡ new_cluster config bootstrap.items) }
    {
        let slots = slots::of_addresses(alloc, bootstrap)?;
        Ok(Cluster {
            alloc,
            config,
            slots,
            leaders: Vec::new(alloc),
            metadata: Metadata::NEW,
            turn: 0,
            spread: Spread::new(seed),
        })
    }

    // ---- what it tells

    /// How many slots there are: they are numbered 0, 1, ..
    pub fn nodes(&self) -> usize
        ensures count { result ≡ length self.now.slots }
        ensures limit { result ≤ SLOT_LIMIT }
    {
        self.slots.len()
    }

    /// How many partitions are known: none before the first chart.
    pub fn partitions(&self) -> usize
        ensures { result ≡ length self.now.leaders }
    {
        self.leaders.len()
    }

    /// The slot of the node that leads the partition.
    pub fn leader(&self, partition: u32) -> Option<u32>
        ensures { result ≡ leader_of partition self.now }
    {
        match self.leaders.get(partition as usize) {
            Some(leader) => *leader,
            None => None,
        }
    }

    /// Whether the slot's connection is open, and was not given up.
    pub fn is_open(&self, node: u32) -> bool
        ensures { result ≡ is_open_at node self.now.slots }
    {
        slots::is_open(&self.slots, node)
    }

    /// The slot's host and port.
    pub fn address(&self, node: u32) -> Option<(&str, u16)>
        ensures { MatchOption result (address_at node self.now ≡ None) (λ a. address_at node self.now ≡ Some (a.0.now, a.1)) }
    {
        match self.slots.get(node as usize) {
            Some(slot) => Some((slot.host.as_str(), slot.port)),
            None => None,
        }
    }

    // ---- connections

    /// What is to be done next. Each is told once: it is called until there is nothing.
    pub fn next_action(&mut self, now: u64) -> Option<Action>
        ensures { told now self.old ≡ record { action = result; cluster = self.new } }
    {
        if let Some(place) = first_given_up(&self.slots) {
            slots::set_phase(&mut self.slots, place, Phase::Closing);
            return Some(Action::Close(place as u32));
        }
        if let Some(place) = first_due(&self.slots, now) {
            slots::set_phase(&mut self.slots, place, Phase::Opening);
            return Some(Action::Connect(place as u32));
        }
        if is_any_live(&self.slots) {
            return None;
        }
        let place = ready_in_turn(&self.slots, self.turn, now)?;
        slots::set_phase(&mut self.slots, place, Phase::Opening);
        self.turn = place + 1;
        Some(Action::Connect(place as u32))
    }

    /// The connection that was being opened is open. Where it is to a broker whose id is known, those to mere addresses
    /// that lead nothing are given up.
    pub fn connected(&mut self, node: u32)
        ensures { self.new ≡ connected node self.old }
    {
        slots::open(&mut self.slots, node);
        if slots::is_broker_open(&self.slots, node) {
            slots::give_up_spares(&mut self.slots);
        }
    }

    /// The connection is gone: it was refused, timed out, was closed or lost. Metadata is wanted.
    pub fn lost(&mut self, node: u32, now: u64)
        ensures { Loses node now self.old self.new }
    {
        let Some(failures) = slots::count_once_lost(&self.slots, node) else {
            return;
        };
        let wait = self.spread.wait(&self.config, failures);
        slots::lose(&mut self.slots, node, now, wait);
        self.metadata.lose(node);
    }

    /// The connection is of no use: it is to be closed, and then it is lost.
    pub fn give_up(&mut self, node: u32)
        ensures { self.new ≡ with_given_up node self.old }
    {
        slots::give_up(&mut self.slots, node);
    }

    /// There is something to send to this node: from now on its connection is wanted while it leads a partition.
    pub fn want(&mut self, node: u32)
        ensures { self.new ≡ with_wanted node self.old }
    {
        slots::want(&mut self.slots, node);
    }

    /// An answer came over the connection, to whatever request: its failures are forgotten.
    pub fn answered(&mut self, node: u32)
        ensures { self.new ≡ with_answered node self.old }
    {
        slots::forget_failures(&mut self.slots, node);
    }

    // ---- Metadata

    /// Whether Metadata is to be asked over this connection now.
    pub fn may_ask(&self, node: u32, now: u64) -> bool
        ensures { result ≡ may_ask node now self.now }
    {
        self.is_open(node) && self.metadata.is_to_be_asked(now)
    }

    /// Metadata was asked over this connection.
    pub fn asked(&mut self, node: u32, now: u64)
        requires { may_ask node now self.old ≡ true }
        ensures { self.new ≡ asked node now self.old }
    {
        self.metadata.ask(node, now);
    }

    /// Metadata is wanted: leaders may have moved.
    pub fn ask_again(&mut self)
        ensures { self.new ≡ asking_again self.old }
    {
        self.metadata.want();
    }

    /// The answer to Metadata came, and tells no chart: it is wanted again.
    pub fn refuse_chart(&mut self)
        ensures { self.new ≡ chart_refused self.old }
    {
        self.metadata.refuse();
    }

    /// Time goes on: an answer to Metadata that is late gives its connection up, and Metadata is wanted; it is wanted, too,
    /// once the last chart is too old.
    pub fn heed(&mut self, now: u64)
        ensures { self.new ≡ heeded now self.old }
    {
        match self.metadata.awaited {
            Some(node) => {
                let timeout = self.config.request_timeout_ms;
                if is_past_or(false, timeout, now, self.metadata.asked_at) {
                    self.give_up(node);
                    self.refuse_chart();
                }
            }
            None => {
                let age = self.config.metadata_max_age_ms;
                if is_past_or(false, age, now, self.metadata.charted_at) {
                    self.ask_again();
                }
            }
        }
    }

    /// What the answer to Metadata that was awaited says of the cluster. One that was not awaited changes nothing, and one
    /// with fewer partitions than are known is not used. Where memory is refused, nothing has changed.
    pub fn learn(&mut self, chart: &Chart, now: u64) -> Result<(), AllocError>
        ensures ok { OnOk result (self.new ≡ learned chart.now.nodes.items chart.now.leaders.items now self.old) }
        ensures err { OnErr result (self.new ≡ self.old) }
    {
        match self.metadata.awaited {
            None => Ok(()),
            Some(_) if chart.leaders.len() < self.leaders.len() => {
                self.refuse_chart();
                Ok(())
            }
            Some(node) if self.config.keep_to_one => self.chart_to_one(node, chart, now),
            Some(_) => self.chart_by_id(chart, now),
        }
    }

    /// All that has a leader is led by this slot.
    fn chart_to_one(&mut self, node: u32, chart: &Chart, now: u64) -> Result<(), AllocError>
        requires { length self.old.leaders ≤ length chart.now.leaders.items }
        ensures ok { OnOk result (self.new ≡ charted_to_one chart.now.leaders.items node now self.old) }
        ensures err { OnErr result (self.new ≡ self.old) }
    {
        let known = of_known(&self.leaders, &chart.leaders);
        let leaders = all_led_by(self.alloc, node, known)?;
        self.follow(leaders, now);
        Ok(())
    }

    /// Each partition is led by the slot of its leader, and each broker has one.
    fn chart_by_id(&mut self, chart: &Chart, now: u64) -> Result<(), AllocError>
        requires { length self.old.leaders ≤ length chart.now.leaders.items }
        ensures ok { OnOk result (self.new ≡ charted_by_id chart.now.nodes.items chart.now.leaders.items now self.old) }
        ensures err { OnErr result (self.new ≡ self.old) }
    {
        let known = of_known(&self.leaders, &chart.leaders);
        let slots = all_placed(self.alloc, &self.slots, &chart.nodes)?;
        let leaders = leader_slots(self.alloc, &chart.nodes, &slots, known)?;
        self.slots = slots;
        self.follow(leaders, now);
        Ok(())
    }

    /// These are the leaders from now on.
    fn follow(&mut self, leaders: Vec<Option<u32>>, now: u64)
        ensures { self.new ≡ with_leaders leaders.items now self.old }
    {
        mark_leaders(&mut self.slots, &leaders);
        self.metadata.chart(now, &leaders);
        self.leaders = leaders;
    }

    /// When there may be something more to do, once all that there is now has been done: an action, a request of Metadata,
    /// or something to heed.
    pub fn next_due(&self) -> Option<u64>
        ensures { result ≡ next_due self.now }
    {
        earlier(next_connect(&self.slots), self.next_metadata())
    }

    /// When Metadata may next be asked for, or its answer is late, or the chart too old.
    fn next_metadata(&self) -> Option<u64>
        ensures { result ≡ next_metadata self.now }
    {
        let metadata = &self.metadata;
        match metadata.awaited {
            Some(_) => later_than(self.config.request_timeout_ms, metadata.asked_at),
            None if !metadata.wanted => later_than(
                self.config.metadata_max_age_ms,
                metadata.charted_at,
            ),
            None if is_any_open(&self.slots) => Some(pause_end(metadata.asked_at)),
            None => None,
        }
    }
}
