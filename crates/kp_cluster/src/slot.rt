//! A slot of a cluster: a node of it, or an address that was given at first, and the connection to it.

ghost use Rattle.std.specs.Prelude.{◌≡◌, ◌&&◌, not, None, Some, is_none};
ghost use Rattle.kp_cluster.specs.Cluster.{slot_of_address};
ghost use Rattle.kp_cluster.specs.Backoff.{lost_for};
ghost use Rattle.kp_cluster.specs.Slots.{is_open, is_live, is_given_up, is_away, is_ready, is_wanted, has_id, given_up, spare_given_up, opened, wanted};

use kp_wire::Text;

/// An address that is given at first (`bootstrap.servers`).
#[derive(Debug, Drop)]
pub struct Address {
    pub host: Text,
    pub port: u16,
}

/// Where a connection is.
#[derive(Clone, Copy, Debug, PartialEq, Eq)]
pub(crate) enum Phase {
    /// There is none.
    Away,
    /// The owner was told to connect.
    Opening,
    Open,
    /// It is of no use, which the owner was not told.
    GivenUp,
    /// The owner was told to close it.
    Closing,
}

/// A node of the cluster, or an address that was given at first, and the connection to it.
#[derive(Debug, Drop)]
pub(crate) struct Slot {
    /// The broker's id; none for an address that was given at first.
    pub(crate) id: Option<i32>,
    pub(crate) host: Text,
    pub(crate) port: u16,
    pub(crate) phase: Phase,
    /// How often in a row the connection was lost with no answer between.
    pub(crate) failures: u32,
    /// Before this moment it is not connected to.
    pub(crate) not_before: u64,
    /// There was something to send to it.
    pub(crate) wanted: bool,
    /// It leads a partition.
    pub(crate) leads: bool,
}

#[tactic(auto, unfolding(crate::specs::Slots::is_open, crate::specs::Slots::is_live, crate::specs::Slots::is_given_up, crate::specs::Slots::is_away))]
impl Slot {
    pub(crate) fn of_address(address: Address) -> Slot
        ensures { result ≡ slot_of_address address }
    {
        Slot {
            id: None,
            host: address.host,
            port: address.port,
            phase: Phase::Away,
            failures: 0,
            not_before: 0,
            wanted: false,
            leads: false,
        }
    }

    pub(crate) fn is_open(&self) -> bool
        ensures { result ≡ is_open self.now }
    {
        match self.phase {
            Phase::Open => true,
            Phase::Away | Phase::Opening | Phase::GivenUp | Phase::Closing => false,
        }
    }

    pub(crate) fn is_live(&self) -> bool
        ensures { result ≡ is_live self.now }
    {
        match self.phase {
            Phase::Opening | Phase::Open => true,
            Phase::Away | Phase::GivenUp | Phase::Closing => false,
        }
    }

    pub(crate) fn is_given_up(&self) -> bool
        ensures { result ≡ is_given_up self.now }
    {
        match self.phase {
            Phase::GivenUp => true,
            Phase::Away | Phase::Opening | Phase::Open | Phase::Closing => false,
        }
    }

    pub(crate) fn is_away(&self) -> bool
        ensures { result ≡ is_away self.now }
    {
        match self.phase {
            Phase::Away => true,
            Phase::Opening | Phase::Open | Phase::GivenUp | Phase::Closing => false,
        }
    }

    /// Whether there is no connection, and the wait for one is over.
    pub(crate) fn is_ready(&self, now: u64) -> bool
        ensures { result ≡ is_ready now self.now }
    {
        self.is_away() && self.not_before <= now
    }

    /// Whether a connection is wanted for what is sent to it.
    pub(crate) fn is_wanted(&self) -> bool
        ensures { result ≡ is_wanted self.now }
    {
        self.wanted && self.leads
    }

    /// Whether it is the broker's with this id.
    pub(crate) fn has_id(&self, id: i32) -> bool
        ensures { result ≡ has_id id self.now }
    {
        match self.id {
            Some(own) => own == id,
            None => false,
        }
    }

    /// Gives a connection up that is open or being opened.
    pub(crate) fn give_up(&mut self)
        ensures { self.new ≡ given_up self.old }
    {
        if self.is_live() {
            self.phase = Phase::GivenUp;
        }
    }

    /// Gives it up where it is to an address given at first, by which no partition is led.
    pub(crate) fn give_up_spare(&mut self)
        ensures { self.new ≡ spare_given_up self.old }
    {
        if self.id.is_none() && !self.leads {
            self.give_up();
        }
    }

    /// The connection is gone: one failure more, and it is left alone for this wait.
    pub(crate) fn lose(&mut self, now: u64, wait: u64)
        ensures { self.new ≡ lost_for now wait self.old }
    {
        self.phase = Phase::Away;
        self.failures = self.failures.saturating_add(1);
        self.not_before = now.saturating_add(wait);
    }

    /// A connection that was being opened is open.
    pub(crate) fn open(&mut self)
        ensures { self.new ≡ opened self.old }
    {
        match self.phase {
            Phase::Opening => self.phase = Phase::Open,
            Phase::Away | Phase::Open | Phase::GivenUp | Phase::Closing => {}
        }
    }
}
