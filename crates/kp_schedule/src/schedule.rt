//! A schedule.

ghost use Rattle.std.specs.Prelude.{◌≤◌};
ghost use Rattle.kp_schedule.specs.Grammar.{MayBeSaid};

use kp_accum::Config;
use kp_wire::Seq;
use kp_world::Event;

/// An event of a schedule.
#[derive(Debug, Drop)]
pub struct Scheduled {
    /// The line that says it, from 1.
    pub line: u64,
    pub event: Event,
    pub ghost may_be: { ∥ MayBeSaid event ∥₁ },
}

/// What is to happen in a world, and what the world begins with.
#[derive(Debug, Drop)]
pub struct Schedule {
    pub config: Config,
    pub partitions: u32,
    pub senders: u32,
    pub events: Seq<Scheduled>,
    pub ghost some_partitions: { 1 ≤ partitions },
    pub ghost few_partitions: { partitions ≤ 1024 },
    pub ghost some_senders: { 1 ≤ senders },
    pub ghost few_senders: { senders ≤ 64 },
}
