//! What brokers say of the cluster, and the producer id: with it a core is opened.

ghost use Rattle.std.specs.Prelude.{◌≡◌, ◌≤◌, ◌<◌, ◌^◌, ℕ, List, OnOk, OnErr, IfOk, None, false, length, replicate, []};
ghost use Rattle.kp_embed.specs.Going.{Acts, Begins, BeginsUnder, core_by, if_core};
ghost use Rattle.kp_embed.specs.Sound.{IsFresh};
ghost use Rattle.kp_embed.specs.Hearing.{Learns, Opens, leads};
ghost use Rattle.kp_hello.specs.Chart.{chart_given};
ghost use Rattle.kp_hello.specs.Hello.{producer_id_given};
ghost use Rattle.kp_rules.specs.Calls.{Call};
ghost use Rattle.kp_rules.specs.Opening.{MayOpen};

use crate::embed::Embed;
use crate::fault::Fault;
use crate::leading::{lead_all, want_all};
use kp_accum::Config;
use kp_core::{Core, Names};
use kp_hello::{Chart, HandshakeFault, PARTITION_LIMIT, read_chart, read_producer_id};
use kp_wire::Text;
use std::alloc::{AllocError, Global};

/// The correlation id of the core's first request: those of Metadata and of the first request for an id are below it.
const FIRST_CORRELATION: u32 = 2;

impl Embed {
    /// Learns what an answer to Metadata says.
    pub(super) fn learn(&mut self, content: &[u8], now: u64) -> Result<(), Fault>
        ensures learns { OnOk result ((calls : List Call) × Acts self.old calls self.new × Learns now (chart_given self.old.names.topic content.now) calls self.new) }
        ensures acts { OnErr result ((calls : List Call) × Acts self.old calls self.new) }
        ensures lines { self.new.lines ≡ self.old.lines }
        ensures still { self.new.is_closed ≡ self.old.is_closed }
    {
        match read_chart(self.alloc, &self.names.topic, content) {
            Ok(chart) => self.follow(&chart, now),
            Err(HandshakeFault::Refused(code)) => {
                self.refused = Some(code);
                self.cluster.refuse_chart();
                Ok(())
            }
            Err(fault) => {
                self.cluster.refuse_chart();
                Err(Fault::from(fault))
            }
        }
    }

    /// The core is told who leads by this chart.
    fn follow(&mut self, chart: &Chart, now: u64) -> Result<(), Fault>
        ensures follows { OnOk result (Acts self.old (if_core self.new.core (leads now self.new.cluster (length self.new.counts))) self.new) }
        ensures acts { OnErr result (Acts self.old [] self.new) }
        ensures lines { self.new.lines ≡ self.old.lines }
        ensures still { self.new.is_closed ≡ self.old.is_closed }
    {
        match self.cluster.learn(chart, now) {
            Ok(()) => {
                self.lead(now);
                Ok(())
            }
            Err(_refused) => {
                self.cluster.refuse_chart();
                Err(Fault::OutOfMemory)
            }
        }
    }

    /// The core is told who leads.
    fn lead(&mut self, now: u64)
        ensures leads { Acts self.old (if_core self.new.core (leads now self.new.cluster (length self.new.counts))) self.new }
        ensures leaders { self.new.cluster.leaders ≡ self.old.cluster.leaders }
        ensures lines { self.new.lines ≡ self.old.lines }
        ensures still { self.new.is_closed ≡ self.old.is_closed }
    {
        if let Some(core) = &mut self.core {
            lead_all(core, &self.cluster, self.counts.len() as u32, now);
            want_all(core, &mut self.cluster);
        }
    }

    /// Opens the core by an answer with a producer id.
    pub(super) fn open(&mut self, content: &[u8], now: u64) -> Result<(), Fault>
        ensures opens { OnOk result ((calls : List Call) × Acts self.old calls self.new × Opens now (producer_id_given content.now) self.old calls self.new) }
        ensures acts { OnErr result ((calls : List Call) × Acts self.old calls self.new) }
        ensures lines { self.new.lines ≡ self.old.lines }
        ensures still { self.new.is_closed ≡ self.old.is_closed }
    {
        match read_producer_id(self.alloc, content) {
            Ok(producer_id) => self.begin(producer_id, now),
            Err(HandshakeFault::Refused(code)) => {
                self.refused = Some(code);
                let backoff = self.config.producer.retry_backoff_ms;
                self.identity.not_before = now.saturating_add(backoff);
                Ok(())
            }
            Err(fault) => Err(Fault::from(fault)),
        }
    }

    /// A core sends under this id, where there is none yet and it is not too late.
    fn begin(&mut self, producer_id: u64, now: u64) -> Result<(), Fault>
        requires { producer_id < 2 ^ 63 }
        ensures begins { OnOk result (Acts self.old (if_core self.new.core (leads now self.new.cluster (length self.new.counts))) self.new) }
        ensures under { OnOk result (self.old.core ≡ None → self.old.is_failed ≡ false → BeginsUnder self.old.config self.old.names (length self.new.cluster.leaders) producer_id
            (if_core self.new.core (leads now self.new.cluster (length self.new.counts))) self.new.core) }
        ensures acts { OnErr result (Acts self.old [] self.new) }
        ensures lines { self.new.lines ≡ self.old.lines }
        ensures still { self.new.is_closed ≡ self.old.is_closed }
    {
        match self.ensure_core(producer_id) {
            Ok(()) => {
                self.lead(now);
                Ok(())
            }
            Err(fault) => Err(fault),
        }
    }

    /// There is a core: one that sends under this id, where there was none and it is not too late.
    fn ensure_core(&mut self, producer_id: u64) -> Result<(), Fault>
        requires { producer_id < 2 ^ 63 }
        ensures acts { Acts self.old [] self.new }
        ensures under { OnOk result (self.old.core ≡ None → self.old.is_failed ≡ false → BeginsUnder self.old.config self.old.names (length self.old.cluster.leaders) producer_id [] self.new.core) }
        ensures cluster { self.new.cluster ≡ self.old.cluster }
        ensures lines { self.new.lines ≡ self.old.lines }
        ensures still { self.new.is_closed ≡ self.old.is_closed }
    {
        if self.core.is_some() || self.is_failed {
            return Ok(());
        }
        match self.new_core(producer_id) {
            Ok((core, counts)) => {
                self.core = Some(core);
                self.counts = counts;
                Ok(())
            }
            Err(fault) => Err(fault),
        }
    }

    /// A core under this id, and how many records were accepted for each partition: none.
    fn new_core(&self, producer_id: u64) -> Result<(Core, Vec<u64>), Fault>
        requires { producer_id < 2 ^ 63 }
        ensures core { IfOk result (λ x. Begins self.now.config self.now.names [] x.0) }
        ensures under { IfOk result (λ x. x.0 ≡ core_by self.now.config self.now.names (length self.now.cluster.leaders) producer_id) }
        ensures counts { IfOk result (λ x. IsFresh x.1.items) }
    {
        let partitions = self.cluster.partitions();
        if partitions == 0 || partitions > PARTITION_LIMIT {
            return Err(Fault::BadAnswer);
        }
        match opened(
            self.alloc,
            self.config.producer,
            &self.names,
            partitions as u32,
            producer_id,
        ) {
            Ok(made) => Ok(made),
            Err(_refused) => Err(Fault::OutOfMemory),
        }
    }
}

fn opened(
    alloc: Global,
    config: Config,
    names: &Names,
    partitions: u32,
    producer_id: u64,
) -> Result<(Core, Vec<u64>), AllocError>
    requires may { MayOpen config names.now partitions 1 producer_id 2 }
    requires few { partitions ≤ 1024 }
    ensures core { IfOk result (λ x. Begins config names.now [] x.0) }
    ensures under { IfOk result (λ x. x.0 ≡ core_by config names.now partitions producer_id) }
    ensures counts { IfOk result (λ x. IsFresh x.1.items) }
{
    let counts = zeros(alloc, partitions as usize)?;
    let names = copy_of(alloc, names)?;
    let core = Core::new(
        alloc,
        config,
        names,
        partitions,
        1,
        producer_id,
        FIRST_CORRELATION,
        false,
    )?;
    Ok((core, counts))
}

fn copy_of(alloc: Global, names: &Names) -> Result<Names, AllocError>
    ensures { IfOk result (λ copy. copy ≡ names.now) }
{
    Ok(Names {
        topic: Text::from_str(alloc, names.topic.as_str())?,
        client: Text::from_str(alloc, names.client.as_str())?,
    })
}

fn zeros(alloc: Global, count: usize) -> Result<Vec<u64>, AllocError>
    ensures { IfOk result (λ zeros. zeros.items ≡ replicate count 0) }
{
    let mut zeros = Vec::with_capacity(alloc, count)?;
    for _ in 0..count {
        zeros.push(0)?;
    }
    Ok(zeros)
}
