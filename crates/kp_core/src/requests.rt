//! Requests in flight.

ghost use Rattle.std.specs.Prelude.{◌≡◌, ◌+◌, ◌&&◌, pos, not, filter, find, length, map, is_some};
ghost use Rattle.std.specs.List.{list_any};
ghost use Rattle.std.specs.Option.{option_copied};
ghost use Rattle.std.specs.Ordering.{int_eq};
ghost use Rattle.kp_accum.specs.Ready.{is_over};
ghost use Rattle.kp_rules.specs.Attempts.{asks_for_id, awaiting, goes_to, is_live, to_node};
ghost use Rattle.kp_rules.specs.Due.{earliest};
ghost use Rattle.kp_rules.specs.Partitions.{partition_at};
ghost use Rattle.kp_rules.specs.Replies.{api_of};
ghost use Rattle.kp_core.specs.Requests.{demand_of};

use kp_accum::Config;
use kp_frames::Api;
use kp_parts::{Partition, is_over, moment, sooner};
use std::marker::Model;

/// What a request asks the broker for.
#[derive(Debug, Drop)]
pub(crate) enum Demand {
    /// That the batches of these partitions be appended, in this order.
    Produce(Vec<u32>),
    /// A fresh producer id, for this partition.
    InitProducerId(u32),
}

/// A request in flight.
#[derive(Debug, Drop)]
pub(crate) struct Request {
    correlation: u32,
    /// The node that it went to.
    node: u32,
    /// The moment at which it went out.
    sent: u64,
    demand: Demand,
}

impl Model for Request {
    ghost use Rattle.kp_rules.specs.Records as seen;

    ghost Value = { seen.Request };

    ghost use Rattle.kp_core.specs.Requests.{demand_of};

    ghost view = { λ r. record {
      correlation = r.correlation;
      node = r.node;
      sent = r.sent;
      demand = demand_of r.demand;
    } };
}

impl Request {
    /// The request under this correlation id, which goes out to this node at this moment.
    pub(crate) fn new(correlation: u32, node: u32, sent: u64, demand: Demand) -> Request
        ensures { result ≡ record {
          correlation = correlation;
          node = node;
          sent = sent;
          demand = demand_of demand;
        } }
    {
        Request {
            correlation,
            node,
            sent,
            demand,
        }
    }

    /// The id under which its reply comes.
    pub(crate) fn correlation(&self) -> u32
        ensures { result ≡ self.now.correlation }
    {
        self.correlation
    }

    /// Whether this is its correlation id, as a reply tells it.
    pub(crate) fn is_under(&self, correlation: i32) -> bool
        ensures { result ≡ int_eq (pos self.now.correlation) correlation }
    {
        i64::from(self.correlation) == i64::from(correlation)
    }

    /// Whether it went to this node.
    pub(crate) fn goes_to(&self, node: u32) -> bool
        ensures { result ≡ goes_to node self.now }
    {
        self.node == node
    }

    /// The moment at which it went out.
    pub(crate) fn sent(&self) -> u64
        ensures { result ≡ self.now.sent }
    {
        self.sent
    }

    pub(crate) fn demand(&self) -> &Demand
        ensures { demand_of result.now ≡ self.now.demand }
    {
        &self.demand
    }

    /// The api as which its reply is read.
    pub(crate) fn api(&self) -> Api
        ensures { result ≡ api_of self.now.demand }
    {
        match self.demand {
            Demand::Produce(_) => Api::Produce,
            Demand::InitProducerId(_) => Api::InitProducerId,
        }
    }

    pub(crate) fn asks_for_id(&self) -> bool
        ensures { result ≡ asks_for_id self.now }
    {
        match self.demand {
            Demand::Produce(_) => false,
            Demand::InitProducerId(_) => true,
        }
    }

    /// Whether one of its attempts is in flight, or it is one for an id.
    pub(crate) fn is_live(&self, partitions: &[Partition]) -> bool
        ensures { result ≡ is_live partitions.now self.now }
    {
        match &self.demand {
            Demand::Produce(chosen) => any_awaits(partitions, chosen, self.correlation),
            Demand::InitProducerId(_) => true,
        }
    }

    /// Whether it has waited for `request.timeout.ms`.
    pub(crate) fn has_timed_out(&self, config: &Config, now: u64) -> bool
        ensures { result ≡ is_over self.now.sent config.now.request_timeout_ms now }
    {
        is_over(self.sent, config.request_timeout_ms, now)
    }
}

/// Whether a batch of one of these partitions awaits the reply to the request.
fn any_awaits(partitions: &[Partition], chosen: &[u32], correlation: u32) -> bool
    ensures { result ≡ list_any (λ p. is_some (awaiting correlation (partition_at p partitions.now))) chosen.now }
{
    chosen
        .iter()
        .any(|place| awaits_at(partitions, *place, correlation))
}

/// Whether a batch of this partition awaits the reply to the request.
fn awaits_at(partitions: &[Partition], place: u32, correlation: u32) -> bool
    ensures { result ≡ is_some (awaiting correlation (partition_at place partitions.now)) }
{
    match partitions.get(place as usize) {
        None => false,
        Some(partition) => partition.awaits(correlation),
    }
}

/// Whether one of the requests is one for an id.
pub(crate) fn any_asks_for_id(requests: &[Request]) -> bool
    ensures { result ≡ list_any asks_for_id requests.now }
{
    requests.iter().any(|request| request.asks_for_id())
}

/// Whether one of the requests to this node is one for an id.
pub(crate) fn any_asks_there(requests: &[Request], node: u32) -> bool
    ensures { result ≡ list_any (λ r. goes_to node r && asks_for_id r) requests.now }
{
    requests
        .iter()
        .any(|request| request.goes_to(node) && request.asks_for_id())
}

/// Whether one of the requests to this node has waited for `request.timeout.ms`.
pub(crate) fn any_timed_out(requests: &[Request], node: u32, config: &Config, now: u64) -> bool
    ensures { result ≡ list_any (λ r. goes_to node r && is_over r.sent config.now.request_timeout_ms now) requests.now }
{
    requests.iter().any(|request| request.goes_to(node) && request.has_timed_out(config, now))
}

/// How many requests are in flight to this node.
pub(crate) fn count_to(requests: &[Request], node: u32) -> usize
    ensures { result ≡ length (to_node node requests.now) }
{
    requests
        .iter()
        .filter(|request| request.goes_to(node))
        .count()
}

/// The first of the requests to this node.
pub(crate) fn first_to(requests: &[Request], node: u32) -> Option<&Request>
    ensures { option_copied result ≡ find (goes_to node) requests.now }
{
    requests.iter().find(|request| request.goes_to(node))
}

/// The request with this correlation id.
pub(crate) fn find_awaited(requests: &[Request], correlation: i32) -> Option<&Request>
    ensures { option_copied result ≡ find (λ r. int_eq (pos r.correlation) correlation) requests.now }
{
    requests
        .iter()
        .find(|request| request.is_under(correlation))
}

/// The requests of which an attempt is in flight stay, and those for an id.
pub(crate) fn keep_live(requests: &mut Vec<Request>, partitions: &[Partition])
    ensures { requests.new.items ≡ filter (is_live partitions.now) requests.old.items }
{
    requests.retain(|request| request.is_live(partitions));
}

/// The requests to other nodes stay.
pub(crate) fn drop_there(requests: &mut Vec<Request>, node: u32)
    ensures { requests.new.items ≡ filter (λ r. not (goes_to node r)) requests.old.items }
{
    requests.retain(|request| !request.goes_to(node));
}

/// The requests for batches stay.
pub(crate) fn keep_batches(requests: &mut Vec<Request>)
    ensures { requests.new.items ≡ filter (λ r. not (asks_for_id r)) requests.old.items }
{
    requests.retain(|request| !request.asks_for_id());
}

/// When the first of the requests times out, of those moments from this one on.
pub(crate) fn earliest_timeout(requests: &[Request], config: &Config, from: u64) -> Option<u64>
    ensures { result ≡ earliest from (map (λ r. r.sent + config.now.request_timeout_ms) requests.now) }
{
    let mut earliest = None;
    for request in requests {
        earliest = sooner(
            earliest,
            moment(request.sent(), config.request_timeout_ms, from),
        );
    }
    earliest
}
