//! What crosses to C and back.

ghost use Rattle.std.specs.Prelude.{◌≡◌, true, IfSome};
ghost use Rattle.kp_c.specs.Seeing.{Shows};
ghost use Rattle.kp_c.specs.Values.{alone, behind, cluster_of, config_of, detail_behind, first_of, told, told_action};

use kp_accum::Config;
use kp_cluster::{Action, ClusterConfig};
use kp_embed::{Embed, EmbedConfig, Phase, Ticket};
use kp_rules::{Outcome, Reason, Report};

/// How a producer is configured, by Kafka's names.
#[repr(C)]
#[derive(Clone, Copy, Drop)]
pub struct KpConfig {
    pub batch_size: u64,
    pub linger_ms: u64,
    pub buffer_memory: u64,
    pub max_request_size: u64,
    pub request_timeout_ms: u64,
    pub delivery_timeout_ms: u64,
    pub retry_backoff_ms: u64,
    pub max_in_flight_requests_per_connection: u64,
    pub sequence_limit: u64,
    pub reconnect_backoff_ms: u64,
    pub reconnect_backoff_max_ms: u64,
    pub metadata_max_age_ms: u64,
    pub open_timeout_ms: u64,
    /// 0: no.
    pub keep_to_one: u64,
}

/// What the caller is to do with a node's connection.
#[repr(C)]
#[derive(Clone, Copy, Drop)]
pub struct KpAction {
    /// 0 nothing, 1 to connect, 2 to close.
    pub kind: u32,
    pub node: u32,
}

/// The place of an accepted record.
#[repr(C)]
#[derive(Clone, Copy, Drop)]
pub struct KpTicket {
    pub number: u64,
    pub partition: u32,
}

/// What became of a record.
#[repr(C)]
#[derive(Clone, Copy, Drop)]
pub struct KpReport {
    pub number: u64,
    /// The offset of what was delivered, or the error code by which it was rejected.
    pub detail: i64,
    pub partition: u32,
    /// 0 delivered, 1 delivered with no offset, 2 unknown, 3 rejected, 4 expired, 5 fenced, 6 ended.
    pub outcome: u32,
}

/// What became of records one after the other, of which the numbers go up by one, and where they were delivered the offsets too.
#[repr(C)]
#[derive(Clone, Copy, Drop)]
pub struct KpReportRun {
    /// Of the first.
    pub number: u64,
    /// Of the first, as a report has it.
    pub detail: i64,
    /// How many they are.
    pub count: u64,
    pub partition: u32,
    /// As a report has it.
    pub outcome: u32,
}

/// What is to be seen of a producer.
#[repr(C)]
#[derive(Clone, Copy, Drop)]
pub struct KpState {
    pub untold: u64,
    pub buffer_used: u64,
    pub requests_in_flight: u64,
    pub nodes: u64,
    pub partitions: u64,
    /// 0 opening, 1 ready, 2 failed, 3 spent.
    pub phase: u32,
    /// The error code of the last refusal of Metadata or of a producer id, or 0.
    pub refused: i32,
    pub is_flushed: bool,
}

/// How long a header's name and value are, which stand one after the other.
#[repr(C)]
#[derive(Clone, Copy, Drop)]
pub struct KpSpan {
    pub name_len: u64,
    pub value_len: u64,
    /// Kafka's null where it is false; then its length is not looked at.
    pub has_value: bool,
}

impl KpConfig {
    pub(crate) fn config(&self) -> EmbedConfig
        ensures producer { result.producer ≡ config_of self.now }
        ensures cluster { result.cluster ≡ cluster_of self.now }
    {
        EmbedConfig {
            producer: Config {
                batch_size: self.batch_size,
                linger_ms: self.linger_ms,
                buffer_memory: self.buffer_memory,
                max_request_size: self.max_request_size,
                request_timeout_ms: self.request_timeout_ms,
                delivery_timeout_ms: self.delivery_timeout_ms,
                retry_backoff_ms: self.retry_backoff_ms,
                max_in_flight_requests_per_connection: self.max_in_flight_requests_per_connection,
                sequence_limit: self.sequence_limit,
            },
            cluster: ClusterConfig {
                reconnect_backoff_ms: self.reconnect_backoff_ms,
                reconnect_backoff_max_ms: self.reconnect_backoff_max_ms,
                metadata_max_age_ms: self.metadata_max_age_ms,
                request_timeout_ms: self.request_timeout_ms,
                keep_to_one: self.keep_to_one != 0,
            },
            open_timeout_ms: self.open_timeout_ms,
        }
    }
}

impl KpAction {
    pub(crate) fn of(action: Option<Action>) -> KpAction
        ensures { result ≡ told_action action }
    {
        match action {
            None => KpAction { kind: 0, node: 0 },
            Some(Action::Connect(node)) => KpAction { kind: 1, node },
            Some(Action::Close(node)) => KpAction { kind: 2, node },
        }
    }
}

impl KpTicket {
    pub(crate) fn of(ticket: Ticket) -> KpTicket
        ensures { result ≡ record { number = ticket.number; partition = ticket.partition } }
    {
        KpTicket {
            number: ticket.number,
            partition: ticket.partition,
        }
    }
}

impl KpReport {
    pub(crate) fn of(report: Report) -> KpReport
        ensures { result ≡ told report }
    {
        let (outcome, detail) = match report.outcome {
            Outcome::Delivered(offset) => (0, offset),
            Outcome::DeliveredNoOffset => (1, 0),
            Outcome::Unknown => (2, 0),
            Outcome::Rejected(code) => (3, i64::from(code)),
            Outcome::Unsent(Reason::Expired) => (4, 0),
            Outcome::Unsent(Reason::Fenced) => (5, 0),
            Outcome::Unsent(Reason::Ended) => (6, 0),
        };
        KpReport {
            number: report.number,
            detail,
            partition: report.partition,
            outcome,
        }
    }
}

impl KpReportRun {
    /// A run of one report.
    pub(crate) fn of(report: KpReport) -> KpReportRun
        ensures { result ≡ alone report }
    {
        KpReportRun {
            number: report.number,
            detail: report.detail,
            count: 1,
            partition: report.partition,
            outcome: report.outcome,
        }
    }

    /// Whether this report goes on with it.
    pub(crate) fn goes_on_with(&self, report: KpReport) -> bool
        ensures { result ≡ true → report ≡ behind (first_of self.now) self.now.count }
    {
        let (Some(number), Some(detail)) = (self.number.checked_add(self.count), self.next_detail())
        else {
            return false;
        };
        self.outcome == report.outcome
            && self.partition == report.partition
            && number == report.number
            && detail == report.detail
    }

    fn next_detail(&self) -> Option<i64>
        ensures { IfSome result (λ detail. detail ≡ detail_behind self.now.outcome self.now.detail self.now.count) }
    {
        if self.outcome == 0 {
            self.detail.checked_add(i64::try_from(self.count).ok()?)
        } else {
            Some(self.detail)
        }
    }
}

impl KpState {
    pub(crate) fn of(embed: &Embed) -> KpState
        ensures { Shows result embed.now }
    {
        let seen = embed.statistics();
        KpState {
            untold: seen.untold,
            buffer_used: seen.buffer_used,
            requests_in_flight: seen.requests_in_flight,
            nodes: seen.nodes,
            partitions: embed.partitions() as u64,
            phase: match embed.phase() {
                Phase::Opening => 0,
                Phase::Ready => 1,
                Phase::Failed => 2,
                Phase::Spent => 3,
            },
            refused: match seen.refused {
                Some(code) => i32::from(code),
                None => 0,
            },
            is_flushed: embed.is_flushed(),
        }
    }
}
