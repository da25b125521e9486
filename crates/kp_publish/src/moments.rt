//! When records were sent that wait for their reports.

use kp_core::Report;
use kp_drive::Ticket;
use std::alloc::{AllocError, Global};
use std::collections::VecDeque;

/// The records of a partition, up to this one, that were sent at one moment.
#[derive(Clone, Copy, Debug)]
struct Span {
    last: u64,
    at: u64,
}

/// When records were sent that wait for their reports. Records of a partition that were sent at one moment take one place.
#[derive(Debug, Drop)]
pub(crate) struct Moments {
    alloc: Global,
    /// By partition, in the order of its records.
    spans: Vec<VecDeque<Span>>,
}

impl Moments {
    /// Nothing was sent.
    pub(crate) fn new(alloc: Global) -> Moments {
        Moments {
            alloc,
            spans: Vec::new(alloc),
        }
    }

    /// A record was accepted with this ticket, at this moment.
    pub(crate) fn sent(&mut self, ticket: Ticket, at: u64) -> Result<(), AllocError> {
        let partition = ticket.partition as usize;
        let missing = (partition + 1).saturating_sub(self.spans.len());
        for _ in 0..missing {
            self.spans.push(VecDeque::new(self.alloc))?;
        }
        match self.spans.get_mut(partition) {
            Some(spans) => lengthen(spans, ticket.number, at),
            None => Ok(()),
        }
    }

    /// When the record was sent of which this report tells, where that is known. Nothing is known any more of those before it.
    pub(crate) fn told(&mut self, report: &Report) -> Option<u64> {
        let spans = self.spans.get_mut(report.partition as usize)?;
        for _ in 0..spans.len() {
            let span = *spans.front()?;
            if report.number < span.last {
                return Some(span.at);
            }
            spans.pop_front();
            if report.number == span.last {
                return Some(span.at);
            }
        }
        None
    }
}

/// One record more was sent.
fn lengthen(spans: &mut VecDeque<Span>, last: u64, at: u64) -> Result<(), AllocError> {
    if let Some(span) = spans.back_mut() {
        if span.at == at {
            span.last = last;
            return Ok(());
        }
    }
    Ok(spans.push_back(Span { last, at })?)
}
