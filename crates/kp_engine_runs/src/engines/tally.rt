//! Where each record is found, once an engine has stopped.

use kp_accum::Item;
use kp_rules::{Outcome, Report};

/// The most records of a case that accounts for them.
const MOST: usize = 16;

/// How often each record was found, in a report or as an item: each that sender 0 has sent to partition 0, whose values are
/// letters from `a` on.
#[derive(Drop)]
pub(crate) struct Tally {
    sent: u64,
    found: [u8; MOST],
    /// Something was found that was not sent.
    is_strange: bool,
}

/// Whether it is the item of the record with its number.
fn is_sent(item: &Item) -> bool {
    let letter = b'a'.wrapping_add((item.number % 16) as u8);
    (item.sender, item.partition) == (0, 0)
        && match &item.body.value {
            Some(value) => value.as_slice() == [letter].as_slice(),
            None => false,
        }
}

/// Whether the report may be one of the record with its number, which stands at that offset.
fn is_of_sent(report: &Report) -> bool {
    (report.sender, report.partition) == (0, 0)
        && match report.outcome {
            Outcome::Delivered(offset) => u64::try_from(offset) == Ok(report.number),
            Outcome::DeliveredNoOffset => false,
            Outcome::Rejected(_) => false,
            Outcome::Unknown => true,
            Outcome::Unsent(_) => true,
        }
}

impl Tally {
    pub(crate) fn new() -> Tally {
        Tally {
            sent: 0,
            found: [0; MOST],
            is_strange: false,
        }
    }

    /// A record is sent.
    pub(crate) fn send(&mut self) {
        self.sent = self.sent.saturating_add(1);
    }

    fn find(&mut self, number: u64, is_right: bool) {
        self.is_strange = self.is_strange || !is_right;
        match self.found.get_mut(number as usize) {
            Some(count) => *count = count.saturating_add(1),
            None => self.is_strange = true,
        }
    }

    pub(crate) fn report(&mut self, report: &Report) {
        self.find(report.number, is_of_sent(report));
    }

    pub(crate) fn item(&mut self, item: &Item) {
        self.find(item.number, is_sent(item));
    }

    /// Whether each record that was sent is found once, and nothing else.
    pub(crate) fn has_each_once(&self) -> bool {
        !self.is_strange
            && self.found.iter().enumerate().all(|(number, count)| *count
                == u8::from((number as u64) < self.sent))
    }
}
