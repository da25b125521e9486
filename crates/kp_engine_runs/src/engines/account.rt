//! What is left of an engine that has stopped.

use crate::engines::scene::Scene;
use crate::engines::tally::Tally;
use kp_core::Core;
use kp_engine::{Held, Parts};
use kp_lanes::{Intake, Sender};

/// More than the records of any case that accounts for them.
const ENOUGH: u32 = 32;

/// Counts the reports of which the sender can be told.
fn count_told(sender: &mut Sender, tally: &mut Tally) {
    for _ in 0..ENOUGH {
        match sender.poll_report() {
            Some(report) => tally.report(&report),
            None => return,
        }
    }
}

/// Counts what was held back between the core and the lanes.
fn count_held(held: &Held, tally: &mut Tally) {
    for item in &held.items {
        tally.item(item);
    }
    for report in &held.reports {
        tally.report(report);
    }
}

/// Counts the reports that are left in the core.
fn count_core(core: &mut Core, tally: &mut Tally) {
    for _ in 0..ENOUGH {
        if core.senders() == 0 {
            return;
        }
        match core.next_report(0) {
            Some(report) => tally.report(&report),
            None => return,
        }
    }
}

/// Counts the items that are left in the sender's lane.
fn count_lane(intake: &mut Intake, tally: &mut Tally) {
    for _ in 0..ENOUGH {
        if intake.senders() == 0 {
            return;
        }
        match intake.take(0) {
            Some(item) => tally.item(&item),
            None => return,
        }
    }
}

/// Counts what is left in the parts of an engine.
fn count_parts(parts: &mut Parts, tally: &mut Tally) {
    count_held(&parts.held, tally);
    count_core(&mut parts.core, tally);
    count_lane(&mut parts.intake, tally);
}

impl Scene {
    /// Ends the engine, and counts the reports of which the senders can be told.
    fn end(&mut self) {
        self.engine.end();
        for sender in &mut self.senders {
            count_told(sender, &mut self.tally);
        }
    }

    /// Ends the engine and takes it apart: whether each record that was sent has one report, which was fetched, or is to be, was
    /// held back or left in the core, or comes back as an item.
    pub(crate) fn has_each_once(self) -> bool {
        let mut scene = self;
        scene.end();
        let Scene {
            engine,
            mut tally,
            ..
        } = scene;
        count_parts(&mut engine.into_parts(), &mut tally);
        tally.has_each_once()
    }
}
