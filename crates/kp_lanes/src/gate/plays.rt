//! The rule of the gate's word, and the kinds of step that it takes.
ghost use Rattle.kp_lanes.specs.Gate.{Keeps, keeper, newcomer, less_room, Entering, Leaving, Shutting, Looking};

use crate::gate::view::View;
use atomic_table::{Play, Split, TableRule};

/// What holds of the word and of what all seats know, between any two steps.
pub struct GateRule;

impl TableRule<(), View, ()> for GateRule {
    ghost holds = { λ _. Keeps };

    ghost first = { λ _. keeper 64 };
}

pub(crate) struct Enter;

impl Play<(), View> for Enter {
    ghost then = { Entering };
}

pub(crate) struct Leave;

impl Play<(), View> for Leave {
    ghost then = { Leaving };
}

pub(crate) struct Shut;

impl Play<(), View> for Shut {
    ghost then = { Shutting };
}

pub(crate) struct Look;

impl Play<(), View> for Look {
    ghost then = { Looking };
}

// The new seat stands for one sender.
pub(crate) struct SeatSender;

impl Split<View> for SeatSender {
    ghost left = { less_room 1 };

    ghost right = { λ _. newcomer 1 };
}

// The new seat stands for none: it may look.
pub(crate) struct SeatWatcher;

impl Split<View> for SeatWatcher {
    ghost left = { less_room 0 };

    ghost right = { λ _. newcomer 0 };
}
