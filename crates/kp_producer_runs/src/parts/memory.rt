//! The memory that items take: a budget, and the desk at which senders are told of them.

use crate::parts::{PartPlayer, Played};
use kp_accum::Budget;
use kp_cases::{StepFault, Words, put};
use kp_parts::Desk;

/// Tells how many senders a desk has and whether it has room, and has it keep a place.
fn look_at(desk: &mut Desk, charge: u64, sender: u32, came: &mut String) -> Played {
    write!(
        came,
        "senders {} room {}",
        desk.senders(),
        desk.has_room(charge)
    )?;
    if sender as usize >= desk.senders() {
        return Err("there is no such sender".into());
    }
    Ok(desk.reserve(sender)?)
}

impl PartPlayer {
    /// A call of a budget.
    pub(crate) fn play_budget(&mut self, words: &mut Words<'_>, came: &mut String) -> Played {
        let budget = &mut self.budget;
        let (call, charge) = (words.word()?, words.number()?);
        match call {
            "new" => *budget = Budget::new(charge),
            "has-room" => return put(came, &budget.has_room(charge)),
            "take" if budget.has_room(charge) => budget.take(charge),
            "release" if charge <= budget.used() => budget.release(charge),
            "take" | "release" => return Err("the budget has not so much".into()),
            _ => return Err(StepFault::NotUnderstood),
        }
        Ok(write!(came, "used {}", budget.used())?)
    }

    /// Tells a desk for so many senders with so much memory: how many senders it has, whether it has room for this charge
    /// and when a place more is kept for this sender.
    pub(crate) fn tell_desk(&self, words: &mut Words<'_>, came: &mut String) -> Played {
        let (senders, memory) = (words.number()?, words.number()?);
        let (charge, sender) = (words.number()?, words.number()?);
        let mut desk = Desk::new(self.alloc, senders, memory)?;
        look_at(&mut desk, charge, sender, came)
    }
}
