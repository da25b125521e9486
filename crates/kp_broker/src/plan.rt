//! Plans of faults: what a broker does with some of the Produce requests that come to its nodes, in place of answering them.

ghost use Rattle.std.specs.Prelude.{◌≡◌, [], IfOk, option_map};
ghost use Rattle.std.specs.Option.{option_copied};
ghost use Rattle.kp_broker.specs.Plan.{Adds, ParsesPlan, planned};

mod action;
mod entry;
mod fault;

pub use action::Action;
use entry::entry_of;
pub use fault::PlanFault;
use std::alloc::Global;
use std::collections::BTreeMap;
use std::collections::btree_map::Entry;
use std::marker::Model;

/// What is done with which Produce request, these counted from 0 over a broker's life. Seen as the list of its entries
/// in the order of their numbers.
#[derive(Debug, Drop)]
pub struct FaultPlan {
    actions: BTreeMap<u64, Action>,
}

impl Model for FaultPlan {
    ghost use Rattle.kp_broker.specs.Plan.{Plan};

    ghost Value = { Plan };

    ghost view = { λ plan. plan.actions.entries };
}

impl FaultPlan {
    /// The plan by which each request is answered. It takes no memory.
    pub fn none(alloc: Global) -> FaultPlan
        ensures { result ≡ [] }
    {
        FaultPlan {
            actions: BTreeMap::new(alloc),
        }
    }

    /// The plan that a text spells: its entries as `NUMBER=ACTION`, with commas between them.
    pub fn parse(alloc: Global, text: &str) -> Result<FaultPlan, PlanFault>
        ensures { ParsesPlan text.now result }
    {
        let mut actions = BTreeMap::new(alloc);
        for part in text.split(',') {
            let Some((number, action)) = entry_of(part) else {
                return Err(PlanFault::BadPlan);
            };
            add(&mut actions, number, action)?;
        }
        Ok(FaultPlan { actions })
    }

    /// What is done with the request of this number, if it is not to be answered as any other.
    pub fn action(&self, number: u64) -> Option<Action>
        ensures { result ≡ planned self.now number }
    {
        self.actions.get(&number).copied()
    }
}

/// Puts one more entry to its place.
fn add(actions: &mut BTreeMap<u64, Action>, number: u64, action: Action) -> Result<(), PlanFault>
    ensures { Adds actions.old.entries number action result actions.new.entries }
{
    match actions.entry(number)? {
        Entry::Vacant(entry) => {
            entry.insert(action);
            Ok(())
        }
        Entry::Occupied(_) => Err(PlanFault::BadPlan),
    }
}
