//! What the process's broker does in place of an answer.

ghost use Rattle.std.specs.Prelude.{option_map};
ghost use Rattle.kp_run.specs.Plans.{Plans};

use kp_broker::{FaultPlan, PlanFault};
use std::alloc::Global;

/// The plan that a text spells, or the one by which each request is answered.
pub(crate) fn plan_of(alloc: Global, text: Option<&str>) -> Result<FaultPlan, PlanFault>
    ensures { Plans (option_map (λ text. text.now) text.entry) result }
{
    match text {
        Some(text) => FaultPlan::parse(alloc, text),
        None => Ok(FaultPlan::none(alloc)),
    }
}
