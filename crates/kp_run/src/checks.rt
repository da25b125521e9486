//! What options are looked at for.

ghost use Rattle.std.specs.Prelude.{◌≡◌, Ok, IfErr, IfOk, OnOk};
ghost use Rattle.kp_accum.specs.Config.{checked};
ghost use Rattle.kp_options.specs.Places.{plan_text};
ghost use Rattle.kp_run.specs.Options.{RefusedFor};
ghost use Rattle.kp_run.specs.Plans.{HasPlan, IsPlanOf};
ghost use Rattle.kp_options.specs.Topics.{IsTopic};

use crate::fault::RunFault;
use crate::plan::plan_of;
use kp_broker::FaultPlan;
use kp_options::{Options, is_topic};
use std::alloc::Global;

/// Whether the topic is one that Kafka takes.
pub(crate) fn check_topic(options: &Options<'_>) -> Result<(), RunFault>
    ensures fine { OnOk result (IsTopic options.now.topic.now) }
    ensures refused { IfErr result (RefusedFor options.now) }
{
    if is_topic(options.topic) {
        Ok(())
    } else {
        Err(RunFault::Topic)
    }
}

/// What the process's broker does in place of an answer.
pub(crate) fn plan_in(alloc: Global, options: &Options<'_>) -> Result<FaultPlan, RunFault>
    requires { IsTopic options.now.topic.now }
    ensures fine { IfOk result (λ plan. IsPlanOf (plan_text options.now.place) plan) }
    ensures refused { IfErr result (RefusedFor options.now) }
{
    let text = options.place.plan_text();
    Ok(plan_of(alloc, text)?)
}

/// Whether the configuration is one that is allowed.
pub(crate) fn check_config(options: &Options<'_>) -> Result<(), RunFault>
    requires topic { IsTopic options.now.topic.now }
    requires plan { HasPlan (plan_text options.now.place) }
    ensures fine { OnOk result (checked options.now.config ≡ Ok tt) }
    ensures refused { IfErr result (RefusedFor options.now) }
{
    match options.config.check() {
        Ok(()) => Ok(()),
        Err(fault) => Err(RunFault::Config(fault)),
    }
}
