//! Options that were looked at.

ghost use Rattle.std.specs.Prelude.{◌≡◌, ◌≤◌, length};
ghost use Rattle.kp_options.specs.declared.topic.TheConstants.{TOPIC_LIMIT};

use crate::checks::{check_config, check_topic, plan_in};
use crate::fault::RunFault;
use kp_broker::FaultPlan;
use kp_options::{Options, TOPIC_LIMIT};
use std::alloc::Global;

/// Options that were looked at, and have no fault.
#[derive(Debug, Drop)]
pub struct Checked<'a> {
    pub(crate) options: Options<'a>,
    /// What a broker of this process does in place of an answer.
    pub(crate) plan: FaultPlan,
    ghost topic: { length options.topic.now ≤ TOPIC_LIMIT },
}

impl<'a> Checked<'a> {
    ghost use Rattle.kp_run.specs.Options.{Checks};

    /// The options, looked at: the topic, then the plan, then the configuration.
    pub fn of(alloc: Global, options: Options<'a>) -> Result<Checked<'a>, RunFault>
        ensures { Checks options.entry result }
    {
        check_topic(&options)?;
        let plan = plan_in(alloc, &options)?;
        check_config(&options)?;
        Ok(Checked { options, plan })
    }

    /// The options that were looked at.
    pub fn options(&self) -> &Options<'a>
        ensures { result.now ≡ self.now.options }
    {
        &self.options
    }
}
