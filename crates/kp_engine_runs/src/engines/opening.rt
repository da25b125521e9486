//! An engine with the senders that it serves.

ghost use Rattle.std.specs.Prelude.{IfOk};
ghost use Rattle.kp_engine.specs.Opening.{MayTurn};

use crate::engines::clock::Ticking;
use crate::engines::setting::Setting;
use crate::engines::shared::Shared;
use kp_cases::StepFault;
use kp_core::{Core, Names};
use kp_engine::Engine;
use kp_lanes::{Closer, Intake, OpenFault, Sender, open_lanes};
use kp_wire::Text;
use std::alloc::{AllocError, Global};

/// The producer id of each engine here.
const PRODUCER_ID: u64 = 1000;

/// More than a record here takes, as the size in bytes of the batch that holds it alone.
const MAX_RECORD: u64 = 100;

fn names_of(alloc: Global) -> Result<Names, AllocError> {
    Ok(Names {
        topic: Text::from_str(alloc, "t")?,
        client: Text::from_str(alloc, "kp")?,
    })
}

/// A core of which nothing was asked yet, and lanes that go with it.
fn ends_of(
    alloc: Global,
    setting: Setting,
    names: Names,
) -> Result<(Core, Vec<Sender>, Intake, Closer), StepFault>
    ensures { IfOk result (λ ends. MayTurn ends.0 ends.2) }
{
    let Setting {
        config,
        partitions,
        senders,
        correlation,
        capacity,
        ..
    } = setting;
    if config.check() != Ok(())
        || config.max_request_size < MAX_RECORD
        || config.buffer_memory < MAX_RECORD
        || names.topic.len() > 249
        || names.client.len() > 249
        || partitions == 0
        || partitions > 1024
        || senders == 0
        || senders > 64
        || correlation > 2_147_483_647
    {
        return Err("no core, or no lanes".into());
    }
    let Ok(core) = Core::new(
        alloc,
        config,
        names,
        partitions,
        senders,
        PRODUCER_ID,
        correlation,
        true,
    ) else {
        return Err(StepFault::OutOfMemory);
    };
    match open_lanes(alloc, senders, capacity, partitions, MAX_RECORD) {
        Ok((ends, intake, closer)) => Ok((core, ends, intake, closer)),
        Err(OpenFault::OutOfMemory) => Err(StepFault::OutOfMemory),
        Err(_) => Err("no core, or no lanes".into()),
    }
}

/// The engine, made of the values that come back where memory is refused.
fn engine_of(
    alloc: Global,
    core: Core,
    intake: Intake,
    stream: Shared,
    setting: Setting,
) -> Result<Engine<Shared, Ticking>, StepFault>
    requires { MayTurn core intake }
{
    let clock = Ticking::new(setting.step);
    let keeps = setting.keeps_calls;
    let made = match Engine::new(alloc, core, intake, stream, clock, keeps) {
        Ok(engine) => return Ok(engine),
        Err((core, intake, stream, clock)) => {
            Engine::new(alloc, core, intake, stream, clock, keeps)
        }
    };
    made.map_err(|_| StepFault::OutOfMemory)
}

/// An engine over this stream, with the senders that it serves.
pub(crate) fn open(
    alloc: Global,
    setting: Setting,
    stream: Shared,
) -> Result<(Engine<Shared, Ticking>, Vec<Sender>, Closer), StepFault> {
    let names = names_of(alloc)?;
    let (core, senders, intake, closer) = ends_of(alloc, setting, names)?;
    let engine = engine_of(alloc, core, intake, stream, setting)?;
    Ok((engine, senders, closer))
}
