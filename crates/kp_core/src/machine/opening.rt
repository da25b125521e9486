//! A core is made.

ghost use Rattle.std.specs.Prelude.{◌≡◌, IfOk};
ghost use Rattle.std.specs.Str.{IsUtf8};
ghost use Rattle.kp_rules.specs.Auditing.{opened};
ghost use Rattle.kp_rules.specs.Opening.{MayOpen, new_core};

use crate::machine::Core;
use crate::machine::partitions::Partitions;
use kp_accum::Config;
use kp_parts::Desk;
use kp_rules::Names;
use kp_wire::Text;
use std::alloc::{AllocError, Global};

impl Core {
    /// The core, with all the memory that it has from the beginning.
    pub(super) fn open(
        alloc: Global,
        config: Config,
        names: Names,
        partitions: u32,
        senders: u32,
        producer_id: u64,
        first_correlation: u32,
        audits: bool,
    ) -> Result<Core, AllocError>
        requires { MayOpen config names partitions senders producer_id first_correlation }
        ensures { IfOk result (λ core. core ≡
            opened audits (new_core config names partitions senders producer_id first_correlation)) }
    {
        see_text(&names.topic);
        see_text(&names.client);
        let desk = Desk::new(alloc, senders, config.buffer_memory)?;
        let requests = Vec::with_capacity(
            alloc,
            config.max_in_flight_requests_per_connection as usize,
        )?;
        let turns = Vec::new(alloc);
        let partitions = Partitions::new(alloc, partitions, producer_id, audits)?;
        Ok(Core {
            alloc,
            config,
            names,
            partitions,
            requests,
            id_waits: None,
            correlation: first_correlation,
            turns,
            exhausted: false,
            closing: false,
            ended: false,
            desk,
        })
    }
}

/// A text is in UTF-8.
fn see_text(text: &Text)
    ensures { IsUtf8 text.now }
{
    let _text = text.as_str();
}
