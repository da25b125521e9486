//! The last part of a turn: the attempts are dropped where it was cut, and reports.

ghost use Rattle.std.specs.Prelude.{◌≡◌, ◌==◌, ◌&&◌, [], length, OnOk, OnErr};
ghost use Rattle.kp_rules.specs.Calls.{Disconnect};
ghost use Rattle.kp_rules.specs.Partitions.{all_untold};
ghost use Rattle.kp_engine.specs.Exchange.{OnlyCore, Runs};
ghost use Rattle.kp_engine.specs.Polls.{Finishes, is_cut};
ghost use Rattle.kp_engine.specs.Steps.{OnlyMails};
ghost use Rattle.kp_engine.specs.Turn.{if_so};

use crate::exchange::Exchange;
use crate::stop::Cause;
use std::alloc::AllocError;

/// Drops the attempts, where the turn was cut, and hands over reports. Whether the engine is done: the core was closed,
/// every item was told of, nothing is held and every report was handed over.
pub(crate) fn finish(
    exchange: &mut Exchange,
    cut: Option<Cause>,
    idle: bool,
    node: u32,
    now: u64,
) -> Result<bool, AllocError>
    ensures finishes { Finishes node now cut idle exchange.old result exchange.new }
    ensures only { OnlyMails exchange.old exchange.new }
{
    let Ok(()) = drop_if_cut(exchange, cut, node, now) else {
        return Err(AllocError);
    };
    match exchange.send_all() {
        Err(refused) => Err(refused),
        Ok(all_sent) => Ok(is_done(exchange, idle, all_sent)),
    }
}

/// Drops the attempts, where the turn was cut.
fn drop_if_cut(
    exchange: &mut Exchange,
    cut: Option<Cause>,
    node: u32,
    now: u64,
) -> Result<(), AllocError>
    ensures ok { OnOk result (Runs exchange.old (if_so (is_cut cut) (Disconnect node now)) exchange.new) }
    ensures err { OnErr result (Runs exchange.old [] exchange.new) }
    ensures same { OnlyCore exchange.old exchange.new }
{
    match cut {
        None => Ok(()),
        Some(_) => exchange.disconnect(node, now),
    }
}

fn is_done(exchange: &Exchange, idle: bool, all_sent: bool) -> bool
    ensures { result ≡ (exchange.now.closed && idle && all_sent && (length (all_untold exchange.now.core) == 0)) }
{
    exchange.closed && idle && all_sent && exchange.core.untold() == 0
}
