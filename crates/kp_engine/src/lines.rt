//! Several connections, each to a node, and a round for each.

ghost use Rattle.std.specs.Prelude.{◌≡◌, OnOk, find};
ghost use Rattle.std.specs.List.{AllByRecursion};
ghost use Rattle.std.specs.Option.{option_copied};
ghost use Rattle.futures.specs.Task.{Covers, Keeps};
ghost use Rattle.kp_engine.specs.Engine.{IfOpen};
ghost use Rattle.kp_engine.specs.Lines.{RoundsEach, is_given_up, is_lost};

use crate::exchange::Exchange;
use crate::node_line::NodeLine;
use futures::task::Context;
use kp_connection::Stream;
use std::alloc::AllocError;

/// A round for each connection at this moment, in their order. Behind it each that is still open wakes who polls.
pub(crate) fn poll_rounds<S: Stream>(
    exchange: &mut Exchange,
    lines: &mut [NodeLine<S>],
    cx: &mut Context<'_>,
    now: u64,
) -> Result<(), AllocError>
    ensures rounds { RoundsEach S.answers now exchange.old lines.old result exchange.new lines.new }
    ensures registered { OnOk result (AllByRecursion (λ l. IfOpen l.line (λ wire. Covers cx.new (S.reader wire.stream))) lines.new) }
    ensures kept { Keeps cx.old cx.new }
{
    for line in lines.iter_mut() {
        match line.poll_round(exchange, cx, now) {
            Ok(()) => {}
            Err(refused) => return Err(refused),
        }
    }
    Ok(())
}

/// The first connection that was given up.
pub(crate) fn first_lost<S: Stream>(lines: &[NodeLine<S>]) -> Option<&NodeLine<S>>
    ensures { option_copied result ≡ find is_lost lines.now }
{
    lines.iter().find(|line| line.is_lost())
}

/// The first connection to this node that was given up.
pub(crate) fn given_up<S: Stream>(lines: &[NodeLine<S>], node: u32) -> Option<&NodeLine<S>>
    ensures { option_copied result ≡ find (is_given_up node) lines.now }
{
    lines.iter().find(|line| line.is_given_up(node))
}
