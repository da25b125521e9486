//! A turn with no connection.

ghost use Rattle.std.specs.Prelude.{◌≡◌, List};
ghost use Rattle.futures.specs.declared.task.Poll.TheVariants.{Ready};
ghost use Rattle.kp_rules.specs.Calls.{Call};
ghost use Rattle.kp_engine.specs.Away.{EndsAway, cut_if_late, stop_away};
ghost use Rattle.kp_engine.specs.Polls.{GoesOnBehind, IsUndone};

use crate::exchange::Exchange;
use crate::stop::{Cause, Stop};
use crate::turn::ending;

/// One turn for this node at this moment with no connection, where it had been given up for this: items, and the close; the
/// tick; reports.
pub(crate) fn turn_away(exchange: &mut Exchange, cause: Cause, node: u32, now: u64) -> Stop
    ensures turns { (calls : List Call) × EndsAway node now cause exchange.old calls result exchange.new }
    ensures undone { GoesOnBehind (Ready result) → IsUndone exchange.old exchange.new }
{
    let Ok(idle) = exchange.take_items() else {
        return Stop::OutOfMemory;
    };
    let Ok(ticked) = exchange.tick(node, now) else {
        return Stop::OutOfMemory;
    };
    let cut = cut_if_late(ticked.reconnect);
    let Ok(done) = ending::finish(exchange, cut, idle, node, now) else {
        return Stop::OutOfMemory;
    };
    stop_away(done, cause)
}

/// What the turn is cut for, where a request has waited too long.
fn cut_if_late(late: bool) -> Option<Cause>
    ensures { result ≡ cut_if_late late }
{
    if late { Some(Cause::TimedOut) } else { None }
}

/// What the turn answers.
fn stop_away(done: bool, cause: Cause) -> Stop
    ensures { result ≡ stop_away done cause }
{
    if done {
        Stop::Done
    } else {
        Stop::NeedStream(cause)
    }
}
