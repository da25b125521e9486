//! What runs an engine makes such polls: those of one run go on from those before it.

ghost use Rattle.std.specs.Prelude.{◌++◌, List};
ghost use Rattle.kp_connection.specs.Answers.{Answer};
ghost use Rattle.kp_engine.specs.Clocked.{PollsOnce};
ghost use Rattle.kp_engine.specs.declared.engine.Engine.{Engine as Polled};
ghost use Rattle.kp_engine.specs.declared.exchange.Exchange.{Exchange};
ghost use Rattle.kp_engine.specs.declared.stop.Stop.{Stop};
ghost use Rattle.kp_polls.specs.Bytes.{OverStream};
ghost use Rattle.kp_polls.specs.Polling.{Polling};
ghost use Rattle.kp_rules.specs.Calls.{Call};
ghost use Rattle.kp_running.specs.Fleet.{FleetPolls};
ghost use Rattle.kp_running.specs.Running.{Reaches};
ghost use Rattle.kp_running.specs.declared.fleet.Fleet.{Fleet};
ghost use Rattle.kp_running.specs.declared.over.Over.{Over};
ghost use Rattle.kp_world.specs.World.{Opening};

use kp_connection::Stream;
use kp_engine::Clock;
use kp_running::Keeping;

/// Where an engine was polled any number of times, and was then run to its stop, all these are polls; and so are they over
/// the stream that it had, from when this was given.
pub fn a_run_s_polls_are_polls<S: Stream, C: Clock>()
    ensures polling { (o : Opening) (calls : List Call) (old new : Polled S C) (stop : Stop)
        → Polling S.answers o calls old.exchange → Reaches (PollsOnce S.answers C.moments) old stop new
        → (more : List Call) × Polling S.answers o (calls ++ more) new.exchange }
    ensures over_stream { (x : Exchange) (given : S) (calls mine : List Call) (xs : List Answer) (old new : Polled S C) (stop : Stop)
        → OverStream S.answers given x calls mine xs old.exchange old.line → Reaches (PollsOnce S.answers C.moments) old stop new
        → (more : List Call) × (ys : List Answer) × OverStream S.answers given x (calls ++ more) (mine ++ more) (xs ++ ys) new.exchange new.line }
{}

/// So it is with an engine over several nodes that lasts through outages, whatever keeps its connections: with what it does of what
/// is new, and with its polls over those that there are, or with none. (The engine and its keeper are what this gives of an `E`.)
pub fn the_polls_of_a_fleet_are_polls<S: Stream, C: Clock, K: Keeping, E>()
    ensures { (fleet : E → Fleet S C K) (o : Opening) (calls : List Call) (old new : E) (stop : Over)
        → Polling S.answers o calls (fleet old).engine.exchange
        → Reaches (λ was result is. FleetPolls S.answers C.moments K.limit K.made (fleet was) result (fleet is)) old stop new
        → (more : List Call) × Polling S.answers o (calls ++ more) (fleet new).engine.exchange }
{}
