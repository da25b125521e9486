//! Laws of the definitions on worlds.

ghost use Rattle.std.specs.Prelude.{◌≡◌, ℕ, List, Ok};
ghost use Rattle.std.specs.List.{AllByRecursion};
ghost use Rattle.kp_accum.specs.declared.config.Config.{Config};
ghost use Rattle.kp_world.specs.Events.{events_of};
ghost use Rattle.kp_world.specs.Replay.{MayHappen, replayed};
ghost use Rattle.kp_world.specs.Run.{Run};
ghost use Rattle.kp_world.specs.World.{World, opening, scheduled};
ghost use Rattle.kp_world.specs.declared.event.Event.{Event};

/// What a schedule brings about with the loopback broker is a run: each of its events is a step that any honest
/// broker's world may take, where no answer that the schedule asks for says something of a batch.
pub fn a_replay_is_a_run()
    ensures { (c : Config) (partitions senders : ℕ) (es : List Event) (w : World)
        → AllByRecursion MayHappen es
        → replayed es (opening (scheduled c partitions senders)) ≡ Ok w
        → Run (opening (scheduled c partitions senders)) (events_of 0 es) w }
{}
