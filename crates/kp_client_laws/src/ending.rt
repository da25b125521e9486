//! What the end of a service says of it, with nothing left to choose.

ghost use Rattle.std.specs.Prelude.{◌≡◌, List};
ghost use Rattle.kp_client.specs.Left.{ending_of, parts_in, IsSettled};
ghost use Rattle.kp_client.specs.declared.left.Ending.TheVariants.{Done};
ghost use Rattle.kp_client.specs.declared.left.Left.{Left};
ghost use Rattle.kp_client.specs.declared.service.Service.{Service};
ghost use Rattle.kp_client_laws.specs.Ending.{GiveBackAlike, WasClosed};
ghost use Rattle.kp_client_laws.specs.Over.{IsOver};
ghost use Rattle.kp_engine.specs.declared.parts.Parts.{Parts};
ghost use Rattle.kp_lanes.specs.declared.sender.Finished.{Finished};

/// A service that says that it is done had an engine, whose core was closed once nobody could send any more, and ended.
pub fn a_service_is_done_where_nobody_can_send()
    ensures { (service : Service) (finished : List Finished) (left : Left) → (over : IsOver service finished left)
        → ending_of over.ended ≡ Done → WasClosed over.has_ended.calls (parts_in over.ended).core }
{}

/// What is left of a service is told by what it had, and what its senders had: there is one answer only.
pub fn what_is_left_is_one()
    ensures { (parts : Parts) (finished : List Finished) (one other : Left)
        → IsSettled parts finished one → IsSettled parts finished other → GiveBackAlike finished one other }
{}
