//! Replies that name no request in flight.

ghost use Rattle.std.specs.Prelude.{◌≡◌};
ghost use Rattle.kp_engine.specs.Turned.{call_of, strays_behind};

use crate::turned::Turned;

/// So many of them in a row, and a connection is of no use any more.
pub(crate) const STRAY_LIMIT: u32 = 1_000;

/// How many there are in a row behind this call; once there are too many they are counted no more.
#[inline]
pub(crate) fn strays_behind(call: &Turned, strays: u32) -> u32
    ensures { result ≡ strays_behind (call_of call.now) strays }
{
    match call {
        Turned::Reply(_, _, Ok(replied)) if strays < STRAY_LIMIT => {
            if replied.known { 0 } else { strays + 1 }
        }
        _ => strays,
    }
}
