//! BOOLEAN, a byte that is 0 or 1 (protocol guide, "Protocol Primitive Types").

ghost use Rattle.std.specs.Prelude.{◌≡◌, ◌++◌, length, OnOk, OnErr};
ghost use Rattle.kp_wire.specs.Reading.{IsRead};
ghost use Rattle.kp_wire.specs.Fields.{boolean, read_boolean};

use crate::fault::WireFault;
use std::alloc::AllocError;

/// The BOOLEAN at the front, and the bytes behind it.
#[tactic(auto, unfolding(crate::specs::Fields::read_boolean))]
pub fn read_bool(bytes: &[u8]) -> Result<(bool, &[u8]), WireFault>
    ensures { IsRead (λ x. (x.0, x.1.now)) result (boolean.read bytes.now) }
{
    match bytes {
        [] => Err(WireFault::Short),
        [0, rest @ ..] => Ok((false, rest)),
        [1, rest @ ..] => Ok((true, rest)),
        _ => Err(WireFault::BadByte),
    }
}

/// Appends the BOOLEAN. An `Err` leaves `out` as it was.
pub fn put_bool(out: &mut Vec<u8>, value: bool) -> Result<(), AllocError>
    ensures ok { OnOk result (out.new.items ≡ out.old.items ++ boolean.spell value) }
    ensures err { OnErr result (out.new.items ≡ out.old.items) }
{
    let byte = if value { 1u8 } else { 0u8 };
    out.extend_from_slice(&[byte])
}

/// How many bytes a BOOLEAN has.
pub fn size_of_bool(_value: bool) -> u64
    ensures { result ≡ length (boolean.spell _value) }
{
    1
}
