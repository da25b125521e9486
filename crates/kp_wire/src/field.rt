//! Fields of bytes and of text, and where a field may end.

ghost use Rattle.std.specs.Prelude.{◌≡◌, Ok, length};
ghost use Rattle.kp_wire.specs.Reading.{IsRead};
ghost use Rattle.kp_wire.specs.Codec.{plain, utf8, ends_before};

use crate::fault::WireFault;

/// So many bytes, and the bytes behind them.
pub fn read_bytes(bytes: &[u8], len: usize) -> Result<(&[u8], &[u8]), WireFault>
    ensures { IsRead (λ x. (x.0.now, x.1.now)) result ((plain len).read bytes.now) }
{
    if bytes.len() < len {
        return Err(WireFault::Short);
    }
    Ok(bytes.split_at(len))
}

/// So many bytes of UTF-8, and the bytes behind them.
pub fn read_utf8(bytes: &[u8], len: usize) -> Result<(&str, &[u8]), WireFault>
    ensures { IsRead (λ x. (x.0.now, x.1.now)) result ((utf8 len).read bytes.now) }
{
    let (front, rest) = read_bytes(bytes, len)?;
    match str::from_utf8(front) {
        Ok(text) => Ok((text, rest)),
        Err(_) => Err(WireFault::NotUtf8),
    }
}

/// The field, which ends where `after` bytes are left or more: else BadLength.
pub fn end_before<T: Drop>(field: (T, &[u8]), after: usize) -> Result<(T, &[u8]), WireFault>
    ensures { IsRead (λ x. (x.0, x.1.now)) result (ends_before after (Ok (field.entry.0, field.entry.1.now))) }
{
    if field.1.len() < after {
        return Err(WireFault::BadLength);
    }
    Ok(field)
}
