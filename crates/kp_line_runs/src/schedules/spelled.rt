//! Bytes that a text spells: `\n` is the end of a line, `\xNN` a byte by its number, and all else stands for itself.

use kp_cases::StepFault;

/// The byte that is spelled behind a `\`, and the text behind it.
fn byte_of(piece: &str) -> Option<(u8, &str)> {
    if let Some(rest) = piece.strip_prefix('n') {
        return Some((b'\n', rest));
    }
    let (number, rest) = piece.strip_prefix('x')?.split_at_checked(2)?;
    Some((u8::from_str_radix(number, 16).ok()?, rest))
}

/// Adds the bytes that a text spells.
pub(crate) fn put_spelled(bytes: &mut Vec<u8>, text: &str) -> Result<(), StepFault> {
    let mut pieces = text.split('\\');
    bytes.extend_from_slice(pieces.next().unwrap_or("").as_bytes())?;
    for piece in pieces {
        let (byte, rest) = byte_of(piece).ok_or(StepFault::NotUnderstood)?;
        bytes.push(byte)?;
        bytes.extend_from_slice(rest.as_bytes())?;
    }
    Ok(())
}
