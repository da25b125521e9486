//! The lines of an input.

ghost use Rattle.std.specs.Prelude.{◌≡◌, ◌<◌, ◌∷◌, IfOk, length, map};
ghost use Rattle.kp_program.specs.Lines.{lines};

use memchr::memchr;
use std::alloc::{AllocError, Global};

/// The first line, and what stands behind its end.
pub fn cut(bytes: &[u8]) -> (&[u8], &[u8])
    requires { 0 < length bytes.now }
    ensures line { lines bytes.now ≡ result.0.now ∷ lines result.1.now }
    ensures shorter { length result.1.now < length bytes.now }
{
    match memchr(b'\n', bytes) {
        Some(end) => (&bytes[..end], &bytes[end + 1..]),
        None => (bytes, &[]),
    }
}

/// The lines, each where it stands.
pub fn slices_of(alloc: Global, bytes: &[u8]) -> Result<Vec<&[u8]>, AllocError>
    ensures { IfOk result (λ v. map (λ line. line.now) v.items ≡ lines bytes.now) }
{
    let mut found = Vec::new(alloc);
    let mut rest = bytes;
    while !rest.is_empty() {
        let (line, behind) = cut(rest);
        found.push(line)?;
        rest = behind;
    }
    Ok(found)
}
