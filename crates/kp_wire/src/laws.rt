//! Laws of the definitions that this crate's contracts cite.

ghost use Rattle.std.specs.Prelude.{◌*◌, List, ℕ, length};
ghost use Rattle.kp_wire.specs.Checksum.{Divides, dividend, quotient, remainder};

/// The checksum's long division divides, whatever the bytes: the dividend is the sum of quotient times divisor
/// and remainder, and the remainder's degree is below the divisor's.
pub fn checksum_divides()
    ensures { (bytes : List ℕ) → let places = 8 * length bytes in
        Divides (dividend bytes) (quotient places (dividend bytes)) (remainder places (dividend bytes)) }
{}
