//! CRC-32C, the checksum of a record batch (RFC 3720, appendix B.4), sixteen bytes a step.

ghost use Rattle.std.specs.Prelude.{◌≡◌, ◌≤◌, ◌+◌, ◌*◌, ◌<◌, ℕ, bit_xor, drop};
ghost use Rattle.std.specs.List.{fold};
ghost use Rattle.kp_wire.specs.Checksum.{crc};
ghost use Rattle.kp_wire.specs.Register.{step_times, byte_step};

mod tables;

use tables::TABLES;

/// What so many times eight places, one time more than the table's number, make of the low byte.
#[inline]
fn entry(table: usize, low: u8) -> u32
    requires { table < 16 }
    ensures { result ≡ step_times (8 * (table + 1)) low }
{
    TABLES[table][low as usize]
}

/// The register after a byte.
fn shift_byte(register: u32, byte: u8) -> u32
    ensures { result ≡ byte_step register byte }
{
    let mixed = register ^ u32::from(byte);
    (mixed / 256) ^ entry(0, (mixed % 256) as u8)
}

/// What 64 places, and eight more for each of so many tables, make of eight bytes, low byte first: each goes its own
/// places, by its distance from the last.
#[inline]
fn places(tables: usize, bytes: u64) -> u32
    requires { tables ≤ 8 }
    ensures { result ≡ step_times (64 + 8 * tables) bytes }
{
    entry(tables + 7, (bytes % 256) as u8)
        ^ entry(tables + 6, ((bytes >> 8) % 256) as u8)
        ^ entry(tables + 5, ((bytes >> 16) % 256) as u8)
        ^ entry(tables + 4, ((bytes >> 24) % 256) as u8)
        ^ entry(tables + 3, ((bytes >> 32) % 256) as u8)
        ^ entry(tables + 2, ((bytes >> 40) % 256) as u8)
        ^ entry(tables + 1, ((bytes >> 48) % 256) as u8)
        ^ entry(tables, ((bytes >> 56) % 256) as u8)
}

/// The register after eight bytes, low byte first.
#[inline]
fn shift_eight(register: u32, bytes: u64) -> u32
    ensures { result ≡ step_times 64 (bit_xor register bytes) }
{
    places(0, u64::from(register) ^ bytes)
}

/// The register after sixteen bytes. What becomes of the last eight does not wait for the register.
#[inline]
fn shift_sixteen(register: u32, first: u64, last: u64) -> u32
    ensures { result ≡ step_times 64 (bit_xor (step_times 64 (bit_xor register first)) last) }
{
    places(0, last) ^ places(8, u64::from(register) ^ first)
}

/// The register after eight bytes and, where eight more follow them, after those too, with what then follows.
#[inline]
fn shift_on(register: u32, first: u64, following: &[u8]) -> (u32, &[u8])
    ensures on { fold byte_step result.0 result.1.now ≡ fold byte_step (step_times 64 (bit_xor register first)) following.now }
    ensures left { (k : ℕ) × (result.1.now ≡ drop k following.now) }
{
    let [a, b, c, d, e, f, g, h, rest @ ..] = following else {
        return (shift_eight(register, first), following);
    };
    let last = u64::from_le_bytes([*a, *b, *c, *d, *e, *f, *g, *h]);
    (shift_sixteen(register, first, last), rest)
}

/// The register after the bytes.
fn shift_all(register: u32, bytes: &[u8]) -> u32
    ensures { result ≡ fold byte_step register bytes.now }
{
    let mut register = register;
    let mut left = bytes;
    while let [a, b, c, d, e, f, g, h, rest @ ..] = left {
        let first = u64::from_le_bytes([*a, *b, *c, *d, *e, *f, *g, *h]);
        let (next, following) = shift_on(register, first, rest);
        register = next;
        left = following;
    }
    for byte in left {
        register = shift_byte(register, *byte);
    }
    register
}

/// The CRC-32C of the bytes.
pub fn crc32c(bytes: &[u8]) -> u32
    ensures { result ≡ crc bytes.now }
{
    !shift_all(u32::MAX, bytes)
}
