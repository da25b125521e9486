//! VARINT and VARLONG, Kafka's signed numbers of one to ten bytes (record batch format, "Varint Encoding").

ghost use Rattle.std.specs.Prelude.{◌≡◌, ◌<◌, ◌≤◌, ◌+◌, ◌-◌, ◌*◌, ◌^◌, ◌++◌, ℤ, List, ℕ, Ok, length, take, drop, OnOk, OnErr, IfOk, FitsSigned};
ghost use Rattle.std.specs.Int.{w32};
ghost use Rattle.kp_wire.specs.Reading.{IsRead, Took};
ghost use Rattle.kp_wire.specs.Varint.{zigzag, unzigzag, room, groups, read_groups, varint, varlong};

use crate::fault::WireFault;
use std::alloc::AllocError;

/// How many groups may stand before the last group of a VARINT.
const MORE_IN_VARINT: u8 = 4;

/// How many groups may stand before the last group of a VARLONG.
const MORE_IN_VARLONG: u8 = 9;

/// The greatest fifth byte of a VARINT: 28 bits stand before it.
const TOP_OF_VARINT: u8 = 0x0f;

/// The greatest tenth byte of a VARLONG: 63 bits stand before it.
const TOP_OF_VARLONG: u8 = 0x01;

fn folded(n: i64) -> u64
    ensures { result ≡ zigzag n }
{
    if n >= 0 {
        n as u64 * 2
    } else {
        (-(n + 1)) as u64 * 2 + 1
    }
}

fn unfolded(n: u64) -> i64
    ensures value { result ≡ unzigzag n }
    ensures narrow { n < 2 ^ 32 → FitsSigned w32 result }
{
    if n % 2 == 0 {
        (n / 2) as i64
    } else {
        -((n / 2) as i64) - 1
    }
}

/// The number at the front, in at most `more + 1` groups, and the bytes behind it.
#[cold]
#[inline(never)]
#[tactic(auto, using(crate::proofs::VarintLemmas::room_laws), unfolding(crate::specs::Varint::read_groups))]
fn groups_of(bytes: &[u8], more: u8, top: u8) -> Result<(u64, &[u8]), WireFault>
    requires { room more top ≤ 2 ^ 64 }
    ensures exact { IsRead (λ x. (x.0, x.1.now)) result (read_groups more top bytes.now) }
    ensures small { IfOk result (λ x. x.0 < room more top) }
{
    match bytes {
        [] => Err(WireFault::Short),
        [last, rest @ ..] if more == 0 => {
            if *last > top {
                Err(WireFault::TooLarge)
            } else {
                Ok((u64::from(*last), rest))
            }
        }
        [group, rest @ ..] => {
            if *group < 128 {
                return Ok((u64::from(*group), rest));
            }
            let (high, rest) = groups_of(rest, more - 1, top)?;
            if high == 0 {
                return Err(WireFault::NotShortest);
            }
            Ok((u64::from(*group - 128) + 128 * high, rest))
        }
    }
}

/// As `groups_of`, at once where there are one or two groups, as most numbers have.
#[inline]
fn number_of(bytes: &[u8], more: u8, top: u8) -> Result<(u64, &[u8]), WireFault>
    requires some { 2 ≤ more }
    requires fits { room more top ≤ 2 ^ 64 }
    ensures exact { IsRead (λ x. (x.0, x.1.now)) result (read_groups more top bytes.now) }
    ensures small { IfOk result (λ x. x.0 < room more top) }
{
    match bytes {
        [last, rest @ ..] if *last < 128 => Ok((u64::from(*last), rest)),
        [low, high, rest @ ..] if *high < 128 && *high > 0 => {
            Ok((u64::from(*low - 128) + 128 * u64::from(*high), rest))
        }
        _ => groups_of(bytes, more, top),
    }
}

/// The VARINT at the front, and the bytes behind it.
#[inline]
#[tactic(auto, unfolding(crate::specs::Varint::room))]
pub fn read_varint(bytes: &[u8]) -> Result<(i32, &[u8]), WireFault>
    ensures { IsRead (λ x. (x.0, x.1.now)) result (varint.read bytes.now) }
{
    let (n, rest) = number_of(bytes, MORE_IN_VARINT, TOP_OF_VARINT)?;
    Ok((unfolded(n) as i32, rest))
}

/// The VARLONG at the front, and the bytes behind it.
#[inline]
#[tactic(auto, unfolding(crate::specs::Varint::room))]
pub fn read_varlong(bytes: &[u8]) -> Result<(i64, &[u8]), WireFault>
    ensures { IsRead (λ x. (x.0, x.1.now)) result (varlong.read bytes.now) }
{
    let (n, rest) = number_of(bytes, MORE_IN_VARLONG, TOP_OF_VARLONG)?;
    Ok((unfolded(n), rest))
}

/// Appends a number in at most `more + 1` groups. An `Err` leaves `out` as it was.
#[cold]
#[inline(never)]
fn put_groups(out: &mut Vec<u8>, more: u8, n: u64) -> Result<(), AllocError>
    requires few { more < 10 }
    requires fits { n < room more 127 }
    ensures ok { OnOk result (out.new.items ≡ out.old.items ++ groups more n) }
    ensures err { OnErr result (out.new.items ≡ out.old.items) }
{
    let mut buffer = [0u8; 10];
    let mut len = 0;
    let mut left = more;
    let mut high = n;
    while left > 0 && high >= 128 {
        buffer[len] = (high % 128) as u8 + 128;
        high /= 128;
        left -= 1;
        len += 1;
    }
    buffer[len] = high as u8;
    out.extend_from_slice(&buffer[..len + 1])
}

/// As `put_groups`, at once where there are one or two groups, as most numbers have.
#[inline]
#[tactic(auto, using(crate::proofs::VarintLemmas::few_groups))]
fn put_number(out: &mut Vec<u8>, more: u8, n: u64) -> Result<(), AllocError>
    requires some { 2 ≤ more }
    requires few { more < 10 }
    requires fits { n < room more 127 }
    ensures ok { OnOk result (out.new.items ≡ out.old.items ++ groups more n) }
    ensures err { OnErr result (out.new.items ≡ out.old.items) }
{
    if n < 128 {
        out.push(n as u8)?;
        Ok(())
    } else if n < 16384 {
        out.reserve(2)?;
        out.push_reserved((n % 128) as u8 + 128);
        out.push_reserved((n / 128) as u8);
        Ok(())
    } else {
        put_groups(out, more, n)
    }
}

/// Appends the VARINT of `n`. An `Err` leaves `out` as it was.
#[inline]
#[tactic(auto, unfolding(crate::specs::Varint::room))]
pub fn put_varint(out: &mut Vec<u8>, n: i32) -> Result<(), AllocError>
    ensures ok { OnOk result (out.new.items ≡ out.old.items ++ varint.spell n) }
    ensures err { OnErr result (out.new.items ≡ out.old.items) }
{
    put_number(out, MORE_IN_VARINT, folded(i64::from(n)))
}

/// Appends the VARLONG of `n`. An `Err` leaves `out` as it was.
#[inline]
#[tactic(auto, unfolding(crate::specs::Varint::room))]
pub fn put_varlong(out: &mut Vec<u8>, n: i64) -> Result<(), AllocError>
    ensures ok { OnOk result (out.new.items ≡ out.old.items ++ varlong.spell n) }
    ensures err { OnErr result (out.new.items ≡ out.old.items) }
{
    put_number(out, MORE_IN_VARLONG, folded(n))
}

/// How many bytes a number in at most `more + 1` groups takes.
fn groups_len(n: u64, more: u8) -> u64
    requires { more < 10 }
    ensures value { result ≡ length (groups more n) }
    ensures few { result ≤ more + 1 }
{
    let mut len = 1;
    let mut left = more;
    let mut high = n;
    while left > 0 && high >= 128 {
        high /= 128;
        left -= 1;
        len += 1;
    }
    len
}

/// As `groups_len`, at once where there are one or two groups, as most numbers have.
#[inline]
#[tactic(auto, using(crate::proofs::VarintLemmas::few_groups))]
fn number_len(n: u64, more: u8) -> u64
    requires some { 2 ≤ more }
    requires few { more < 10 }
    ensures value { result ≡ length (groups more n) }
    ensures few { result ≤ more + 1 }
{
    if n < 128 {
        1
    } else if n < 16384 {
        2
    } else {
        groups_len(n, more)
    }
}

/// How many bytes the VARINT of `n` takes: 1 to 5.
pub fn varint_len(n: i32) -> u64
    ensures value { result ≡ length (varint.spell n) }
    ensures few { result ≤ 5 }
{
    number_len(folded(i64::from(n)), MORE_IN_VARINT)
}

/// How many bytes the VARLONG of `n` takes: 1 to 10.
pub fn varlong_len(n: i64) -> u64
    ensures value { result ≡ length (varlong.spell n) }
    ensures few { result ≤ 10 }
{
    number_len(folded(n), MORE_IN_VARLONG)
}

fn counted_varint(bytes: &[u8]) -> Result<(i32, usize), WireFault>
    ensures { Took (λ n. n) bytes.now result (varint.read bytes.now) }
{
    let (n, rest) = read_varint(bytes)?;
    Ok((n, bytes.len() - rest.len()))
}

/// The VARINT at the front, and how many bytes it takes.
pub fn take_varint(bytes: &[u8]) -> Result<(i32, usize), WireFault>
    // What is read is spelled so.
    ensures found { IfOk result (λ x. take x.1 bytes.now ≡ varint.spell x.0) }

    // What is spelled so is read.
    ensures only { (n : ℤ) (rest : List ℕ) → varint.Fits n → bytes.now ≡ varint.spell n ++ rest
        → result ≡ Ok (n, length (varint.spell n)) }

    // Which fault it is.
    ensures exact { Took (λ n. n) bytes.now result (varint.read bytes.now) }
{
    counted_varint(bytes)
}

fn counted_varlong(bytes: &[u8]) -> Result<(i64, usize), WireFault>
    ensures { Took (λ n. n) bytes.now result (varlong.read bytes.now) }
{
    let (n, rest) = read_varlong(bytes)?;
    Ok((n, bytes.len() - rest.len()))
}

/// The VARLONG at the front, and how many bytes it takes.
pub fn take_varlong(bytes: &[u8]) -> Result<(i64, usize), WireFault>
    // What is read is spelled so.
    ensures found { IfOk result (λ x. take x.1 bytes.now ≡ varlong.spell x.0) }

    // What is spelled so is read.
    ensures only { (n : ℤ) (rest : List ℕ) → varlong.Fits n → bytes.now ≡ varlong.spell n ++ rest
        → result ≡ Ok (n, length (varlong.spell n)) }

    // Which fault it is.
    ensures exact { Took (λ n. n) bytes.now result (varlong.read bytes.now) }
{
    counted_varlong(bytes)
}
