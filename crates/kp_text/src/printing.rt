//! Numbers, values and lines of text, each put behind what is there.

ghost use Rattle.std.specs.Prelude.{◌≡◌, ◌<◌, ◌≤◌, ◌/◌, ◌++◌, IfOk, OnOk, length, take, slice_index, false};
ghost use Rattle.std.specs.Fmt.{digit_glyph};
ghost use Rattle.kp_text.specs.Lines.{answer_line, batch_line, log_line, newline};
ghost use Rattle.kp_wire.specs.Printed.{escaped, is_plain, printed};

use itoa::{Buffer, Integer};
use std::alloc::AllocError;

// ---- values

/// Whether a byte stands for itself.
fn stands_for_itself(b: u8) -> bool
    ensures { result ≡ is_plain b }
{
    b >= 0x20 && b <= 0x7e && b != b'\\'
}

fn hex_digit(d: u8) -> u8
    requires { d < 16 }
    ensures { result ≡ digit_glyph false d }
{
    if d < 10 { b'0' + d } else { b'a' - 10 + d }
}

fn escape(b: u8) -> [u8; 4]
    ensures { result ≡ escaped b }
{
    [b'\\', b'x', hex_digit(b / 16), hex_digit(b % 16)]
}

/// How many bytes stand for themselves, before the first that doesn't.
fn plain_len(value: &[u8]) -> usize
    ensures within { result ≤ length value.now }
    ensures plain { printed (take result value.now) ≡ take result value.now }
    ensures ends { result < length value.now → is_plain (slice_index value.now result) ≡ false }
{
    for (i, b) in value.iter().enumerate() {
        if !stands_for_itself(*b) {
            return i;
        }
    }
    value.len()
}

/// A run of bytes that stand for themselves and the byte behind it; the result is what is left.
fn put_run<'a>(out: &mut Vec<u8>, value: &'a [u8]) -> Result<&'a [u8], AllocError>
    requires { 0 < length value.now }
    ensures text { IfOk result (λ rest.
        out.new.items ++ printed rest.now ≡ out.old.items ++ printed value.now) }
    ensures shorter { IfOk result (λ rest. length rest.now < length value.now) }
{
    let (plain, behind) = value.split_at(plain_len(value));
    out.extend_from_slice(plain)?;
    let Some((b, rest)) = behind.split_first() else {
        return Ok(behind);
    };
    out.extend_from_slice(&escape(*b))?;
    Ok(rest)
}

/// A value's text.
pub fn put_printed(out: &mut Vec<u8>, value: &[u8]) -> Result<(), AllocError>
    ensures { OnOk result (out.new.items ≡ out.old.items ++ printed value.now) }
{
    let mut rest = value;
    while !rest.is_empty() {
        rest = put_run(out, rest)?;
    }
    Ok(())
}

// ---- numbers

fn put_number<I: Integer>(out: &mut Vec<u8>, n: I) -> Result<(), AllocError>
    ensures { OnOk result (out.new.items ≡ out.old.items ++ I.text n) }
{
    let mut buffer = Buffer::new();
    out.extend_from_slice(buffer.format(n).as_bytes())
}

/// A number behind its name.
pub fn put_named<I: Integer>(out: &mut Vec<u8>, name: &[u8], n: I) -> Result<(), AllocError>
    ensures { OnOk result (out.new.items ≡ out.old.items ++ (name.now ++ I.text n)) }
{
    out.extend_from_slice(name)?;
    put_number(out, n)
}

// ---- lines

/// Ends a line.
pub fn end_line(out: &mut Vec<u8>) -> Result<(), AllocError>
    ensures { OnOk result (out.new.items ≡ out.old.items ++ newline) }
{
    out.extend_from_slice(b"\n")
}

/// A batch's size and how many records it has.
pub fn put_batch_line(out: &mut Vec<u8>, size: u64, count: u64) -> Result<(), AllocError>
    ensures { OnOk result (out.new.items ≡ out.old.items ++ batch_line size count) }
{
    out.extend_from_slice(b"batch ")?;
    put_number(out, size)?;
    out.extend_from_slice(b" records ")?;
    put_number(out, count)?;
    end_line(out)
}

/// A log's answer: Kafka's code, and the first record's offset.
pub fn put_answer_line(out: &mut Vec<u8>, code: i16, base: i64) -> Result<(), AllocError>
    ensures { OnOk result (out.new.items ≡ out.old.items ++ answer_line code base) }
{
    out.extend_from_slice(b"answer ")?;
    put_number(out, code)?;
    out.extend_from_slice(b" ")?;
    put_number(out, base)?;
    end_line(out)
}

/// A value of a partition's log, at its offset.
pub fn put_log_line(
    out: &mut Vec<u8>,
    partition: u32,
    offset: u64,
    value: &[u8],
) -> Result<(), AllocError>
    ensures { OnOk result (out.new.items ≡ out.old.items ++ log_line partition offset value.now) }
{
    out.extend_from_slice(b"log ")?;
    put_number(out, partition)?;
    out.extend_from_slice(b" ")?;
    put_number(out, offset)?;
    out.extend_from_slice(b" ")?;
    put_printed(out, value)?;
    end_line(out)
}
