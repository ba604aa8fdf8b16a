//! The line of values that stands before a program.
ghost use Rattle.std.specs.Prelude.{◌≡◌, ◌≤◌, ◌↔◌, ◌++◌, IfOk, IfSome, IsNone, IsTrue, length};
ghost use Rattle.std.specs.Fmt.{signed_decimal};
ghost use Rattle.std.specs.List.{prefix_len};
ghost use Rattle.geo_cli.specs.Values.{HasNoValuesLine, HasValuesLine};
ghost use Rattle.proof_log.specs.Inner.Reading.{Begins, NoneBegins, Passes, StopsAt, integers};
ghost use Rattle.proof_log.specs.Inner.Reading.{is_number_byte};

use geo_base::read_decimal;
use geo_place::Ints;
use geo_points::NoMemory;
use itoa::Buffer;
use std::alloc::Global;

/// The values of the first line, and the bytes behind it; or `None` where the bytes do not begin
/// with such a line.
pub fn split_values(alloc: Global, bytes: &[u8]) -> Result<Option<(Ints, &[u8])>, NoMemory>
    ensures some { IfOk result (λ o. IfSome o (λ r. HasValuesLine bytes.now r.0 r.1.now)) }
    ensures none { IfOk result (λ o. IsNone o → HasNoValuesLine bytes.now) }
{
    let mut items = Vec::new(alloc);
    let Some(mut rest) = bytes.strip_prefix(b"at") else {
        return Ok(None);
    };
    while let Some(text) = rest.strip_prefix(b" ") {
        let Some((number, behind)) = next_number(text) else {
            return Ok(None);
        };
        items.push(number)?;
        rest = behind;
    }
    match rest.strip_prefix(b"\n") {
        Some(program) => Ok(Some((Ints { items }, program))),
        None => Ok(None),
    }
}

/// The whole number that stands next, in its one spelling, and the bytes behind it.
fn next_number(bytes: &[u8]) -> Option<(i128, &[u8])>
    ensures some { IfSome result (λ r. Begins integers bytes.now r.0 r.1.now) }
    ensures none { IsNone result → NoneBegins integers bytes.now }
{
    let (run, rest) = split_run(bytes);
    let number = read_decimal(run).ok()?;
    if is_canonical(&number, run) {
        Some((number, rest))
    } else {
        None
    }
}

/// The digits and `-` that stand next, as many as there are, and the bytes behind them.
fn split_run(bytes: &[u8]) -> (&[u8], &[u8])
    ensures split { bytes.now ≡ result.0.now ++ result.1.now }
    ensures all { Passes is_number_byte result.0.now }
    ensures stops { StopsAt is_number_byte result.1.now }
{
    let count = run_length(bytes);
    bytes.split_at(count)
}

/// How many digits and `-` stand at the beginning.
fn run_length(bytes: &[u8]) -> usize
    ensures run { result ≡ prefix_len is_number_byte bytes.now }
    ensures within { result ≤ length bytes.now }
{
    bytes
        .iter()
        .take_while(|byte| is_number_byte(**byte))
        .count()
}

/// Whether a byte is a digit or `-`.
fn is_number_byte(byte: u8) -> bool
    ensures { result ≡ is_number_byte byte }
{
    byte == b'-' || byte.is_ascii_digit()
}

/// Whether the bytes are the decimal text of the number.
fn is_canonical(number: &i128, bytes: &[u8]) -> bool
    ensures { IsTrue result ↔ (signed_decimal number.now ≡ bytes.now) }
{
    Buffer::new().format(*number).as_bytes() == bytes
}
