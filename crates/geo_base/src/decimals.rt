//! Numbers as decimal text.
ghost use Rattle.std.specs.Prelude.{◌≡◌, ◌++◌, ◌<◌, ◌≤◌, ◌^◌, ◌↔◌, IfOk, OnOk, OnErr, IsErrOf};
ghost use Rattle.std.specs.Prelude.{SomeIff, length, pos};
ghost use Rattle.std.specs.Bool.{MatchBool};
ghost use Rattle.std.specs.Char.{is_ascii_digit};
ghost use Rattle.std.specs.Fmt.{decimal, signed_decimal};
ghost use Rattle.std.specs.List.{list_all};
ghost use Rattle.std.specs.Str.Parse.{AllDigits, IsNumeral, digits_value};
ghost use Rattle.geo_base.specs.Decimals.{IsDecimal, decimal_size, decimal_value};

use crate::no_memory::NoMemory;
use itoa::Buffer;
use std::alloc::Global;

/// Why a text is no number.
#[derive(Clone, Copy, Debug, PartialEq, Eq)]
pub enum DecimalError {
    /// The text is not an optional `-` and one or more digits.
    NotDecimal,
    /// The number's absolute value is past `2^127 - 1`.
    Wide,
}

/// Appends the decimal text of `n`: no leading zeros, and a `-` where it is negative.
pub fn push_decimal(_alloc: Global, out: &mut Vec<u8>, n: i128) -> Result<(), NoMemory>
    ensures ok { OnOk result (out.new.items ≡ out.old.items ++ signed_decimal n) }
    ensures err { OnErr result (out.new.items ≡ out.old.items) }
{
    if 0 <= n && n < 10 {
        return push_digit(out, n as u8);
    }
    if i64::MIN as i128 <= n && n <= i64::MAX as i128 {
        return push_short(out, n as i64);
    }
    out.extend_from_slice(Buffer::new().format(n).as_bytes())?;
    Ok(())
}

// Appends the one digit of `n`.
fn push_digit(out: &mut Vec<u8>, n: u8) -> Result<(), NoMemory>
    requires { n < 10 }
    ensures ok { OnOk result (out.new.items ≡ out.old.items ++ decimal n) }
    ensures err { OnErr result (out.new.items ≡ out.old.items) }
{
    out.push(b'0' + n)?;
    Ok(())
}

// The same as `push_decimal`, for a number of 64 bits, whose digits take less work to find.
fn push_short(out: &mut Vec<u8>, n: i64) -> Result<(), NoMemory>
    ensures ok { OnOk result (out.new.items ≡ out.old.items ++ signed_decimal n) }
    ensures err { OnErr result (out.new.items ≡ out.old.items) }
{
    out.extend_from_slice(Buffer::new().format(n).as_bytes())?;
    Ok(())
}

/// The number that a decimal text writes. Leading zeros and `-0` are read like any other digits.
pub fn read_decimal(bytes: &[u8]) -> Result<i128, DecimalError>
    ensures value { IfOk result (λ z. z ≡ decimal_value bytes.now) }
    ensures decimal { OnOk result (IsDecimal bytes.now) }
    ensures fits { OnOk result (decimal_size bytes.now < 2 ^ 127) }
    ensures read { IsDecimal bytes.now → decimal_size bytes.now < 2 ^ 127
        → result ≡ Ok (decimal_value bytes.now) }
    ensures not_decimal { IsErrOf result DecimalError.NotDecimal ↔ (¬ (IsDecimal bytes.now)) }
    ensures wide { IsErrOf result DecimalError.Wide
        ↔ (IsDecimal bytes.now × (2 ^ 127 ≤ decimal_size bytes.now)) }
{
    match bytes {
        [b'-', digits @ ..] => Ok(-read_digits(digits)?),
        digits => read_digits(digits),
    }
}

// The number that digits write.
fn read_digits(digits: &[u8]) -> Result<i128, DecimalError>
    ensures value { IfOk result (λ z. z ≡ pos (digits_value 10 digits.now)) }
    ensures decimal { OnOk result (IsNumeral 10 digits.now) }
    ensures fits { OnOk result (digits_value 10 digits.now < 2 ^ 127) }
    ensures not_decimal { IsErrOf result DecimalError.NotDecimal → ¬ (IsNumeral 10 digits.now) }
    ensures wide { IsErrOf result DecimalError.Wide
        → (IsNumeral 10 digits.now × (2 ^ 127 ≤ digits_value 10 digits.now)) }
{
    if !is_numeral(digits) {
        return Err(DecimalError::NotDecimal);
    }
    if digits.len() <= FEW {
        return Ok(size_of_few(digits) as i128);
    }
    match size_of_digits(digits) {
        Some(size) => Ok(size as i128),
        None => Err(DecimalError::Wide),
    }
}

// Whether there is a digit, and nothing else.
fn is_numeral(bytes: &[u8]) -> bool
    ensures { MatchBool result (IsNumeral 10 bytes.now) (¬ (IsNumeral 10 bytes.now)) }
{
    !bytes.is_empty() && are_digits(bytes)
}

// Whether there is nothing but digits.
fn are_digits(bytes: &[u8]) -> bool
    ensures { result ≡ list_all is_ascii_digit bytes.now }
{
    bytes.iter().all(|byte| byte.is_ascii_digit())
}

// So many digits always fit 64 bits.
const FEW: usize = 19;

// The number that few digits write.
fn size_of_few(digits: &[u8]) -> u64
    requires digits { AllDigits 10 digits.now }
    requires few { length digits.now ≤ 19 }
    ensures value { result ≡ digits_value 10 digits.now }
    ensures fits { result < 2 ^ 64 }
{
    let mut size = 0u64;
    for byte in digits {
        size = size * 10 + (*byte - b'0') as u64;
    }
    size
}

// The greatest absolute value that is read.
const MAX: u128 = i128::MAX as u128;

// The number that digits write, where it is at most `MAX`.
fn size_of_digits(digits: &[u8]) -> Option<u128>
    requires { AllDigits 10 digits.now }
    ensures { SomeIff result (digits_value 10 digits.now < 2 ^ 127) (digits_value 10 digits.now) }
{
    let mut size: u128 = 0;
    for byte in digits {
        let digit = (*byte - b'0') as u128;
        if size > (MAX - digit) / 10 {
            return None;
        }
        size = size * 10 + digit;
    }
    Some(size)
}
