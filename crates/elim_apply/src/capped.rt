//! Products and powers of numbers, up to the greatest one.

ghost use Rattle.std.specs.Prelude.{◌≡◌, ◌*◌, ◌-◌, ◌^◌, IfSome, min};

/// The greatest number of half as many bits.
const HALF: u128 = u64::MAX as u128;

/// The product, or the greatest number where it passes that. The factors are mostly small.
pub(crate) fn capped_product(a: u128, b: u128) -> u128
    ensures { result ≡ min (a * b) (2 ^ 128 - 1) }
{
    if a <= HALF && b <= HALF {
        return whole_product(a as u64, b as u64);
    }
    a.saturating_mul(b)
}

/// The product, with all its bits.
fn whole_product(a: u64, b: u64) -> u128
    ensures { result ≡ a * b }
{
    a as u128 * b as u128
}

/// The power, or the greatest number where it passes that. The exponent is mostly 0 or 1.
pub(crate) fn capped_power(base: u128, exponent: u32) -> u128
    ensures { result ≡ min (base ^ exponent) (2 ^ 128 - 1) }
{
    match exponent {
        0 => 1,
        1 => base,
        _ => match small_power(base, exponent) {
            Some(power) => power as u128,
            None => base.saturating_pow(exponent),
        },
    }
}

/// The power, where it is small.
fn small_power(base: u128, exponent: u32) -> Option<u64>
    ensures { IfSome result (λ power. power ≡ base ^ exponent) }
{
    small(base)?.checked_pow(exponent)
}

/// A number times a power, where all are small.
pub(crate) fn times_power(a: u64, base: u128, exponent: u32) -> Option<u64>
    ensures { IfSome result (λ n. n ≡ a * base ^ exponent) }
{
    let base = small(base)?;
    match exponent {
        1 => a.checked_mul(base),
        2 => a.checked_mul(base)?.checked_mul(base),
        _ => a.checked_mul(base.checked_pow(exponent)?),
    }
}

/// The number in half as many bits, where it fits.
pub(crate) fn small(n: u128) -> Option<u64>
    ensures { IfSome result (λ s. s ≡ n) }
{
    if n <= HALF { Some(n as u64) } else { None }
}
