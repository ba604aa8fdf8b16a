//! Fractions in lowest terms.

ghost use Rattle.std.specs.Prelude.{◌≡◌, ◌<◌, ◌≤◌, ◌^◌, pos, unsigned_abs};
ghost use Rattle.frac_laws.specs.Lowest.{IsLowest};

/// A fraction in lowest terms: the denominator is at least 1, and no number but 1 divides both.
#[derive(Clone, Copy, Debug, PartialEq, Eq)]
pub struct Frac {
    /// The numerator, which carries the sign.
    pub num: i128,
    /// The denominator.
    pub den: i128,
    ghost fits: { unsigned_abs num < 2 ^ 127 },
    ghost positive: { den ≡ pos (unsigned_abs den) },
    ghost nonzero: { 1 ≤ unsigned_abs den },
    ghost lowest: { IsLowest num (unsigned_abs den) },
}

/// A number that the sum or the product needs passes `2^127 - 1` in absolute value.
#[derive(Clone, Copy, Debug, PartialEq, Eq)]
pub struct FracTooLarge;
