//! Sums and products of fractions.

ghost use Rattle.std.specs.Prelude.{◌≡◌, ◌≢◌, ◌↔◌, ◌<◌, ◌≤◌, ◌^◌, ◌/◌, pos, ◌*ℤ◌, ◌+ℤ◌};
ghost use Rattle.std.specs.Prelude.{unsigned_abs, ◌⊎◌, IfOk, IsErr, IsTrue};
ghost use Rattle.std.specs.Int.{◌∣◌};
ghost use Rattle.ring_laws.specs.Fraction.{plus, times};
ghost use Rattle.frac_laws.specs.Lowest.{IsPast, signed_by};
ghost use Rattle.frac_laws.specs.Numbers.{AreSomePast, IsNumber, IsProductTooLarge, IsSameNumber};
ghost use Rattle.frac_laws.specs.Numbers.{IsSumTooLarge, fraction_of};

use crate::divisors::common_divisor;
use crate::frac::{Frac, FracTooLarge};

impl Frac {
    /// The number `num / den` in lowest terms.
    pub fn new(num: i128, den: i128) -> Frac
        requires num { unsigned_abs num < 2 ^ 127 }
        requires den { unsigned_abs den < 2 ^ 127 }
        requires nonzero { den ≢ pos 0 }
        ensures { result.num *ℤ den ≡ num *ℤ result.den }
    {
        reduced(
            (num < 0) != (den < 0),
            num.unsigned_abs(),
            den.unsigned_abs(),
        )
    }

    /// The sum. Over the least common denominator: it is refused where one of the two numerators
    /// over it, their sum, or that denominator is too large.
    pub fn add(&self, other: &Frac) -> Result<Frac, FracTooLarge>
        ensures sum { IfOk result
            (λ r. IsNumber r (plus (fraction_of self.now) (fraction_of other.now))) }
        ensures too_large { IsErr result ↔ IsSumTooLarge self.now other.now }
    {
        let (b, d) = (self.den.unsigned_abs(), other.den.unsigned_abs());
        let common = common_divisor(b, d);
        over_common(
            self.num,
            other.num,
            self.den,
            quotient(d, common),
            quotient(b, common),
        )
    }

    /// The product. It is refused where its numerator or denominator in lowest terms is too large.
    pub fn mul(&self, other: &Frac) -> Result<Frac, FracTooLarge>
        ensures product { IfOk result
            (λ r. IsNumber r (times (fraction_of self.now) (fraction_of other.now))) }
        ensures too_large { IsErr result ↔ IsProductTooLarge self.now other.now }
    {
        let first = Frac::new(self.num, other.den);
        let second = Frac::new(other.num, self.den);
        over(&first, &second)
    }

    /// Whether both are the same number.
    pub fn same(&self, other: &Frac) -> bool
        ensures { IsTrue result ↔ IsSameNumber self.now other.now }
    {
        self.num == other.num && self.den == other.den
    }
}

/// The number n / d with a sign, in lowest terms.
fn reduced(negative: bool, n: u128, d: u128) -> Frac
    requires n { n < 2 ^ 127 }
    requires d { d < 2 ^ 127 }
    requires nonzero { 1 ≤ d }
    ensures { result.num *ℤ pos d ≡ signed_by negative n *ℤ result.den }
{
    let common = common_divisor(n, d);
    Frac {
        num: signed(negative, n / common),
        den: quotient(d, common),
    }
}

/// The number with a sign.
fn signed(negative: bool, n: u128) -> i128
    requires { n < 2 ^ 127 }
    ensures signed { result ≡ signed_by negative n }
    ensures size { unsigned_abs result ≡ n }
{
    if negative { -(n as i128) } else { n as i128 }
}

/// The quotient of two numbers of which the second divides the first.
fn quotient(e: u128, g: u128) -> i128
    requires e { 1 ≤ e }
    requires fits { e < 2 ^ 127 }
    requires divides { g ∣ e }
    ensures quotient { result ≡ pos (e / g) }
    ensures size { unsigned_abs result ≡ e / g }
    ensures nonzero { 1 ≤ unsigned_abs result }
    ensures fits { unsigned_abs result < 2 ^ 127 }
{
    (e / g) as i128
}

/// The sum `(a left + c right) / (b left)`, in lowest terms.
fn over_common(a: i128, c: i128, b: i128, left: i128, right: i128) -> Result<Frac, FracTooLarge>
    requires b { 1 ≤ unsigned_abs b }
    requires left { 1 ≤ unsigned_abs left }
    ensures sum { IfOk result (λ r. r.num *ℤ (b *ℤ left) ≡ (a *ℤ left +ℤ c *ℤ right) *ℤ r.den) }
    ensures fits { IfOk result (λ r. AreSomePast (a *ℤ left) (c *ℤ right) (b *ℤ left) → ⊥) }
    ensures past { IsErr result → AreSomePast (a *ℤ left) (c *ℤ right) (b *ℤ left) }
{
    let first = product(a, left)?;
    let second = product(c, right)?;
    let num = sum(first, second)?;
    let den = product(b, left)?;
    Ok(Frac::new(num, den))
}

/// The product of two fractions.
fn over(first: &Frac, second: &Frac) -> Result<Frac, FracTooLarge>
    ensures product { IfOk result (λ r.
        r.num *ℤ (first.now.den *ℤ second.now.den) ≡ first.now.num *ℤ second.now.num *ℤ r.den) }
    ensures fits { IfOk result (λ r.
        IsPast (first.now.num *ℤ second.now.num) ⊎ IsPast (first.now.den *ℤ second.now.den) → ⊥) }
    ensures past { IsErr result →
        IsPast (first.now.num *ℤ second.now.num) ⊎ IsPast (first.now.den *ℤ second.now.den) }
{
    let num = product(first.num, second.num)?;
    let den = product(first.den, second.den)?;
    Ok(Frac::new(num, den))
}

/// The product of two numbers.
fn product(a: i128, b: i128) -> Result<i128, FracTooLarge>
    ensures product { IfOk result (λ n. n ≡ a *ℤ b) }
    ensures fits { IfOk result (λ n. unsigned_abs (a *ℤ b) < 2 ^ 127) }
    ensures nonzero { IfOk result (λ n. 1 ≤ unsigned_abs a → 1 ≤ unsigned_abs b → n ≢ pos 0) }
    ensures past { IsErr result → IsPast (a *ℤ b) }
{
    match a.checked_mul(b) {
        Some(n) if n != i128::MIN => Ok(n),
        _ => Err(FracTooLarge),
    }
}

/// The sum of two numbers.
fn sum(a: i128, b: i128) -> Result<i128, FracTooLarge>
    ensures sum { IfOk result (λ n. n ≡ a +ℤ b) }
    ensures fits { IfOk result (λ n. unsigned_abs (a +ℤ b) < 2 ^ 127) }
    ensures past { IsErr result → IsPast (a +ℤ b) }
{
    match a.checked_add(b) {
        Some(n) if n != i128::MIN => Ok(n),
        _ => Err(FracTooLarge),
    }
}
