//! The opposite and the inverse of a fraction.

ghost use Rattle.std.specs.Prelude.{◌≡◌, ◌<◌, ◌^◌, neg_ℤ, pos, unsigned_abs};
ghost use Rattle.ring_laws.specs.Fraction.{negated, quotient, whole};
ghost use Rattle.frac_laws.specs.Numbers.{IsNumber, fraction_of};

use crate::frac::Frac;

impl Frac {
    /// The opposite number.
    pub fn opposite(&self) -> Frac
        ensures { IsNumber result (negated (fraction_of self.now)) }
    {
        Frac::new(opposite_of(self.num), self.den)
    }

    /// The inverse, and 0 for 0.
    pub fn inverse(&self) -> Frac
        ensures { IsNumber result (quotient (whole (pos 1)) (fraction_of self.now)) }
    {
        if self.num == 0 {
            Frac::new(0, 1)
        } else {
            Frac::new(self.den, self.num)
        }
    }
}

/// The opposite whole number.
fn opposite_of(n: i128) -> i128
    requires { unsigned_abs n < 2 ^ 127 }
    ensures opposite { result ≡ neg_ℤ n }
    ensures size { unsigned_abs result < 2 ^ 127 }
{
    -n
}
