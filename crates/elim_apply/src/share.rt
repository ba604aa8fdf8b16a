//! What becomes of a monomial. A number past the greatest of its type is given as that.

ghost use Rattle.std.specs.Prelude.{◌≡◌, ◌+◌, ◌-◌, ◌*◌, ◌^◌, ◌≤◌, [], List, min};
ghost use Rattle.elim_apply.specs.Inner.Shares.{IsShareOf};
ghost use Rattle.geo_poly.specs.declared.rows.Row.{Row};
ghost use Rattle.geo_poly.specs.Monomials.{Powers};

use crate::capped::{capped_power, capped_product};
use fraction_poly::RowNumbers;

/// What becomes of a monomial, but for the denominators that it lacks.
#[derive(Clone, Copy)]
pub(crate) struct Share {
    /// The sum of the exponents of its replaced variables.
    pub exponents: u32,
    /// The denominators that they call for.
    pub denominators: u32,
    /// The product of the counts of their numerators.
    pub count: u128,
    /// The product of the weights of their numerators, and of the coefficient.
    pub weight: u128,
    /// The degree of the other variables, and the degrees of their numerators.
    pub degree: u128,
}

impl Share {
    /// That of the monomial with no variable.
    pub(crate) fn of_one() -> Share
        ensures { (rows : List Row) → IsShareOf rows [] 1 result }
    {
        Share {
            exponents: 0,
            denominators: 0,
            count: 1,
            weight: 1,
            degree: 0,
        }
    }

    /// With one more variable that is replaced, to the power `e`.
    pub(crate) fn replacing(self, numbers: &RowNumbers, e: u32) -> Share
        ensures exponents { result.exponents ≡ min (self.exponents + e) (2 ^ 32 - 1) }
        ensures denominators { result.denominators ≡ min (self.denominators
            + min (numbers.now.power * e) (2 ^ 32 - 1)) (2 ^ 32 - 1) }
        ensures count { result.count
            ≡ min (self.count * min (numbers.now.ka ^ e) (2 ^ 128 - 1)) (2 ^ 128 - 1) }
        ensures weight { result.weight
            ≡ min (self.weight * min (numbers.now.wa ^ e) (2 ^ 128 - 1)) (2 ^ 128 - 1) }
        ensures degree { result.degree
            ≡ min (self.degree + min (numbers.now.ga * e) (2 ^ 128 - 1)) (2 ^ 128 - 1) }
    {
        Share {
            exponents: self.exponents.saturating_add(e),
            denominators: self
                .denominators
                .saturating_add(numbers.power.saturating_mul(e)),
            count: capped_product(self.count, capped_power(numbers.ka, e)),
            weight: capped_product(self.weight, capped_power(numbers.wa, e)),
            degree: self
                .degree
                .saturating_add(numbers.ga.saturating_mul(e as u128)),
        }
    }

    /// With one more variable that stays, to the power `e`.
    pub(crate) fn keeping(self, e: u32) -> Share
        ensures exponents { result.exponents ≡ self.exponents }
        ensures denominators { result.denominators ≡ self.denominators }
        ensures count { result.count ≡ self.count }
        ensures weight { result.weight ≡ self.weight }
        ensures degree { result.degree ≡ min (self.degree + e) (2 ^ 128 - 1) }
    {
        Share {
            degree: self.degree.saturating_add(e as u128),
            ..self
        }
    }

    /// With a coefficient of this absolute value.
    pub(crate) fn times(self, coefficient: u128) -> Share
        ensures { (rows : List Row) (m : Powers) → IsShareOf rows m 1 self
            → IsShareOf rows m coefficient result }
    {
        Share {
            weight: capped_product(self.weight, coefficient),
            ..self
        }
    }

    /// The charge of the term, where the denominator has so many monomials and is wanted `top`
    /// times.
    pub(crate) fn charge(self, count: u128, top: u32) -> u128
        requires { self.denominators ≤ top }
        ensures { let lacking = top - self.denominators in
            result ≡ min ((self.exponents + lacking + 1) * (self.count * count ^ lacking))
            (2 ^ 128 - 1) }
    {
        let lacking = top - self.denominators;
        let factors = self.exponents as u128 + lacking as u128 + 1;
        let products = capped_product(self.count, capped_power(count, lacking));
        capped_product(factors, products)
    }

    /// The weight of the term over a denominator of this weight, which is wanted `top` times.
    pub(crate) fn weight_over(self, weight: u128, top: u32) -> u128
        requires { self.denominators ≤ top }
        ensures { result ≡ min (self.weight * weight ^ (top - self.denominators)) (2 ^ 128 - 1) }
    {
        let lacking = top - self.denominators;
        capped_product(self.weight, capped_power(weight, lacking))
    }

    /// The degree of the term over a denominator of this degree, which is wanted `top` times.
    pub(crate) fn degree_over(self, degree: u128, top: u32) -> u128
        requires { self.denominators ≤ top }
        ensures { result ≡ min (self.degree + degree * (top - self.denominators)) (2 ^ 128 - 1) }
    {
        let lacking = top - self.denominators;
        self.degree
            .saturating_add(degree.saturating_mul(lacking as u128))
    }
}
