//! What becomes of the monomials of a line, where all of its numbers are small, as they mostly are.

ghost use Rattle.std.specs.Prelude.{◌≡◌, IfSome, List, None, Some};
ghost use Rattle.elim_apply.specs.Inner.KeptShares.{joined, known_row};
ghost use Rattle.elim_apply.specs.Inner.Shares.{IsShareOf, no_power, with_power, with_powers};
ghost use Rattle.elim_apply.specs.Inner.Sketches.{AreKnown, sketched};
ghost use Rattle.geo_poly.specs.declared.rows.Row.{Row};
ghost use Rattle.geo_poly.specs.Monomials.{Powers};
ghost use Rattle.geo_poly.specs.Shared.{IsIndexOf, told_powers};

use crate::capped::{small, times_power};
use crate::numbered::NumberedRow;
use crate::share::Share;
use geo_poly::Shared;
use mono_store::MonoId;

/// What becomes of the first powers of a monomial.
#[derive(Clone, Copy)]
pub(crate) struct SmallShare {
    /// The sum of the exponents of the replaced variables.
    pub exponents: u32,
    /// The denominators that they call for.
    pub denominators: u32,
    /// The product of the counts of their numerators.
    pub count: u64,
    /// The product of the weights of their numerators.
    pub weight: u64,
    /// The degree of the other variables, and the degrees of their numerators.
    pub degree: u64,
}

impl SmallShare {
    /// That of no power.
    pub(crate) fn of_one() -> SmallShare
        ensures { result ≡ no_power }
    {
        SmallShare {
            exponents: 0,
            denominators: 0,
            count: 1,
            weight: 1,
            degree: 0,
        }
    }

    /// With one more variable that is replaced, to the power `e`, which mostly is 1.
    fn replacing(self, row: &NumberedRow, e: u32) -> Option<SmallShare>
        ensures { IfSome result (λ after. after ≡ with_power (Some (sketched row.now)) e self) }
    {
        if e == 1 {
            return self.replacing_once(row);
        }
        let numbers = &row.numbers;
        Some(SmallShare {
            exponents: self.exponents.checked_add(e)?,
            denominators: self
                .denominators
                .checked_add(numbers.power.checked_mul(e)?)?,
            count: times_power(self.count, numbers.ka, e)?,
            weight: times_power(self.weight, numbers.wa, e)?,
            degree: self
                .degree
                .checked_add(small(numbers.ga)?.checked_mul(e as u64)?)?,
        })
    }

    /// With one more variable that is replaced.
    fn replacing_once(self, row: &NumberedRow) -> Option<SmallShare>
        ensures { IfSome result (λ after. after ≡ with_power (Some (sketched row.now)) 1 self) }
    {
        let numbers = &row.numbers;
        Some(SmallShare {
            exponents: self.exponents.checked_add(1)?,
            denominators: self.denominators.checked_add(numbers.power)?,
            count: self.count.checked_mul(small(numbers.ka)?)?,
            weight: self.weight.checked_mul(small(numbers.wa)?)?,
            degree: self.degree.checked_add(small(numbers.ga)?)?,
        })
    }

    /// With one more variable that stays, to the power `e`.
    fn keeping(self, e: u32) -> Option<SmallShare>
        ensures { IfSome result (λ after. after ≡ with_power None e self) }
    {
        let degree = self.degree.checked_add(e as u64)?;
        Some(SmallShare { degree, ..self })
    }

    /// With the powers of another.
    pub(crate) fn joined(&self, other: &SmallShare) -> Option<SmallShare>
        ensures { IfSome result (λ after. after ≡ joined self.now other.now) }
    {
        Some(SmallShare {
            exponents: self.exponents.checked_add(other.exponents)?,
            denominators: self.denominators.checked_add(other.denominators)?,
            count: self.count.checked_mul(other.count)?,
            weight: self.weight.checked_mul(other.weight)?,
            degree: self.degree.checked_add(other.degree)?,
        })
    }

    /// The same in wide numbers.
    pub(crate) fn widened(self) -> Share
        ensures { (rows : List Row) (m : Powers) → self ≡ with_powers rows m no_power
            → IsShareOf rows m 1 result }
    {
        Share {
            exponents: self.exponents,
            denominators: self.denominators,
            count: self.count as u128,
            weight: self.weight as u128,
            degree: self.degree as u128,
        }
    }
}

/// The share of the monomial at an index, where it is small.
pub(crate) fn small_share_of(p: &Shared, known: &[Option<NumberedRow>], id: MonoId) -> Option<Share>
    requires { IsIndexOf p.now id }
    ensures { (rows : List Row) → AreKnown rows p.now.vars.now known.now
        → IfSome result (IsShareOf rows (told_powers p.now id) 1) }
{
    let mut share = SmallShare::of_one();
    let mut rest = id;
    while let Some(first) = p.first_power(rest) {
        share = share_with(share, known, first.number, first.exponent)?;
        rest = first.rest;
    }
    Some(share.widened())
}

/// The share with one more power.
pub(crate) fn share_with(
    share: SmallShare,
    known: &[Option<NumberedRow>],
    number: u64,
    exponent: u32,
) -> Option<SmallShare>
    ensures { IfSome result
        (λ after. after ≡ with_power (known_row known.now number) exponent share) }
{
    let Some(entry) = known.get(number as usize) else {
        return share.keeping(exponent);
    };
    match entry {
        Some(row) => share.replacing(row, exponent),
        None => share.keeping(exponent),
    }
}
