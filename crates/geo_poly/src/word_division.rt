//! Division of monomials that are words by a power of a variable.

ghost use Rattle.std.specs.Prelude.{◌≡◌, ◌≢◌, ◌+◌, ◌%◌, ◌^◌, ◌<◌, ◌≤◌, IfOk, IfSome, unsigned_abs};
ghost use Rattle.sparse_lists.specs.SparseLists.{AllKeys};
ghost use Rattle.mono_store.specs.Words.{count_from};
ghost use Rattle.geo_poly.specs.Inner.WordDivisors.{IsWordDivisor, divisor_powers};
ghost use Rattle.geo_poly.specs.Monomials.{IsMonomial};
ghost use Rattle.geo_poly.specs.Polynomials.{multiples};
ghost use Rattle.geo_poly.specs.Shared.{AreParts, IsIndexOf, terms_of, told};

use crate::exact_quotients::exact_quotient;
use crate::polynomial_variables::unit_below;
use crate::shared::{Indexed, Shared};
use crate::variable_places::find_place;
use crate::variables::Var;
use geo_points::NoMemory;
use mono_store::{Digits, MonoId};
use std::alloc::Global;

/// A power that words are divided by.
#[derive(Clone, Copy)]
pub(crate) struct WordDivisor {
    /// The number of the variable.
    pub number: u64,
    /// The exponent.
    pub exponent: u32,
    /// The word of the power.
    pub amount: u64,
    /// What 1 counts in the digit before.
    pub above: u64,
}

impl WordDivisor {
    /// The word of what times the power is the monomial of this word, where its digit holds as
    /// much.
    fn quotient(self, word: u64) -> Option<u64>
        requires amount { self.amount < self.above }
        requires above { self.above ≤ 2 ^ 63 }
        ensures sum { IfSome result (λ rest. rest + self.amount ≡ word) }
        ensures fits { IfSome result (λ rest. self.amount + rest % self.above < self.above) }
    {
        if word < self.amount {
            return None;
        }
        let rest = word - self.amount;
        if self.amount + rest % self.above < self.above {
            return Some(rest);
        }
        None
    }
}

/// The divisor of these powers, where there is one of a variable that has a digit, and the
/// monomials are words.
pub(crate) fn word_divisor(p: &Shared, powers: &[(Var, u32)]) -> Option<WordDivisor>
    requires { AreParts p.now }
    ensures divisor { IfSome result (IsWordDivisor p.now) }
    ensures powers { IfSome result (λ d. powers.now ≡ divisor_powers p.now d) }
{
    let digits = p.monos.digits();
    let _words = digits.words();
    if p.monos.links() > 0 || digits.count() > p.vars.len() || powers.len() != 1 {
        return None;
    }
    let (v, exponent) = powers[0];
    let number = find_place(p.vars, v, 0)?;
    if number >= digits.count() as u64 || !digits.has_room(number, exponent) {
        return None;
    }
    Some(WordDivisor {
        number,
        exponent,
        amount: digits.power(number, exponent),
        above: count_above(digits, number),
    })
}

/// What 1 counts in the digit before that of the variable.
fn count_above(digits: &Digits, number: u64) -> u64
    ensures { result ≡ count_from digits.now number }
{
    let mut above = digits.words();
    for place in 0..number {
        above = unit_below(digits, place, above);
    }
    above
}

/// The list that gives the terms when each is multiplied by the power and the number, where each
/// index has such a one.
pub(crate) fn word_quotients(
    alloc: Global,
    p: &Shared,
    by: WordDivisor,
    number: i128,
) -> Result<Option<Vec<Indexed>>, NoMemory>
    requires nonzero { unsigned_abs number ≢ 0 }
    requires parts { AreParts p.now }
    requires divisor { IsWordDivisor p.now by }
    ensures some { IfOk result (λ o. IfSome o (λ list. multiples (divisor_powers p.now by, number)
        (terms_of p.now.vars.now p.now.monos.now list.items) ≡ told p.now)) }
    ensures indices { IfOk result
        (λ o. IfSome o (λ list. AllKeys (IsIndexOf p.now) list.items)) }
    ensures monomials { IfOk result (λ o. IfSome o (λ list.
        AllKeys IsMonomial (terms_of p.now.vars.now p.now.monos.now list.items))) }
{
    let mut list = Vec::with_capacity(alloc, p.list.len())?;
    for (id, coefficient) in p.list {
        let Some(rest) = by.quotient(id.0) else {
            return Ok(None);
        };
        match exact_quotient(*coefficient, number) {
            Some(quotient) => list.push((MonoId(rest), quotient))?,
            None => return Ok(None),
        }
    }
    Ok(Some(list))
}
