//! New stores, whose words have room for what is to stand in them. Nothing rests on their limits but
//! time.

ghost use Rattle.std.specs.List.Sorted.{IsStrictlySortedBy};
ghost use Rattle.geo_poly.specs.Shared.{AreParts};
ghost use Rattle.geo_poly.specs.Variables.{var_cmp};

use crate::exponent_limits::{numbered_exponents, raise};
use crate::shared::Shared;
use crate::terms::Term;
use crate::variable_places::guessed_place;
use crate::variables::{Var, Vars};
use geo_points::NoMemory;
use mono_store::{Digits, MOST_WORDS, Monos};
use std::alloc::Global;

/// A store for the monomials of a polynomial, in these variables.
pub(crate) fn store_for(alloc: Global, vars: &Vars, p: &Shared) -> Result<Monos, NoMemory>
    requires rising { IsStrictlySortedBy var_cmp vars.now }
    requires parts { AreParts p.now }
{
    let mut limits = zeros(alloc, vars)?;
    raise_limits(alloc, &mut limits, vars.as_slice(), p)?;
    roomy_store(alloc, &limits)
}

/// A store for the monomials of both polynomials, in these variables.
pub(crate) fn store_for_both(
    alloc: Global,
    vars: &Vars,
    p: &Shared,
    q: &Shared,
) -> Result<Monos, NoMemory>
    requires rising { IsStrictlySortedBy var_cmp vars.now }
    requires left { AreParts p.now }
    requires right { AreParts q.now }
{
    let mut limits = zeros(alloc, vars)?;
    raise_limits(alloc, &mut limits, vars.as_slice(), p)?;
    raise_limits(alloc, &mut limits, vars.as_slice(), q)?;
    roomy_store(alloc, &limits)
}

/// A store for the monomials of these terms, in these variables.
pub(crate) fn store_for_terms(alloc: Global, vars: &Vars, terms: &[Term]) -> Result<Monos, NoMemory>
    requires { IsStrictlySortedBy var_cmp vars.now }
{
    let mut limits = zeros(alloc, vars)?;
    for (monomial, _) in terms {
        raise_powers(&mut limits, vars.as_slice(), monomial.powers());
    }
    roomy_store(alloc, &limits)
}

/// A store of words within these limits, or only of those of the last variables where there are too
/// many words.
pub(crate) fn roomy_store(alloc: Global, limits: &[u32]) -> Result<Monos, NoMemory> {
    let words = match Digits::new(alloc, limits)? {
        Some(words) => words,
        None => last_digits(alloc, limits)?,
    };
    Ok(Monos::of_words(alloc, words))
}

/// Digits for the last variables, as many as have room.
fn last_digits(alloc: Global, limits: &[u32]) -> Result<Digits, NoMemory> {
    let mut kept = Vec::from_slice(alloc, limits)?;
    keep_last(&mut kept);
    match Digits::new(alloc, &kept)? {
        Some(words) => Ok(words),
        None => Ok(Digits::none(alloc)),
    }
}

/// Makes the limits before the last ones 0, so that there are not too many words.
fn keep_last(limits: &mut Vec<u32>) {
    let mut words = 1u64;
    for i in (0..limits.len()).rev() {
        words = words.saturating_mul(limits[i] as u64 + 1);
        if words > MOST_WORDS {
            limits[i] = 0;
        }
    }
}

/// A limit of 0 for each variable.
fn zeros(alloc: Global, vars: &Vars) -> Result<Vec<u32>, NoMemory> {
    let mut limits = Vec::new(alloc);
    limits.resize(vars.as_slice().len(), 0)?;
    Ok(limits)
}

/// Makes the limits no less than the greatest exponents of a polynomial.
fn raise_limits(
    alloc: Global,
    limits: &mut Vec<u32>,
    vars: &[Var],
    p: &Shared,
) -> Result<(), NoMemory>
    requires rising { IsStrictlySortedBy var_cmp vars.now }
    requires parts { AreParts p.now }
{
    let numbers = numbered_exponents(alloc, p)?;
    let mut guess = 0u64;
    for i in 0..p.vars.len() {
        guess = raise_limit(limits, vars, p.vars[i], numbers[i], guess);
    }
    Ok(())
}

/// Makes the limits no less than the exponents of a monomial.
fn raise_powers(limits: &mut Vec<u32>, vars: &[Var], powers: &[(Var, u32)])
    requires { IsStrictlySortedBy var_cmp vars.now }
{
    let mut guess = 0u64;
    for (v, exponent) in powers {
        guess = raise_limit(limits, vars, *v, *exponent, guess);
    }
}

/// Makes the limit of a variable no less than an exponent, and answers where the next variable may
/// stand.
fn raise_limit(limits: &mut Vec<u32>, vars: &[Var], v: Var, least: u32, guess: u64) -> u64
    requires { IsStrictlySortedBy var_cmp vars.now }
{
    match guessed_place(vars, v, guess) {
        Some(place) => {
            raise(limits, place, least);
            place.saturating_add(1)
        }
        None => guess,
    }
}
