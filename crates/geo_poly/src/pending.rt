//! Terms of a polynomial that are to be replaced, with the factors that each is to get.

ghost use Rattle.std.specs.Prelude.{◌≡◌, ◌+◌, ◌<◌, ◌≤◌, ◌∷◌, ◌++◌, [], ℤ, All, Contains};
ghost use Rattle.std.specs.Prelude.{IfNone, IfOk, IfSome, OnOk, drop, length, map, replicate, take};
ghost use Rattle.std.specs.List.Sorted.{IsPermutation, IsStrictlySortedBy};
ghost use Rattle.geo_poly.specs.Inner.Accumulated.{accumulated_term};
ghost use Rattle.geo_poly.specs.Inner.Factored.{AreFactors, ArePending, factors_listed};
ghost use Rattle.geo_poly.specs.Inner.Factored.{numbered_of, numbered_terms};
ghost use Rattle.geo_poly.specs.Inner.Moved.{IsMovedKey};
ghost use Rattle.geo_poly.specs.Inner.Roles.{AreRoles, IsRole};
ghost use Rattle.geo_poly.specs.Inner.TermKeys.{AddsUp, IsKeyed};
ghost use Rattle.geo_poly.specs.Monomials.{IsMonomial};
ghost use Rattle.geo_poly.specs.PolynomialVariables.{AllVariables};
ghost use Rattle.geo_poly.specs.Replace.{AllBounded, CanReplace, IsBounded, denominators};
ghost use Rattle.geo_poly.specs.Shared.{AreParts, IsIndexOf, told, told_powers};
ghost use Rattle.geo_poly.specs.Variables.{var_cmp};

use crate::monomial_keys::MonomialKeys;
use crate::roles::{Role, role_at, roles_of};
use crate::rows::Row;
use crate::settings::Setting;
use crate::shared::{FirstPower, Indexed, Shared};
use geo_points::NoMemory;
use mono_store::MonoId;
use std::alloc::Global;

/// A term of a polynomial, and the factors that it is to get: 0 stands for the denominator, and one
/// more than its place for a row. The factor that is multiplied in last stands first.
#[derive(Clone, Copy)]
pub(crate) struct Pending<'a> {
    pub(crate) factors: &'a [usize],
    pub(crate) id: MonoId,
    /// Where it was listed.
    pub(crate) place: usize,
    pub(crate) coefficient: i128,
}

impl<'a> Pending<'a> {
    /// The factors from a place on.
    pub(crate) fn factors_from(&self, depth: usize) -> &[usize]
        ensures { result.now ≡ drop depth self.now.factors.now }
    {
        behind(self.factors, depth)
    }
}

/// What stands behind so many.
fn behind(factors: &[usize], count: usize) -> &[usize]
    ensures { result.now ≡ drop count factors.now }
{
    if count >= factors.len() {
        return &[];
    }
    &factors[count..]
}

/// The first ones, so many.
pub(crate) fn front_of(factors: &[usize], count: usize) -> &[usize]
    ensures { result.now ≡ take count factors.now }
{
    if count >= factors.len() {
        return factors;
    }
    &factors[..count]
}

/// Adds a factor as often as is said.
fn push_factor(factors: &mut Vec<usize>, factor: usize, count: u32) -> Result<(), NoMemory>
    ensures { OnOk result (factors.new.items ≡ factors.old.items ++ replicate count factor) }
{
    for _k in 0..count {
        factors.push(factor)?;
    }
    Ok(())
}

/// A factor, and how often a term is to get it.
#[derive(Clone, Copy)]
pub(crate) struct FactorPower {
    pub(crate) factor: usize,
    pub(crate) exponent: u32,
}

/// The number of the factor that is the numerator of the row at a place.
fn factor_of_row(rows: &[Row], place: usize) -> usize
    requires { place < length rows.now }
    ensures { result ≡ place + 1 }
{
    let _count = rows.len();
    place + 1
}

/// What is found of a term: how many denominators it lacks, and the key of what is left of its
/// monomial, where all amounts are known.
#[derive(Clone, Copy)]
struct Found {
    lacking: u32,
    key: Option<u64>,
}

/// Puts the numerators of a term into the list, in place of what it had, and answers how many
/// denominators the term lacks, and the key of what is left of it. It is none where the term becomes
/// zero, since a numerator is zero, or the denominator where the term lacks some.
fn read_factors<K: MonomialKeys>(
    setting: &Setting,
    keys: &K,
    p: &Shared,
    id: MonoId,
    roles: &[Role],
    numerators: &mut Vec<FactorPower>,
) -> Result<Option<Found>, NoMemory>
    requires rows { AllBounded setting.now.rows.now }
    requires den { IsBounded setting.now.den.piece.now }
    requires roles { AreRoles setting.now.rows.now setting.now.vars.now p.now.vars.now roles.now }
    requires index { IsIndexOf p.now id }
    requires monomial { IsMonomial (told_powers p.now id) }
    requires top { denominators setting.now.rows.now (told_powers p.now id) ≤ setting.now.top }
    requires rising { IsStrictlySortedBy var_cmp setting.now.vars.now }
    ensures zero { IfOk result (λ found. IfNone found ((k : ℤ)
        → accumulated_term setting.now.rows.now setting.now.den.piece.now.poly setting.now.top
        (told_powers p.now id, k) ≡ [])) }
    ensures factors { IfOk result (λ found. IfSome found (λ f.
        AreFactors setting.now (told_powers p.now id)
        (replicate f.lacking 0 ++ factors_listed numerators.new.items))) }
    ensures key { IfOk result (λ found. IfSome found (λ f. IfSome f.key
        (IsMovedKey p.now setting.now.rows.now setting.now.vars.now (K.keys keys.now) id))) }
{
    numerators.clear();
    let mut missing = setting.top;
    let mut key = Some(keys.one());
    let mut rest = id;
    while let Some(first) = p.first_power(rest) {
        let role = role_at(roles, first.number);
        if let Some(i) = role.row_place() {
            let row = setting.rows.row(i);
            if row.num.poly.is_zero() {
                return Ok(None);
            }
            missing -= row.power * first.exponent;
            let factor = factor_of_row(setting.rows.rows(), i);
            let exponent = first.exponent;
            numerators.push(FactorPower { factor, exponent })?;
        }
        key = with_amount(setting, keys, p, id, rest, first, role, key);
        rest = first.rest;
    }
    if missing > 0 && setting.den.piece.poly.is_zero() {
        return Ok(None);
    }
    Ok(Some(Found {
        lacking: missing,
        key,
    }))
}

/// The sum with what the first power of the rest that is left to read adds to the key.
fn with_amount<K: MonomialKeys>(
    setting: &Setting,
    keys: &K,
    p: &Shared,
    id: MonoId,
    left: MonoId,
    first: FirstPower,
    role: Role,
    sum: Option<u64>,
) -> Option<u64>
    requires rising { IsStrictlySortedBy var_cmp setting.now.vars.now }
    requires index { IsIndexOf p.now left }
    requires monomial { IsMonomial (told_powers p.now left) }
    requires power { told_powers p.now left
        ≡ (first.var, first.exponent) ∷ told_powers p.now first.rest }
    requires role { IsRole setting.now.rows.now setting.now.vars.now first.var role }
    requires sum { IfSome sum
        (AddsUp p.now setting.now.rows.now setting.now.vars.now (K.keys keys.now) id left) }
    ensures { IfSome result
        (AddsUp p.now setting.now.rows.now setting.now.vars.now (K.keys keys.now) id first.rest) }
{
    let _ = setting;
    let _ = p;
    let sum = sum?;
    match role {
        Role::Replaced(_) => Some(sum),
        Role::Kept(place) => {
            let amount = keys.amount(place, first.exponent)?;
            let more = sum.checked_add(amount)?;
            Some(more)
        }
        Role::Absent => None,
    }
}

/// Adds the factors of a term: the denominators that it lacks, and then its numerators in order.
/// Answers how many they are.
fn push_factors(
    factors: &mut Vec<usize>,
    numerators: &[FactorPower],
    lacking: u32,
) -> Result<usize, NoMemory>
    ensures factors { OnOk result (factors.new.items
        ≡ factors.old.items ++ (replicate lacking 0 ++ factors_listed numerators.now)) }
    ensures count { IfOk result (λ count.
        count ≡ length (replicate lacking 0 ++ factors_listed numerators.now)) }
{
    let before = factors.len();
    push_factor(factors, 0, lacking)?;
    for power in numerators {
        push_factor(factors, power.factor, power.exponent)?;
    }
    Ok(factors.len() - before)
}

/// Most terms have no more factors.
const MOSTLY_FACTORS: usize = 4;

/// A term that does not become zero, and how many factors it is to get.
#[derive(Clone, Copy)]
pub(crate) struct Listed {
    pub(crate) id: MonoId,
    pub(crate) count: usize,
    pub(crate) coefficient: i128,
    /// The key of what is left of its monomial, where it is known.
    pub(crate) key: Option<u64>,
}

/// Terms with their factors, which all stand in one list, term by term.
pub(crate) struct Listing {
    pub(crate) terms: Vec<Listed>,
    pub(crate) factors: Vec<usize>,
    /// No term has more factors.
    most: usize,
    /// Whether each term has a key.
    pub(crate) is_keyed: bool,
}

/// By hand, so that a caller's proof sees one call where it is let go.
impl Drop for Listing {
    fn drop(self) {
        let Listing {
            terms: _,
            factors: _,
            most: _,
            is_keyed: _,
        } = self;
    }
}

/// The terms that do not become zero, each with its factors.
pub(crate) fn listed_terms<K: MonomialKeys>(
    alloc: Global,
    setting: &Setting,
    keys: &K,
    p: &Shared,
) -> Result<Listing, NoMemory>
    requires rising { IsStrictlySortedBy var_cmp setting.now.vars.now }
    requires parts { AreParts p.now }
    requires known { AllVariables (Contains setting.now.vars.now) (told p.now) }
    requires can { CanReplace setting.now.rows.now setting.now.den.piece.now setting.now.top
        (told p.now) }
    ensures pending { IfOk result (λ listing. ArePending setting.now p.now (told p.now)
        (numbered_terms listing.factors.items listing.terms.items)) }
    ensures keyed { IfOk result (λ listing.
        All (IsKeyed p.now setting.now.rows.now setting.now.vars.now (K.keys keys.now))
        listing.terms.items) }
{
    let roles = roles_of(alloc, setting.rows, p.vars, setting.vars)?;
    let mut numerators = Vec::new(alloc);
    let mut factors = Vec::with_capacity(alloc, p.list.len().saturating_mul(MOSTLY_FACTORS))?;
    let mut terms = Vec::with_capacity(alloc, p.list.len())?;
    let mut most = 0;
    let mut is_keyed = true;
    for term in p.list {
        let found = read_factors(setting, keys, p, term.0, &roles, &mut numerators)?;
        match found {
            Some(found) => {
                let count = push_factors(&mut factors, &numerators, found.lacking)?;
                terms.push(Listed {
                    id: term.0,
                    count,
                    coefficient: term.1,
                    key: found.key,
                })?;
                is_keyed &= found.key.is_some();
                most = count.max(most);
            }
            None => {}
        }
    }
    Ok(Listing {
        terms,
        factors,
        most,
        is_keyed,
    })
}

/// The first factors as one number, each in so many of its bits: of two lists that differ in them, the
/// one that comes first has the lower number.
fn rank_of(factors: &[usize], width: u32) -> u64 {
    let mut rank = 0u64;
    let mut place = u64::BITS;
    for factor in factors {
        if place < width {
            return rank;
        }
        place -= width;
        rank |= (*factor as u64).wrapping_add(1).wrapping_shl(place);
    }
    rank
}

/// The terms, each with those of the factors that are its own.
fn with_factors<'a>(
    alloc: Global,
    terms: &[Listed],
    factors: &'a [usize],
) -> Result<Vec<Pending<'a>>, NoMemory>
    ensures { IfOk result (λ es. map numbered_of es.items ≡ numbered_terms factors.now terms.now) }
{
    let mut pending = Vec::with_capacity(alloc, terms.len())?;
    let mut left = factors;
    for term in terms {
        let own = front_of(left, term.count);
        let place = pending.len();
        pending.push(Pending {
            factors: own,
            id: term.id,
            place,
            coefficient: term.coefficient,
        })?;
        left = behind(left, term.count);
    }
    Ok(pending)
}

/// How many bits hold the number of a factor and one more.
fn width_of(rows: &[Row]) -> u32
    ensures { 1 ≤ result }
{
    let most = (rows.len() as u64).saturating_add(1);
    u64::BITS.saturating_sub(most.leading_zeros()).max(1)
}

/// Puts the terms in the order of their factors, of which none has more than so many.
fn put_in_order(pending: &mut Vec<Pending>, width: u32, most: usize) -> Result<(), NoMemory>
    requires { 1 ≤ width }
    ensures { IsPermutation pending.old.items pending.new.items }
{
    if most <= (u64::BITS / width) as usize {
        pending.sort_by_cached_key(|term: &Pending| rank_of(term.factors, width))?;
    } else {
        pending.sort_by(|a: &Pending, b: &Pending| a.factors.cmp(b.factors))?;
    }
    Ok(())
}

/// The terms, so that those that share their first factors stand together.
pub(crate) fn sorted_pending<'a>(
    alloc: Global,
    rows: &[Row],
    listing: &'a Listing,
) -> Result<Vec<Pending<'a>>, NoMemory>
    ensures { IfOk result (λ es. IsPermutation
        (numbered_terms listing.now.factors.items listing.now.terms.items)
        (map numbered_of es.items)) }
{
    let width = width_of(rows);
    let mut pending = with_factors(alloc, &listing.terms, &listing.factors)?;
    put_in_order(&mut pending, width, listing.most)?;
    Ok(pending)
}
