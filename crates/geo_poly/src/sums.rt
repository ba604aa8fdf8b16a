//! Sums and differences of polynomials.

ghost use Rattle.std.specs.Prelude.{◌≡◌, ◌≢◌, ◌↔◌, ◌+◌, ◌^◌, ◌<◌, ◌≤◌, Contains, IfOk, IsTrue};
ghost use Rattle.std.specs.List.Sorted.{IsStrictlySortedBy};
ghost use Rattle.sparse_lists.specs.SparseLists.{AllKeys, IsCanonical};
ghost use Rattle.mono_store.specs.Stores.{Keeps};
ghost use Rattle.sparse_lists.specs.Coefficients.{coefficients};
ghost use Rattle.geo_poly.specs.Polynomials.{IsPolynomial, difference_of, negated};
ghost use Rattle.geo_poly.specs.Polynomials.{norm_of, sum_of, term_cmp};
ghost use Rattle.geo_poly.specs.PolynomialVariables.{AllVariables};
ghost use Rattle.geo_poly.specs.Shared.{AreParts, IsIndex, terms_of, told};
ghost use Rattle.geo_poly.specs.Variables.{var_cmp};

use crate::limits::{MAX, PolyError, Which};
use crate::moving::moved;
use crate::poly::Poly;
use crate::polynomial_variables::{has_all, union};
use crate::roomy_stores::store_for_both;
use crate::shared::{Indexed, Shared};
use crate::terms::{Term, append_copies, copy_term};
use crate::variables::{Var, Vars};
use geo_points::NoMemory;
use mono_store::Monos;
use std::alloc::Global;
use std::cmp::Ordering;

impl Poly {
    /// The sum. It is refused by the norms of the summands, not by that of the sum.
    pub fn add(&self, alloc: Global, other: &Poly) -> Result<Poly, PolyError>
        ensures sum { IfOk result (λ p. p ≡ sum_of self.now other.now) }
        ensures norm { (result ≡ Err (PolyError.TooLarge Which.Norm))
            ↔ (2 ^ 127 ≤ norm_of self.now + norm_of other.now) }
        ensures degree { result ≢ Err (PolyError.TooLarge Which.Degree) }
    {
        if self.unsigned_norm() + other.unsigned_norm() > MAX as u128 {
            return Err(PolyError::TooLarge(Which::Norm));
        }
        Ok(sum(alloc, &self.shared(), &other.shared())?)
    }

    /// The difference. It is refused by the norms of both, not by that of the difference.
    pub fn sub(&self, alloc: Global, other: &Poly) -> Result<Poly, PolyError>
        ensures difference { IfOk result (λ p. p ≡ difference_of self.now other.now) }
        ensures norm { (result ≡ Err (PolyError.TooLarge Which.Norm))
            ↔ (2 ^ 127 ≤ norm_of self.now + norm_of other.now) }
        ensures degree { result ≢ Err (PolyError.TooLarge Which.Degree) }
    {
        if self.unsigned_norm() + other.unsigned_norm() > MAX as u128 {
            return Err(PolyError::TooLarge(Which::Norm));
        }
        Ok(difference(alloc, &self.shared(), &other.shared())?)
    }
}

/// The sum, which fits: over a copy of the store of the summand that has the variables of both, or
/// else over a new one.
fn sum(alloc: Global, p: &Shared, q: &Shared) -> Result<Poly, NoMemory>
    requires left { AreParts p.now }
    requires right { AreParts q.now }
    requires fits { norm_of (told p.now) + norm_of (told q.now) < 2 ^ 127 }
    ensures { IfOk result (λ s. s ≡ sum_of (told p.now) (told q.now)) }
{
    if has_all(p.vars, q.vars) {
        return sum_over(alloc, p, q);
    }
    if has_all(q.vars, p.vars) {
        return sum_over(alloc, q, p);
    }
    let vars = union(alloc, p.vars, q.vars)?;
    let mut monos = store_for_both(alloc, &vars, p, q)?;
    let list = sum_list(alloc, &mut monos, vars.as_slice(), p, q)?;
    Poly::compact(alloc, vars, monos, list)
}

/// The difference, which fits: the sum with the opposite of the second.
fn difference(alloc: Global, p: &Shared, q: &Shared) -> Result<Poly, NoMemory>
    requires left { AreParts p.now }
    requires right { AreParts q.now }
    requires fits { norm_of (told p.now) + norm_of (told q.now) < 2 ^ 127 }
    ensures { IfOk result (λ s. s ≡ difference_of (told p.now) (told q.now)) }
{
    let opposite = negated_list(alloc, q)?;
    let negated = Shared {
        vars: q.vars,
        monos: q.monos,
        list: opposite.as_slice(),
    };
    sum(alloc, p, &negated)
}

/// The sum, over a copy of the store of the first, which has the variables of both. Where the second
/// has the same words, its list is merged as it is.
fn sum_over(alloc: Global, p: &Shared, q: &Shared) -> Result<Poly, NoMemory>
    requires left { AreParts p.now }
    requires right { AreParts q.now }
    requires known { AllVariables (Contains p.now.vars.now) (told q.now) }
    requires fits { norm_of (told p.now) + norm_of (told q.now) < 2 ^ 127 }
    ensures { IfOk result (λ s. s ≡ sum_of (told p.now) (told q.now)) }
{
    let mut monos = p.monos.copy(alloc)?;
    if has_words_of(p, q) {
        return sum_in(alloc, p, monos, q.list);
    }
    let right = moved(alloc, &mut monos, p.vars, q)?;
    sum_in(alloc, p, monos, &right)
}

/// Whether the second has the variables and the words of the first, and no links: then its indices
/// are indices of the first, and stand for the same monomials.
#[tactic(auto, using(crate::proofs::Unions::same_variables))]
fn has_words_of(p: &Shared, q: &Shared) -> bool
    ensures vars { IsTrue result → p.now.vars.now ≡ q.now.vars.now }
    ensures kept { IsTrue result → Keeps q.now.monos.now p.now.monos.now }
{
    p.vars == q.vars && p.monos.has_words_of(q.monos)
}

/// The sum of a polynomial and of the terms of a list, in a store that has the indices of both.
fn sum_in(alloc: Global, p: &Shared, monos: Monos, right: &[Indexed]) -> Result<Poly, NoMemory>
    requires parts { AreParts p.now }
    requires kept { Keeps p.now.monos.now monos }
    requires indices { AllKeys (IsIndex p.now.vars.now monos) right.now }
    requires polynomial { IsPolynomial (terms_of p.now.vars.now monos right.now) }
    requires fits { norm_of (told p.now) + norm_of (terms_of p.now.vars.now monos right.now)
        < 2 ^ 127 }
    ensures { IfOk result
        (λ s. s ≡ sum_of (told p.now) (terms_of p.now.vars.now monos right.now)) }
{
    let list = merged_lists(alloc, &monos, p.vars, p.list, right)?;
    let items = Vec::from_slice(alloc, p.vars)?;
    Poly::compact(alloc, Vars { items }, monos, list)
}

/// The list of the sum, in a store.
fn sum_list(
    alloc: Global,
    store: &mut Monos,
    vars: &[Var],
    p: &Shared,
    q: &Shared,
) -> Result<Vec<Indexed>, NoMemory>
    requires rising { IsStrictlySortedBy var_cmp vars.now }
    requires left { AreParts p.now }
    requires right { AreParts q.now }
    requires left_known { AllVariables (Contains vars.now) (told p.now) }
    requires right_known { AllVariables (Contains vars.now) (told q.now) }
    requires fits { norm_of (told p.now) + norm_of (told q.now) < 2 ^ 127 }
    ensures indices { IfOk result (λ list. AllKeys (IsIndex vars.now store.new) list.items) }
    ensures sum { IfOk result
        (λ list. terms_of vars.now store.new list.items ≡ sum_of (told p.now) (told q.now)) }
{
    let left = moved(alloc, store, vars, p)?;
    let right = moved(alloc, store, vars, q)?;
    merged_lists(alloc, store, vars, &left, &right)
}

/// Both lists in one, in order; where a monomial stands in both, the coefficients add up.
pub(crate) fn merged_lists(
    alloc: Global,
    store: &Monos,
    vars: &[Var],
    left: &[Indexed],
    right: &[Indexed],
) -> Result<Vec<Indexed>, NoMemory>
    requires rising { IsStrictlySortedBy var_cmp vars.now }
    requires left_indices { AllKeys (IsIndex vars.now store.now) left.now }
    requires right_indices { AllKeys (IsIndex vars.now store.now) right.now }
    requires left { IsCanonical term_cmp coefficients (terms_of vars.now store.now left.now) }
    requires right { IsCanonical term_cmp coefficients (terms_of vars.now store.now right.now) }
    requires fits { norm_of (terms_of vars.now store.now left.now)
        + norm_of (terms_of vars.now store.now right.now) < 2 ^ 127 }
    ensures indices { IfOk result (λ list. AllKeys (IsIndex vars.now store.now) list.items) }
    ensures sum { IfOk result (λ list. terms_of vars.now store.now list.items
        ≡ sum_of (terms_of vars.now store.now left.now) (terms_of vars.now store.now right.now)) }
{
    let _ = vars;
    let mut list = Vec::with_capacity(alloc, left.len().saturating_add(right.len()))?;
    let mut i = 0;
    let mut j = 0;
    while i < left.len() && j < right.len() {
        let t = left[i];
        let u = right[j];
        match store.compare(u.0, t.0) {
            Ordering::Less => {
                list.push(t)?;
                i += 1;
            }
            Ordering::Greater => {
                list.push(u)?;
                j += 1;
            }
            Ordering::Equal => {
                let sum = t.1 + u.1;
                if sum != 0 {
                    list.push((t.0, sum))?;
                }
                i += 1;
                j += 1;
            }
        }
    }
    list.extend_from_slice(&left[i..])?;
    list.extend_from_slice(&right[j..])?;
    Ok(list)
}

/// The list of the opposite polynomial.
pub(crate) fn negated_list(alloc: Global, p: &Shared) -> Result<Vec<Indexed>, NoMemory>
    requires { AreParts p.now }
    ensures indices { IfOk result
        (λ v. AllKeys (IsIndex p.now.vars.now p.now.monos.now) v.items) }
    ensures negated { IfOk result
        (λ v. terms_of p.now.vars.now p.now.monos.now v.items ≡ negated (told p.now)) }
{
    let mut opposite = Vec::with_capacity(alloc, p.list.len())?;
    for (id, coefficient) in p.list {
        opposite.push((*id, -*coefficient))?;
    }
    Ok(opposite)
}

/// Both lists in one, in order; where a monomial stands in both, the coefficients add up.
pub(crate) fn merged(alloc: Global, left: &[Term], right: &[Term]) -> Result<Vec<Term>, NoMemory>
    requires left { IsCanonical term_cmp coefficients left.now }
    requires right { IsCanonical term_cmp coefficients right.now }
    requires fits { norm_of left.now + norm_of right.now < 2 ^ 127 }
    ensures { IfOk result (λ v. v.items ≡ sum_of left.now right.now) }
{
    let mut terms = Vec::new(alloc);
    let mut i = 0;
    let mut j = 0;
    while i < left.len() && j < right.len() {
        let t = &left[i];
        let u = &right[j];
        match u.0.compare(&t.0) {
            Ordering::Less => {
                terms.push(copy_term(alloc, t)?)?;
                i += 1;
            }
            Ordering::Greater => {
                terms.push(copy_term(alloc, u)?)?;
                j += 1;
            }
            Ordering::Equal => {
                let sum = t.1 + u.1;
                if sum != 0 {
                    terms.push((t.0.copy(alloc)?, sum))?;
                }
                i += 1;
                j += 1;
            }
        }
    }
    append_copies(alloc, &mut terms, &left[i..])?;
    append_copies(alloc, &mut terms, &right[j..])?;
    Ok(terms)
}
