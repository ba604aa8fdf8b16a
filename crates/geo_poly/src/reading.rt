//! The monomials of a polynomial, read power by power.

ghost use Rattle.std.specs.Prelude.{◌≡◌, ◌↔◌, ◌<◌, ◌≤◌, ◌^◌, ◌∷◌, [], length, slice_get};
ghost use Rattle.std.specs.Prelude.{IfOk, IfSome, IfNone, IsTrue, Some};
ghost use Rattle.geo_poly.specs.Monomials.{IsMonomial, degree_of, exponent};
ghost use Rattle.geo_poly.specs.Polynomials.{norm_of, term_at, total_degree};
ghost use Rattle.geo_poly.specs.Shared.{AreParts, IsIndexOf, told, told_powers, told_term};

use crate::monomials::Monomial;
use crate::shared::{FirstPower, Indexed, Shared};
use crate::terms::Term;
use crate::variables::Var;
use geo_points::NoMemory;
use mono_store::MonoId;
use std::alloc::Global;

impl<'a> Shared<'a> {
    /// The index of the monomial at place i, from 0, and its coefficient.
    pub fn term(&self, i: u64) -> (MonoId, i128)
        requires parts { AreParts self.now }
        requires place { i < length (told self.now) }
        ensures index { IsIndexOf self.now result.0 }
        ensures term { told_term self.now result ≡ term_at (told self.now) i }
    {
        self.list[i as usize]
    }

    /// The first power of a monomial, where it has one.
    pub fn first_power(&self, id: MonoId) -> Option<FirstPower>
        requires { IsIndexOf self.now id }
        ensures none { IfNone result (told_powers self.now id ≡ []) }
        ensures power { IfSome result
            (λ f. told_powers self.now id ≡ (f.var, f.exponent) ∷ told_powers self.now f.rest) }
        ensures index { IfSome result (λ f. IsIndexOf self.now f.rest) }
        ensures earlier { IfSome result (λ f. f.rest.0 < id.0) }
        ensures number { IfSome result (λ f. slice_get self.now.vars.now f.number ≡ Some f.var) }
    {
        match self.monos.link(id) {
            Some(link) => Some(FirstPower {
                var: self.vars[link.var as usize],
                exponent: link.exp,
                rest: link.next,
                number: link.var,
            }),
            None => None,
        }
    }
}

/// The monomial, with powers of its own.
pub(crate) fn monomial_at(alloc: Global, p: &Shared, id: MonoId) -> Result<Monomial, NoMemory>
    requires index { IsIndexOf p.now id }
    requires monomial { IsMonomial (told_powers p.now id) }
    ensures { IfOk result (λ m. m ≡ told_powers p.now id) }
{
    let mut powers = Vec::new(alloc);
    let mut rest = id;
    while let Some(first) = p.first_power(rest) {
        powers.push((first.var, first.exponent))?;
        rest = first.rest;
    }
    Ok(Monomial::from_powers(powers))
}

/// The sum of the exponents.
fn degree_at(p: &Shared, id: MonoId) -> u32
    requires index { IsIndexOf p.now id }
    requires monomial { IsMonomial (told_powers p.now id) }
    ensures { result ≡ degree_of (told_powers p.now id) }
{
    let mut degree = 0;
    let mut rest = id;
    while let Some(first) = p.first_power(rest) {
        degree += first.exponent;
        rest = first.rest;
    }
    degree
}

/// The exponent of the variable, and 0 where it is absent.
pub(crate) fn exponent_at(p: &Shared, id: MonoId, v: Var) -> u32
    requires index { IsIndexOf p.now id }
    requires monomial { IsMonomial (told_powers p.now id) }
    ensures { result ≡ exponent v (told_powers p.now id) }
{
    let mut total = 0;
    let mut rest = id;
    while let Some(first) = p.first_power(rest) {
        if v == first.var {
            total += first.exponent;
        }
        rest = first.rest;
    }
    total
}

/// The number of powers.
pub(crate) fn count_powers(p: &Shared, id: MonoId) -> u64
    requires { IsIndexOf p.now id }
    ensures { result ≡ length (told_powers p.now id) }
{
    let mut count = 0;
    let mut rest = id;
    while let Some(first) = p.first_power(rest) {
        count += 1;
        rest = first.rest;
    }
    count
}

/// The power at place j, from 0.
pub(crate) fn power_at(p: &Shared, id: MonoId, j: u64) -> (Var, u32)
    requires index { IsIndexOf p.now id }
    requires place { j < length (told_powers p.now id) }
    ensures { slice_get (told_powers p.now id) j ≡ Some result }
{
    let mut rest = id;
    for _k in 0..j {
        match p.first_power(rest) {
            Some(first) => rest = first.rest,
            None => unreachable!(),
        }
    }
    match p.first_power(rest) {
        Some(first) => (first.var, first.exponent),
        None => unreachable!(),
    }
}

/// The terms, with monomials of their own.
pub(crate) fn terms_at(alloc: Global, p: &Shared) -> Result<Vec<Term>, NoMemory>
    requires { AreParts p.now }
    ensures { IfOk result (λ terms. terms.items ≡ told p.now) }
{
    let mut terms = Vec::with_capacity(alloc, p.list.len())?;
    for (id, coefficient) in p.list {
        terms.push((monomial_at(alloc, p, *id)?, *coefficient))?;
    }
    Ok(terms)
}

/// The sum of the absolute coefficients.
pub(crate) fn norm_at(p: &Shared) -> u128
    requires { norm_of (told p.now) < 2 ^ 127 }
    ensures { result ≡ norm_of (told p.now) }
{
    let mut norm = 0;
    for (_, coefficient) in p.list {
        norm += coefficient.unsigned_abs();
    }
    norm
}

/// The greatest degree of a monomial, and 0 where there is none.
pub(crate) fn total_degree_at(p: &Shared) -> u32
    requires { AreParts p.now }
    ensures { result ≡ total_degree (told p.now) }
{
    let mut degree = 0;
    for (id, _) in p.list {
        degree = degree.max(degree_at(p, *id));
    }
    degree
}

/// Whether both monomials have the same powers.
fn is_same_monomial(p: &Shared, id: MonoId, q: &Shared, other: MonoId) -> bool
    requires left { IsIndexOf p.now id }
    requires right { IsIndexOf q.now other }
    ensures { IsTrue result ↔ (told_powers p.now id ≡ told_powers q.now other) }
{
    let mut left = id;
    let mut right = other;
    loop {
        match (p.first_power(left), q.first_power(right)) {
            (Some(first), Some(second)) => {
                if first.var != second.var || first.exponent != second.exponent {
                    return false;
                }
                left = first.rest;
                right = second.rest;
            }
            (None, None) => return true,
            _ => return false,
        }
    }
}

/// Whether monomial and coefficient are the same.
fn is_same_term(p: &Shared, t: Indexed, q: &Shared, u: Indexed) -> bool
    requires left { IsIndexOf p.now t.0 }
    requires right { IsIndexOf q.now u.0 }
    ensures { IsTrue result ↔ (told_term p.now t ≡ told_term q.now u) }
{
    t.1 == u.1 && is_same_monomial(p, t.0, q, u.0)
}

/// Whether both have the same monomials with the same coefficients.
pub(crate) fn is_same(p: &Shared, q: &Shared) -> bool
    requires left { AreParts p.now }
    requires right { AreParts q.now }
    ensures { IsTrue result ↔ (told p.now ≡ told q.now) }
{
    if p.list.len() != q.list.len() {
        return false;
    }
    for i in 0..p.list.len() {
        if !is_same_term(p, p.list[i], q, q.list[i]) {
            return false;
        }
    }
    true
}
