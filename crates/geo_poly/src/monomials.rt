//! Monomials: products of powers of variables.

ghost use Rattle.std.specs.Prelude.{◌≡◌, ◌+◌, ◌≤◌, [], ◌∷◌, ◌++◌, IfOk, IfSome, IfNone, OnOk};
ghost use Rattle.std.specs.Prelude.{OnErr};
ghost use Rattle.geo_poly.specs.Variables.{var_cmp};
ghost use Rattle.sparse_lists.specs.SparseLists.{IsCanonical};
ghost use Rattle.geo_poly.specs.Monomials.{degree_of, exponent, exponents, IsMonomial};
ghost use Rattle.geo_poly.specs.Monomials.{monomial_cmp, product};
ghost use Rattle.geo_poly.specs.Division.{IsNoMultiple};
ghost use Rattle.geo_poly.specs.Specialise.{without};

use crate::variables::Var;
use geo_points::NoMemory;
use std::alloc::Global;
use std::cmp::Ordering;
use std::marker::Model;

/// Variables in order, with exponents of at least 1.
#[derive(Drop)]
pub struct Monomial {
    powers: Vec<(Var, u32)>,
}

impl Model for Monomial {
    ghost use Rattle.geo_poly.specs.Monomials.{Powers, IsMonomial};

    ghost Value = { Powers };

    ghost view = { λ m. m.powers.items };

    ghost invariant = { λ m. IsMonomial m.powers.items };
}

impl Monomial {
    /// The monomial with no variable.
    pub fn one(alloc: Global) -> Monomial
        ensures { result ≡ [] }
    {
        Monomial {
            powers: Vec::new(alloc),
        }
    }

    /// The monomial with these powers.
    pub(crate) fn from_powers(powers: Vec<(Var, u32)>) -> Monomial
        requires { IsMonomial powers.items }
        ensures { result ≡ powers.items }
    {
        Monomial { powers }
    }

    /// A monomial with the same powers.
    pub fn copy(&self, alloc: Global) -> Result<Monomial, NoMemory>
        ensures { IfOk result (λ m. m ≡ self.now) }
    {
        Ok(Monomial {
            powers: Vec::from_slice(alloc, &self.powers)?,
        })
    }

    /// The variables in order, with their exponents.
    pub fn powers(&self) -> &[(Var, u32)]
        ensures { result.now ≡ self.now }
    {
        &self.powers
    }

    /// Adds a power behind the others.
    pub fn push(&mut self, v: Var, exponent: u32) -> Result<(), NoMemory>
        requires { IsMonomial (self.old ++ (v, exponent) ∷ []) }
        ensures ok { OnOk result (self.new ≡ self.old ++ (v, exponent) ∷ []) }
        ensures err { OnErr result (self.new ≡ self.old) }
    {
        self.powers.push((v, exponent))?;
        Ok(())
    }

    /// The sum of the exponents.
    pub fn degree(&self) -> u32
        ensures value { result ≡ degree_of self.now }
        ensures small { result ≤ 65535 }
    {
        let mut degree = 0;
        for (_, exponent) in &self.powers {
            degree += *exponent;
        }
        degree
    }

    /// The exponent of the variable, and 0 where it is absent.
    pub fn exponent(&self, v: Var) -> u32
        ensures { result ≡ exponent v self.now }
    {
        let mut total = 0;
        for (w, e) in &self.powers {
            if v == *w {
                total += *e;
            }
        }
        total
    }

    /// The monomial of the other variables.
    pub fn without(&self, alloc: Global, v: Var) -> Result<Monomial, NoMemory>
        ensures { IfOk result (λ m. m ≡ without v self.now) }
    {
        let mut powers = Vec::new(alloc);
        for (w, e) in &self.powers {
            if v != *w {
                powers.push((*w, *e))?;
            }
        }
        Ok(Monomial { powers })
    }

    /// What times `by` is this monomial, where there is such a one.
    pub fn over(&self, alloc: Global, by: &Monomial) -> Result<Option<Monomial>, NoMemory>
        ensures some { IfOk result (λ o. IfSome o (λ q. product by.now q ≡ self.now)) }
        ensures monomial { IfOk result (λ o. IfSome o IsMonomial) }
        ensures none { IfOk result (λ o. IfNone o (IsNoMultiple by.now self.now)) }
    {
        if by.powers().is_empty() {
            let powers = Vec::from_slice(alloc, &self.powers)?;
            return Ok(Some(Monomial { powers }));
        }
        let mut rest = Monomial::one(alloc);
        for (v, e) in &self.powers {
            let left = e.saturating_sub(by.exponent(*v));
            if left > 0 {
                rest.push(*v, left)?;
            }
        }
        if by.degree() + rest.degree() != self.degree() {
            return Ok(None);
        }
        let whole = by.times(alloc, &rest)?;
        match whole.compare(self) {
            Ordering::Equal => Ok(Some(rest)),
            _ => Ok(None),
        }
    }

    /// `Greater` where `self` stands before `other` in a polynomial.
    pub fn compare(&self, other: &Monomial) -> Ordering
        ensures { result ≡ monomial_cmp self.now other.now }
    {
        let left = &self.powers;
        let right = &other.powers;
        let mut i = 0;
        while i < left.len() && i < right.len() {
            let (v, e) = left[i];
            let (w, f) = right[i];
            let order = w.cmp(&v).then(e.cmp(&f));
            if order != Ordering::Equal {
                return order;
            }
            i += 1;
        }
        left.len().cmp(&right.len())
    }

    /// The product: the exponents add up.
    pub fn times(&self, alloc: Global, other: &Monomial) -> Result<Monomial, NoMemory>
        requires { degree_of self.now + degree_of other.now ≤ 65535 }
        ensures { IfOk result (λ m. m ≡ product self.now other.now) }
    {
        let powers = merged(alloc, &self.powers, &other.powers)?;
        Ok(Monomial { powers })
    }
}

/// Both lists in one, in order; where a variable stands in both, the exponents add up.
fn merged(
    alloc: Global,
    left: &[(Var, u32)],
    right: &[(Var, u32)],
) -> Result<Vec<(Var, u32)>, NoMemory>
    requires left { IsCanonical var_cmp exponents left.now }
    requires right { IsCanonical var_cmp exponents right.now }
    requires fits { degree_of left.now + degree_of right.now ≤ 65535 }
    ensures { IfOk result (λ v. v.items ≡ product left.now right.now) }
{
    let mut powers = Vec::with_capacity(alloc, left.len().saturating_add(right.len()))?;
    let mut i = 0;
    let mut j = 0;
    while i < left.len() && j < right.len() {
        let (v, e) = left[i];
        let (w, f) = right[j];
        match v.cmp(&w) {
            Ordering::Less => {
                powers.push((v, e))?;
                i += 1;
            }
            Ordering::Greater => {
                powers.push((w, f))?;
                j += 1;
            }
            Ordering::Equal => {
                powers.push((v, e + f))?;
                i += 1;
                j += 1;
            }
        }
    }
    powers.extend_from_slice(&left[i..])?;
    powers.extend_from_slice(&right[j..])?;
    Ok(powers)
}
