//! The two forms of a polynomial into which numbers are put: a single term, or any other.

ghost use Rattle.std.specs.Prelude.{pos, ◌≡◌, ◌≢◌, ◌↔◌, ◌+◌, ◌^◌, ◌<◌, ◌≤◌, [], length, unsigned_abs};
ghost use Rattle.std.specs.Prelude.{IfNone, IfOk, IfSome, IsTrue};
ghost use Rattle.geo_poly.specs.Polynomials.{IsPolynomial};
ghost use Rattle.geo_poly.specs.Specialise.{specialised, specialised_weight};
ghost use Rattle.geo_sample.specs.Inner.Changes.{waits};
ghost use Rattle.geo_sample.specs.Inner.Forms.{of_term, polynomial_in};

use crate::single_terms::SingleTerm;
use geo_points::NoMemory;
use geo_poly::{Poly, Ticks, Var};
use std::alloc::Global;
use std::sync::ledger::Ledger;

/// A polynomial, by how many terms it had before any number was put in.
#[derive(Drop)]
pub enum Form {
    /// One, which numbers change in place: the zero polynomial where its coefficient is 0 by now.
    Term(SingleTerm),
    /// None, or more than one.
    Sum(Poly),
}

impl Form {
    /// The polynomial before any number.
    pub fn of(alloc: Global, poly: &Poly) -> Result<Form, NoMemory>
        ensures { IfOk result (λ form. polynomial_in form ≡ poly.now) }
    {
        prove!(poly.is_valid());
        if poly.terms() != 1 {
            return Ok(Form::Sum(poly.copy(alloc)?));
        }
        Ok(Form::Term(SingleTerm::of(alloc, poly)?))
    }

    /// True: each is a polynomial, which contracts then know.
    pub fn is_valid(&self) -> bool
        ensures valid { IsPolynomial (polynomial_in self.now) }
        ensures always { IsTrue result }
    {
        match self {
            Form::Term(term) => term.is_valid(),
            Form::Sum(poly) => poly.is_valid(),
        }
    }

    /// The number of monomials.
    pub fn terms(&self) -> u64
        ensures { result ≡ length (polynomial_in self.now) }
    {
        match self {
            Form::Term(term) => (term.coefficient() != 0) as u64,
            Form::Sum(poly) => poly.terms(),
        }
    }

    /// Whether this is the zero polynomial.
    pub fn is_zero(&self) -> bool
        ensures { IsTrue result ↔ (polynomial_in self.now ≡ []) }
    {
        match self {
            Form::Term(term) => term.coefficient() == 0,
            Form::Sum(poly) => poly.is_zero(),
        }
    }

    /// Whether it becomes zero with 0 for the variable.
    pub fn vanishes_at_zero(&self, v: Var) -> bool
        ensures { IsTrue result ↔ (specialised v (pos 0) (polynomial_in self.now) ≡ []) }
    {
        match self {
            Form::Term(term) => term_vanishes(term, v),
            Form::Sum(poly) => poly.vanishes_at_zero(v),
        }
    }

    /// Whether the number for the variable is refused, by the weight.
    pub fn is_too_heavy(&self, v: Var, number: i128) -> bool
        ensures { IsTrue result ↔ (2 ^ 127 ≤ specialised_weight v number (polynomial_in self.now)) }
    {
        match self {
            Form::Term(term) => term.is_too_heavy(v, number),
            Form::Sum(poly) => poly.is_too_heavy(v, number),
        }
    }

    /// Puts 0 for the variable. Each monomial ticks.
    pub fn put_zero<L: Ledger>(&mut self, v: Var, ticks: &mut Ticks<L>)
        ensures put { polynomial_in self.new ≡ specialised v (pos 0) (polynomial_in self.old) }
        ensures ticks { ticks.new ≡ ticks.old + length (polynomial_in self.old) }
    {
        ticks.tick_each(self.terms());
        match self {
            Form::Term(term) => put_zero_in_term(term, v),
            Form::Sum(poly) => poly.put_zero(v),
        }
    }

    /// Puts the number for the variable. Each monomial ticks.
    pub fn put_number<L: Ledger>(
        &mut self,
        alloc: Global,
        v: Var,
        number: i128,
        ticks: &mut Ticks<L>,
    ) -> Result<(), NoMemory>
        requires { specialised_weight v number (polynomial_in self.old) < 2 ^ 127 }
        ensures put { IfOk result
            (λ _. polynomial_in self.new ≡ specialised v number (polynomial_in self.old)) }
        ensures ticks { ticks.new ≡ ticks.old + length (polynomial_in self.old) }
    {
        ticks.tick_each(self.terms());
        match self {
            Form::Term(term) => put_in_term(alloc, term, v, number),
            Form::Sum(poly) => put_in_sum(alloc, poly, v, number),
        }
    }

    /// What it becomes with the number for the variable, or `None` where that is zero only if it is zero
    /// now: a single term, or one that stays. Where it is made, each monomial ticks.
    pub fn changed<L: Ledger>(
        &self,
        alloc: Global,
        v: Var,
        number: i128,
        ticks: &mut Ticks<L>,
    ) -> Result<Option<Poly>, NoMemory>
        requires number { unsigned_abs number ≢ 0 }
        requires weight { specialised_weight v number (polynomial_in self.now) < 2 ^ 127 }
        ensures some { IfOk result (λ change. IfSome change
            (λ p. p ≡ specialised v number (polynomial_in self.now))) }
        ensures none { IfOk result (λ change. IfNone change
            ((specialised v number (polynomial_in self.now) ≡ []) ↔ (polynomial_in self.now ≡ []))) }
        ensures ticks { ticks.new ≤ ticks.old + length (polynomial_in self.now) }
        ensures waits { IfOk result (λ change. ticks.new + waits change (polynomial_in self.now)
            ≡ ticks.old + length (polynomial_in self.now)) }
    {
        match self {
            Form::Term(term) => {
                prove!(term.is_valid());
                Ok(None)
            }
            Form::Sum(poly) => changed_sum(alloc, poly, v, number, ticks),
        }
    }
}

/// Whether the term becomes zero with 0 for the variable.
fn term_vanishes(term: &SingleTerm, v: Var) -> bool
    ensures { IsTrue result ↔ (specialised v (pos 0) (of_term term.now) ≡ []) }
{
    prove!(term.is_valid());
    term.coefficient() == 0 || term.exponent(v) != 0
}

/// Puts 0 for the variable of a term.
fn put_zero_in_term(term: &mut SingleTerm, v: Var)
    ensures { of_term term.new
        ≡ specialised v (pos 0) (of_term term.old) }
{
    prove!(term.is_valid());
    term.put_zero(v);
}

/// Puts the number for the variable of a term.
fn put_in_term(alloc: Global, term: &mut SingleTerm, v: Var, number: i128) -> Result<(), NoMemory>
    requires { specialised_weight v number (of_term term.old) < 2 ^ 127 }
    ensures { IfOk result (λ _. of_term term.new
        ≡ specialised v number (of_term term.old)) }
{
    term.put_number(alloc, v, number)
}

/// Puts the number for the variable of a polynomial, which stays where it lacks the variable.
fn put_in_sum(alloc: Global, poly: &mut Poly, v: Var, number: i128) -> Result<(), NoMemory>
    requires { specialised_weight v number poly.old < 2 ^ 127 }
    ensures { IfOk result (λ _. poly.new ≡ specialised v number poly.old) }
{
    prove!(poly.is_valid());
    if poly.degree_in(v) != 0 {
        poly.put_number(alloc, v, number)?;
    }
    Ok(())
}

/// What the polynomial becomes with the number for the variable, or `None` where it stays.
fn changed_sum<L: Ledger>(
    alloc: Global,
    poly: &Poly,
    v: Var,
    number: i128,
    ticks: &mut Ticks<L>,
) -> Result<Option<Poly>, NoMemory>
    requires { specialised_weight v number poly.now < 2 ^ 127 }
    ensures some { IfOk result (λ change. IfSome change (λ p. p ≡ specialised v number poly.now)) }
    ensures none { IfOk result (λ change. IfNone change (specialised v number poly.now ≡ poly.now)) }
    ensures ticks { ticks.new ≤ ticks.old + length poly.now }
    ensures waits { IfOk result
        (λ change. ticks.new + waits change poly.now ≡ ticks.old + length poly.now) }
{
    prove!(poly.is_valid());
    if poly.degree_in(v) == 0 {
        return Ok(None);
    }
    ticks.tick_each(poly.terms());
    let mut changed = poly.copy(alloc)?;
    changed.put_number(alloc, v, number)?;
    Ok(Some(changed))
}
