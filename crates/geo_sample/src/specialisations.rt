//! Polynomials into which numbers are put for variables, one after another.

ghost use Rattle.std.specs.Prelude.{pos, ◌≡◌, ◌≢◌, ◌↔◌, ◌+◌, ◌^◌, ◌<◌, ◌≤◌, [], length, unsigned_abs};
ghost use Rattle.std.specs.Prelude.{IfNone, IfOk, IfSome, IsTrue};
ghost use Rattle.geo_poly.specs.Polynomials.{IsPolynomial};
ghost use Rattle.geo_poly.specs.Specialise.{specialised, specialised_weight};
ghost use Rattle.geo_sample.specs.Inner.Changes.{waits};

use crate::forms::Form;
use geo_points::NoMemory;
use geo_poly::{Poly, Ticks, Var};
use std::alloc::Global;
use std::marker::Model;
use std::sync::ledger::Ledger;

/// A polynomial with numbers put for some of its variables.
#[derive(Drop)]
pub struct Specialisation {
    form: Form,
}

impl Model for Specialisation {
    ghost use Rattle.geo_poly.specs.Polynomials.{Summands};
    ghost use Rattle.geo_sample.specs.Inner.Forms.{polynomial_in};

    ghost Value = { Summands };

    ghost view = { λ s. polynomial_in s.form };
}

impl Specialisation {
    /// The polynomial before any number.
    pub fn of(alloc: Global, poly: &Poly) -> Result<Specialisation, NoMemory>
        ensures { IfOk result (λ s. s ≡ poly.now) }
    {
        let form = Form::of(alloc, poly)?;
        Ok(Specialisation { form })
    }

    /// The polynomial of several terms.
    pub fn sum(poly: Poly) -> Specialisation
        ensures { result ≡ poly }
    {
        Specialisation {
            form: Form::Sum(poly),
        }
    }

    /// True: each is a polynomial, which contracts then know.
    pub fn is_valid(&self) -> bool
        ensures valid { IsPolynomial self.now }
        ensures always { IsTrue result }
    {
        self.form.is_valid()
    }

    /// The number of monomials.
    pub fn terms(&self) -> u64
        ensures { result ≡ length self.now }
    {
        self.form.terms()
    }

    /// Whether this is the zero polynomial.
    pub fn is_zero(&self) -> bool
        ensures { IsTrue result ↔ (self.now ≡ []) }
    {
        self.form.is_zero()
    }

    /// Whether the polynomial becomes zero with 0 for the variable.
    pub fn vanishes_at_zero(&self, v: Var) -> bool
        ensures { IsTrue result ↔ (specialised v (pos 0) self.now ≡ []) }
    {
        self.form.vanishes_at_zero(v)
    }

    /// Whether the number for the variable is refused, by the weight.
    pub fn is_too_heavy(&self, v: Var, number: i128) -> bool
        ensures { IsTrue result ↔ (2 ^ 127 ≤ specialised_weight v number self.now) }
    {
        self.form.is_too_heavy(v, number)
    }

    /// Puts 0 for the variable. Each monomial ticks.
    pub fn put_zero<L: Ledger>(&mut self, v: Var, ticks: &mut Ticks<L>)
        ensures put { self.new ≡ specialised v (pos 0) self.old }
        ensures ticks { ticks.new ≡ ticks.old + length self.old }
    {
        self.form.put_zero(v, ticks);
    }

    /// Puts the number for the variable. Each monomial ticks.
    pub fn put_number<L: Ledger>(
        &mut self,
        alloc: Global,
        v: Var,
        number: i128,
        ticks: &mut Ticks<L>,
    ) -> Result<(), NoMemory>
        requires { specialised_weight v number self.old < 2 ^ 127 }
        ensures put { IfOk result (λ _. self.new ≡ specialised v number self.old) }
        ensures ticks { ticks.new ≡ ticks.old + length self.old }
    {
        self.form.put_number(alloc, v, number, ticks)
    }

    /// What the polynomial becomes with the number for the variable, or `None` where that is zero only if
    /// the polynomial is: a single term, or one that stays. Where it is made, each monomial ticks.
    pub fn changed<L: Ledger>(
        &self,
        alloc: Global,
        v: Var,
        number: i128,
        ticks: &mut Ticks<L>,
    ) -> Result<Option<Poly>, NoMemory>
        requires number { unsigned_abs number ≢ 0 }
        requires weight { specialised_weight v number self.now < 2 ^ 127 }
        ensures some { IfOk result
            (λ change. IfSome change (λ p. p ≡ specialised v number self.now)) }
        ensures none { IfOk result (λ change. IfNone change
            ((specialised v number self.now ≡ []) ↔ (self.now ≡ []))) }
        ensures ticks { ticks.new ≤ ticks.old + length self.now }
        ensures waits { IfOk result
            (λ change. ticks.new + waits change self.now ≡ ticks.old + length self.now) }
    {
        self.form.changed(alloc, v, number, ticks)
    }
}
