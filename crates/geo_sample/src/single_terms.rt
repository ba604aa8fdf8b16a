//! Single terms into which numbers are put. Where the variables come in order, each takes a few steps.

ghost use Rattle.std.specs.Prelude.{min, pos, ◌≡◌, ◌≢◌, ◌↔◌, ◌*◌, ◌-◌, ◌^◌, ◌<◌, ◌≤◌, ◌*ℤ◌, drop, length};
ghost use Rattle.std.specs.Prelude.{false, true, unsigned_abs, IfOk, IsTrue, OnOk};
ghost use Rattle.std.specs.Int.{int_pow};
ghost use Rattle.geo_poly.specs.Monomials.{IsMonomial, exponent};
ghost use Rattle.geo_poly.specs.Polynomials.{IsPolynomial, term_at};
ghost use Rattle.geo_poly.specs.Specialise.{specialised_term, without};

use geo_points::NoMemory;
use geo_poly::{MAX, Poly, Var};
use std::alloc::Global;
use std::cmp::Ordering;
use std::marker::Model;

/// A term: its powers in order, of which the first `gone` are no longer part of it, and its coefficient.
#[derive(Drop)]
pub struct SingleTerm {
    powers: Vec<(Var, u32)>,
    gone: usize,
    coefficient: i128,
}

impl Model for SingleTerm {
    ghost use Rattle.std.specs.Prelude.{◌^◌, ◌<◌, ◌≤◌, ℤ, drop, length, unsigned_abs};
    ghost use Rattle.geo_poly.specs.Monomials.{Powers, IsMonomial};

    ghost Value = { Powers × ℤ };

    ghost view = { λ t. (drop t.gone t.powers.items, t.coefficient) };

    ghost invariant = { λ t. IsMonomial t.powers.items × (t.gone ≤ length t.powers.items)
        × (unsigned_abs t.coefficient < 2 ^ 127) };
}

impl SingleTerm {
    /// The term of a polynomial that has one.
    pub fn of(alloc: Global, poly: &Poly) -> Result<SingleTerm, NoMemory>
        requires { length poly.now ≡ 1 }
        ensures { IfOk result (λ t. t ≡ term_at poly.now 0) }
    {
        prove!(poly.is_valid());
        let (powers, coefficient) = first_term(alloc, poly)?;
        Ok(SingleTerm {
            powers,
            gone: 0,
            coefficient,
        })
    }

    /// True: each term meets the clauses `monomial` and `fits`, which contracts then know.
    pub fn is_valid(&self) -> bool
        ensures monomial { IsMonomial self.now.0 }
        ensures fits { unsigned_abs self.now.1 < 2 ^ 127 }
        ensures always { IsTrue result }
    {
        let _ = &self.coefficient;
        true
    }

    /// The coefficient.
    pub fn coefficient(&self) -> i128
        ensures { result ≡ self.now.1 }
    {
        self.coefficient
    }

    /// The powers.
    fn left(&self) -> &[(Var, u32)]
        ensures powers { result.now ≡ self.now.0 }
        ensures monomial { IsMonomial result.now }
    {
        let (_, left) = self.powers.split_at(self.gone);
        left
    }

    /// The exponent of the variable, and 0 where it is absent.
    pub fn exponent(&self, v: Var) -> u32
        ensures { result ≡ exponent v self.now.0 }
    {
        exponent_in(self.left(), v)
    }

    /// Whether the number for the variable is refused, by the weight.
    pub fn is_too_heavy(&self, v: Var, number: i128) -> bool
        ensures { IsTrue result ↔ (2 ^ 127
            ≤ unsigned_abs self.now.1 * unsigned_abs number ^ exponent v self.now.0) }
    {
        weight(self.coefficient(), number, self.exponent(v)) > MAX as u128
    }

    /// Makes the coefficient 0.
    fn clear(&mut self)
        ensures { self.new ≡ (self.old.0, pos 0) }
    {
        self.coefficient = 0;
    }

    /// Makes the coefficient 0 where the term has the variable.
    pub fn put_zero(&mut self, v: Var)
        ensures has { exponent v self.old.0 ≢ 0 → self.new ≡ (self.old.0, pos 0) }
        ensures lacks { exponent v self.old.0 ≡ 0 → self.new ≡ self.old }
    {
        if self.exponent(v) != 0 {
            self.clear();
        }
    }

    /// Puts the number for the variable, where the coefficient is not 0.
    pub fn put_number(&mut self, alloc: Global, v: Var, number: i128) -> Result<(), NoMemory>
        requires { unsigned_abs self.old.1 * unsigned_abs number ^ exponent v self.old.0 < 2 ^ 127 }
        ensures zero { OnOk result (unsigned_abs self.old.1 ≡ 0 → self.new ≡ self.old) }
        ensures put { OnOk result
            (unsigned_abs self.old.1 ≢ 0 → self.new ≡ specialised_term v number self.old) }
    {
        prove!(self.is_valid());
        let exponent = self.exponent(v);
        if self.coefficient() != 0 && exponent != 0 {
            self.take_out(alloc, v)?;
            self.multiply(number, exponent);
        }
        Ok(())
    }

    /// Multiplies the coefficient by `z` to the power `e`.
    fn multiply(&mut self, z: i128, e: u32)
        requires nonzero { unsigned_abs self.old.1 ≢ 0 }
        requires fits { unsigned_abs self.old.1 * unsigned_abs z ^ e < 2 ^ 127 }
        ensures { self.new ≡ (self.old.0, self.old.1 *ℤ int_pow z e) }
    {
        self.coefficient = times_power(self.coefficient, z, e);
    }

    /// Takes the power of the variable out, which mostly is the first.
    fn take_out(&mut self, alloc: Global, v: Var) -> Result<(), NoMemory>
        ensures { OnOk result (self.new ≡ (without v self.old.0, self.old.1)) }
    {
        if is_first(self.left(), v) {
            self.drop_first();
            return Ok(());
        }
        let others = without(alloc, self.left(), v)?;
        self.replace(others);
        Ok(())
    }

    /// Lets the first power go.
    fn drop_first(&mut self)
        requires { 0 < length self.old.0 }
        ensures { self.new ≡ (drop 1 self.old.0, self.old.1) }
    {
        self.gone += 1;
    }

    /// Takes other powers.
    fn replace(&mut self, powers: Vec<(Var, u32)>)
        requires { IsMonomial powers.items }
        ensures { self.new ≡ (powers.items, self.old.1) }
    {
        self.powers = powers;
        self.gone = 0;
    }
}

/// The powers and the coefficient of the first term.
fn first_term(alloc: Global, poly: &Poly) -> Result<(Vec<(Var, u32)>, i128), NoMemory>
    requires { 0 < length poly.now }
    ensures { IfOk result (λ t. (t.0.items, t.1) ≡ term_at poly.now 0) }
{
    let p = poly.shared();
    let (mut rest, coefficient) = p.term(0);
    let mut powers = Vec::new(alloc);
    while let Some(first) = p.first_power(rest) {
        powers.push((first.var, first.exponent))?;
        rest = first.rest;
    }
    Ok((powers, coefficient))
}

/// Whether the variable is that of the first power.
fn is_first(powers: &[(Var, u32)], v: Var) -> bool
    requires { IsMonomial powers.now }
    ensures some { result ≡ true → 0 < length powers.now }
    ensures others { result ≡ true → drop 1 powers.now ≡ without v powers.now }
{
    match powers {
        [] => false,
        [(first, _), ..] => *first == v,
    }
}

/// The exponent of the variable, and 0 where it is absent. It is looked for only behind the first power.
fn exponent_in(powers: &[(Var, u32)], v: Var) -> u32
    requires { IsMonomial powers.now }
    ensures { result ≡ exponent v powers.now }
{
    match powers {
        [] => 0,
        [(first, exponent), ..] => match v.cmp(first) {
            Ordering::Less => 0,
            Ordering::Equal => *exponent,
            Ordering::Greater => exponent_behind(powers, v),
        },
    }
}

/// The same by a walk.
fn exponent_behind(powers: &[(Var, u32)], v: Var) -> u32
    requires { IsMonomial powers.now }
    ensures { result ≡ exponent v powers.now }
{
    let mut total = 0;
    for (w, e) in powers {
        if v == *w {
            total += *e;
        }
    }
    total
}

/// The powers of the other variables.
fn without(alloc: Global, powers: &[(Var, u32)], v: Var) -> Result<Vec<(Var, u32)>, NoMemory>
    ensures { IfOk result (λ others. others.items ≡ without v powers.now) }
{
    let mut others = Vec::new(alloc);
    for (w, e) in powers {
        if v != *w {
            others.push((*w, *e))?;
        }
    }
    Ok(others)
}

/// The absolute value of `c` times `z` to the power `e`, or the greatest number where it passes it.
fn weight(c: i128, z: i128, e: u32) -> u128
    ensures { result ≡ min (unsigned_abs c * unsigned_abs z ^ e) (2 ^ 128 - 1) }
{
    let power = z.unsigned_abs().saturating_pow(e);
    c.unsigned_abs().saturating_mul(power)
}

/// `c` times `z` to the power `e`.
fn times_power(c: i128, z: i128, e: u32) -> i128
    requires nonzero { unsigned_abs c ≢ 0 }
    requires fits { unsigned_abs c * unsigned_abs z ^ e < 2 ^ 127 }
    ensures { result ≡ c *ℤ int_pow z e }
{
    c * z.pow(e)
}
