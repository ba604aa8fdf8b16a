//! Reading terms, polynomials and values.

ghost use Rattle.std.specs.Prelude.{◌≡◌, ◌≢◌, ◌↔◌, ◌^◌, ◌<◌, ◌≤◌, false, true, [], ◌∷◌, ◌++◌};
ghost use Rattle.std.specs.Prelude.{unsigned_abs, slice_get, IsTrue, IsNone, IfSome, IfOk, IsErrOf};
ghost use Rattle.std.specs.Prelude.{Some};
ghost use Rattle.std.specs.declared.cmp.Ordering.TheVariants.{Less};
ghost use Rattle.geo_poly.specs.Monomials.{IsEarlier, degree_of};
ghost use Rattle.geo_poly.specs.Polynomials.{norm_of};
ghost use Rattle.geo_poly.specs.Variables.{var_cmp};
ghost use Rattle.proof_log.specs.Writable.{CanWriteMonomial, CanWritePolynomial};
ghost use Rattle.proof_log.specs.Inner.Reading.{Begins, BeginsWith, NoneBegins, StopsAt, factors};
ghost use Rattle.proof_log.specs.Inner.Reading.{is_power_byte, polynomials, powers_after};
ghost use Rattle.proof_log.specs.Inner.Reading.{single_values, terms, value_lists};
ghost use Rattle.proof_log.specs.Inner.Growing.{PushesPower, PushesTerm, RefusesPower, RefusesTerm};
ghost use Rattle.proof_log.specs.Inner.Growing.{last_of};

use crate::errors::LineError;
use crate::reader::{Reader, is_power_byte};
use geo_poly::lists::{Factors, Values};
use geo_poly::{Factor, MAX, MAX_DEGREE, Poly, Var};
use std::alloc::Global;
use std::cmp::Ordering;

impl<'a> Reader<'a> {
    // A power that may stand behind those of the factor, whose degree is told.
    fn push_power(&mut self, factor: &mut Factor, degree: u32) -> Result<u32, LineError>
        requires degree { degree ≡ degree_of factor.old.0 }
        requires written { CanWriteMonomial factor.old.0 }
        ensures read { IfOk result (PushesPower self.old self.new factor.old factor.new) }
        ensures bad { IsErrOf result LineError.BadLine → RefusesPower self.old factor.old.0 }
    {
        let (variable, exponent) = self.power().ok_or(LineError::BadLine)?;
        if exponent > MAX_DEGREE - degree || !is_behind(factor, variable) {
            return Err(LineError::BadLine);
        }
        factor.times(variable, exponent)?;
        Ok(degree + exponent)
    }

    // The powers behind a number that is not 0.
    fn powers(&mut self, alloc: Global, number: i128) -> Result<Factor, LineError>
        requires nonzero { unsigned_abs number ≢ 0 }
        requires fits { unsigned_abs number < 2 ^ 127 }
        ensures number { IfOk result (λ f. f.1 ≡ number) }
        ensures read { IfOk result (λ f. Begins (powers_after []) self.old f.0 self.new) }
        ensures bad { IsErrOf result LineError.BadLine → NoneBegins (powers_after []) self.old }
    {
        let mut factor = Factor::new(alloc, number)?;
        let mut degree = 0;
        while self.is_next(b'*') {
            degree = self.push_power(&mut factor, degree)?;
        }
        if self.goes_on() {
            return Err(LineError::BadLine);
        }
        Ok(factor)
    }

    // Whether a byte follows that may not stand behind powers.
    fn goes_on(&self) -> bool
        ensures stops { result ≡ false → StopsAt is_power_byte self.now }
        ensures more { result ≡ true → BeginsWith is_power_byte self.now }
    {
        match self.rest() {
            [first, ..] => is_power_byte(*first),
            [] => false,
        }
    }

    // A term of a polynomial.
    fn term(&mut self, alloc: Global) -> Result<Factor, LineError>
        ensures read { IfOk result (λ t. Begins terms self.old t self.new) }
        ensures bad { IsErrOf result LineError.BadLine → NoneBegins terms self.old }
    {
        let number = self.coefficient().ok_or(LineError::BadLine)?;
        self.powers(alloc, number)
    }

    /// A factor.
    pub fn factor(&mut self, alloc: Global) -> Result<Factor, LineError>
        ensures read { IfOk result (λ t. Begins factors self.old t self.new) }
        ensures bad { IsErrOf result LineError.BadLine → NoneBegins factors self.old }
    {
        let number = self.integer().ok_or(LineError::BadLine)?;
        if number == 0 {
            return Err(LineError::BadLine);
        }
        self.powers(alloc, number)
    }

    // A term that may stand behind those of the list, whose norm is told.
    fn push_term(
        &mut self,
        alloc: Global,
        list: &mut Factors,
        norm: u128,
    ) -> Result<u128, LineError>
        requires norm { norm ≡ norm_of list.old }
        requires written { CanWritePolynomial list.old }
        ensures read { IfOk result (PushesTerm self.old self.new list.old list.new) }
        ensures bad { IsErrOf result LineError.BadLine → RefusesTerm self.old list.old }
    {
        let term = self.term(alloc)?;
        let size = term.coef().unsigned_abs();
        if size > MAX as u128 - norm || !is_after(list, &term) {
            return Err(LineError::BadLine);
        }
        list.items.push(term)?;
        Ok(norm + size)
    }

    // The terms of a polynomial that is not zero, up to the end of the line.
    fn all_terms(&mut self, alloc: Global) -> Result<Factors, LineError>
        requires { self.old ≡ 48 ∷ [] → ⊥ }
        ensures read { IfOk result (λ list. Begins polynomials self.old list []) }
        ensures bad { IsErrOf result LineError.BadLine → NoneBegins polynomials self.old }
    {
        let mut list = Factors {
            items: Vec::new(alloc),
        };
        let mut norm = self.push_term(alloc, &mut list, 0)?;
        while !self.is_at_end() {
            self.literal(b" ").ok_or(LineError::BadLine)?;
            norm = self.push_term(alloc, &mut list, norm)?;
        }
        Ok(list)
    }

    /// A polynomial, up to the end of the line.
    pub fn polynomial(&mut self, alloc: Global) -> Result<Poly, LineError>
        ensures read { IfOk result (λ q. Begins polynomials self.old q []) }
        ensures bad { IsErrOf result LineError.BadLine → NoneBegins polynomials self.old }
    {
        if self.is_rest(b"0") {
            return Ok(Poly::zero(alloc));
        }
        let list = self.all_terms(alloc)?;
        Ok(Poly::gather(alloc, &list)?)
    }

    // A value, with the space before it.
    fn value(&mut self) -> Option<(Var, i128)>
        ensures some { IfSome result (λ v. Begins single_values self.old v self.new) }
        ensures none { IsNone result → NoneBegins single_values self.old }
    {
        self.literal(b" ")?;
        let variable = self.variable()?;
        self.literal(b"=")?;
        let number = self.integer()?;
        Some((variable, number))
    }

    /// Values, up to the end of the line.
    pub fn values(&mut self, alloc: Global) -> Result<Values, LineError>
        ensures read { IfOk result (λ values. Begins value_lists self.old values []) }
        ensures bad { IsErrOf result LineError.BadLine → NoneBegins value_lists self.old }
    {
        let mut items = Vec::new(alloc);
        while !self.is_at_end() {
            let value = self.value().ok_or(LineError::BadLine)?;
            items.push(value)?;
        }
        Ok(Values { items })
    }
}

// Whether the variable is later than those of the factor.
fn is_behind(factor: &Factor, variable: Var) -> bool
    ensures { IsTrue result ↔ IfSome (last_of factor.now.0) (λ p. var_cmp p.0 variable ≡ Less) }
{
    let count = factor.powers();
    if count == 0 {
        return true;
    }
    let (last, _) = factor.power(count - 1);
    last.cmp(&variable) == Ordering::Less
}

// Whether the term stands behind those of the list.
fn is_after(list: &Factors, term: &Factor) -> bool
    ensures { IsTrue result ↔ IfSome (last_of list.now) (λ t. IsEarlier t.0 term.now.0) }
{
    match list.items.last() {
        Some(last) => last.before(term),
        None => true,
    }
}
