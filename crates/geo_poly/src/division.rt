//! Division by what divides a polynomial.
ghost use Rattle.std.specs.Prelude.{◌≡◌, ◌≢◌, ◌↔◌, ◌^◌, ◌<◌, ℕ, ℤ, ◌*ℤ◌, pos, List, [], ◌∷◌};
ghost use Rattle.std.specs.Prelude.{length, unsigned_abs, Contains, IfOk, IfSome, IfNone, IsTrue};
ghost use Rattle.std.specs.Int.{◌∣◌};
ghost use Rattle.sparse_lists.specs.SparseLists.{AllKeys};
ghost use Rattle.geo_poly.specs.declared.variables.Var.{Var};
ghost use Rattle.geo_poly.specs.Monomials.{Powers, IsMonomial, exponent};
ghost use Rattle.geo_poly.specs.Polynomials.{Summands, IsPolynomial, multiples, norm_of};
ghost use Rattle.geo_poly.specs.Polynomials.{product_of};
ghost use Rattle.geo_poly.specs.Factors.{DividesAll, IsFactorOf, IsLeastExponent};
ghost use Rattle.geo_poly.specs.Shared.{AreParts, IsIndexOf, terms_of, told};

use crate::exact_quotients::exact_quotient;
use crate::factors::Factor;
use crate::monomials::Monomial;
use crate::poly::Poly;
use crate::reading::{exponent_at, monomial_at};
use crate::shared::{Indexed, Shared};
use crate::terms::Term;
use crate::variables::Var;
use crate::word_division::{word_divisor, word_quotients};
use frac_laws::gcd;
use geo_points::NoMemory;
use std::alloc::Global;

impl Poly {
    /// The greatest common divisor of the coefficients, with the sign of the first, times each
    /// known variable to its least exponent.
    pub fn cut(&self, alloc: Global, known: &[Var]) -> Result<Factor, NoMemory>
        requires { self.now ≢ [] }
        ensures { IfOk result (λ f. IsFactorOf known.now self.now f) }
    {
        factor_of(alloc, &self.shared(), known)
    }

    /// The polynomial that gives this one when multiplied by the factor, where there is such a one.
    pub fn divide(&self, alloc: Global, by: &Factor) -> Result<Option<Poly>, NoMemory>
        ensures some { IfOk result (λ o. IfSome o (λ q. product_of (by.now ∷ []) q ≡ self.now)) }
        ensures polynomial { IfOk result (λ o. IfSome o IsPolynomial) }
        ensures none { IfOk result (λ o. IfNone o
            ((q : Summands) → IsPolynomial q → product_of (by.now ∷ []) q ≡ self.now → ⊥)) }

        // The same of the list of multiples, for each list of terms.
        ensures multiples { IfOk result (λ o. IfSome o (λ q. multiples by.now q ≡ self.now)) }
        ensures no_multiples { IfOk result
            (λ o. IfNone o ((q : Summands) → multiples by.now q ≡ self.now → ⊥)) }
    {
        if by.monomial.powers().is_empty() {
            return self.over_number(alloc, by);
        }
        if let Some(quotient) = self.over_power(alloc, by)? {
            return Ok(Some(quotient));
        }
        self.over_terms(alloc, by)
    }

    /// The same for a factor of one power, where the monomials are words and each has a quotient
    /// that is one. An answer `None` says nothing.
    fn over_power(&self, alloc: Global, by: &Factor) -> Result<Option<Poly>, NoMemory>
        ensures some { IfOk result (λ o. IfSome o (λ q. product_of (by.now ∷ []) q ≡ self.now)) }
        ensures polynomial { IfOk result (λ o. IfSome o IsPolynomial) }
        ensures multiples { IfOk result (λ o. IfSome o (λ q. multiples by.now q ≡ self.now)) }
    {
        let p = self.shared();
        let Some(divisor) = word_divisor(&p, by.monomial.powers()) else {
            return Ok(None);
        };
        match word_quotients(alloc, &p, divisor, by.coefficient)? {
            Some(list) => Ok(Some(Poly::over(alloc, &p, list)?)),
            None => Ok(None),
        }
    }

    /// The same term by term.
    fn over_terms(&self, alloc: Global, by: &Factor) -> Result<Option<Poly>, NoMemory>
        ensures some { IfOk result (λ o. IfSome o (λ q. product_of (by.now ∷ []) q ≡ self.now)) }
        ensures polynomial { IfOk result (λ o. IfSome o IsPolynomial) }
        ensures none { IfOk result (λ o. IfNone o
            ((q : Summands) → IsPolynomial q → product_of (by.now ∷ []) q ≡ self.now → ⊥)) }
        ensures multiples { IfOk result (λ o. IfSome o (λ q. multiples by.now q ≡ self.now)) }
        ensures no_multiples { IfOk result
            (λ o. IfNone o ((q : Summands) → multiples by.now q ≡ self.now → ⊥)) }
    {
        let terms = self.to_terms(alloc)?;
        match quotients(alloc, &terms, &by.monomial, by.coefficient)? {
            Some(quotient) => Ok(Some(Poly::from_terms(alloc, &quotient)?)),
            None => Ok(None),
        }
    }

    /// The same for a factor that has no variable: the monomials stay.
    fn over_number(&self, alloc: Global, by: &Factor) -> Result<Option<Poly>, NoMemory>
        requires { by.now.0 ≡ [] }
        ensures some { IfOk result (λ o. IfSome o (λ q. product_of (by.now ∷ []) q ≡ self.now)) }
        ensures polynomial { IfOk result (λ o. IfSome o IsPolynomial) }
        ensures none { IfOk result (λ o. IfNone o
            ((q : Summands) → IsPolynomial q → product_of (by.now ∷ []) q ≡ self.now → ⊥)) }
        ensures multiples { IfOk result (λ o. IfSome o (λ q. multiples by.now q ≡ self.now)) }
        ensures no_multiples { IfOk result
            (λ o. IfNone o ((q : Summands) → multiples by.now q ≡ self.now → ⊥)) }
    {
        let p = self.shared();
        match number_quotients(alloc, &p, by.coefficient)? {
            Some(list) => Ok(Some(Poly::over(alloc, &p, list)?)),
            None => Ok(None),
        }
    }
}

/// The list that gives the terms when each coefficient is multiplied, where there is such a one.
fn number_quotients(
    alloc: Global,
    p: &Shared,
    number: i128,
) -> Result<Option<Vec<Indexed>>, NoMemory>
    requires nonzero { unsigned_abs number ≢ 0 }
    requires parts { AreParts p.now }
    ensures some { IfOk result (λ o. IfSome o (λ list. multiples ([], number)
        (terms_of p.now.vars.now p.now.monos.now list.items) ≡ told p.now)) }
    ensures indices { IfOk result
        (λ o. IfSome o (λ list. AllKeys (IsIndexOf p.now) list.items)) }
    ensures monomials { IfOk result (λ o. IfSome o (λ list.
        AllKeys IsMonomial (terms_of p.now.vars.now p.now.monos.now list.items))) }
    ensures none { IfOk result
        (λ o. IfNone o ((q : Summands) → multiples ([], number) q ≡ told p.now → ⊥)) }
{
    let mut list = Vec::with_capacity(alloc, p.list.len())?;
    for (id, coefficient) in p.list {
        match exact_quotient(*coefficient, number) {
            Some(quotient) => list.push((*id, quotient))?,
            None => return Ok(None),
        }
    }
    Ok(Some(list))
}

/// The greatest common divisor of the coefficients, with the sign of the first, times each known
/// variable to its least exponent.
fn factor_of(alloc: Global, p: &Shared, known: &[Var]) -> Result<Factor, NoMemory>
    requires some { told p.now ≢ [] }
    requires parts { AreParts p.now }
    ensures { IfOk result (λ f. IsFactorOf known.now (told p.now) f) }
{
    let divisor = content(p);
    let coefficient = if p.list[0].1 < 0 { -divisor } else { divisor };
    let monomial = common_monomial(alloc, p, known)?;
    Ok(Factor {
        coefficient,
        monomial,
    })
}

/// The greatest common divisor of the coefficients.
fn content(p: &Shared) -> i128
    requires { norm_of (told p.now) < 2 ^ 127 }
    ensures positive { result ≡ pos (unsigned_abs result) }
    ensures divides { DividesAll (unsigned_abs result) (told p.now) }
    ensures greatest { (d : ℕ) → DividesAll d (told p.now) → d ∣ unsigned_abs result }
{
    let mut divisor = 0;
    let mut i = 0;
    while i < p.list.len() && divisor != 1 {
        divisor = gcd(p.list[i].1, divisor);
        i += 1;
    }
    divisor
}

/// The known variables, each to its least exponent.
fn common_monomial(alloc: Global, p: &Shared, known: &[Var]) -> Result<Monomial, NoMemory>
    requires some { 0 < length p.now.list.now }
    requires parts { AreParts p.now }
    ensures monomial { IfOk result IsMonomial }
    ensures known { IfOk result (λ m. (v : Var) → Contains known.now v
        → IsLeastExponent v (told p.now) (exponent v m)) }
    ensures others { IfOk result
        (λ m. (v : Var) → (Contains known.now v → ⊥) → exponent v m ≡ 0) }
{
    let first = monomial_at(alloc, p, p.list[0].0)?;
    let mut common = Monomial::one(alloc);
    for (v, _) in first.powers() {
        if is_known(known, *v) {
            let least = least_exponent(p, *v);
            if least > 0 {
                common.push(*v, least)?;
            }
        }
    }
    Ok(common)
}

fn is_known(known: &[Var], v: Var) -> bool
    ensures { IsTrue result ↔ Contains known.now v }
{
    known.contains(&v)
}

/// The least exponent of a variable over the monomials.
fn least_exponent(p: &Shared, v: Var) -> u32
    requires some { 0 < length p.now.list.now }
    requires parts { AreParts p.now }
    ensures { IsLeastExponent v (told p.now) result }
{
    let mut i = p.list.len() - 1;
    let mut least = exponent_at(p, p.list[i].0, v);
    while i > 0 && least > 0 {
        i -= 1;
        least = least.min(exponent_at(p, p.list[i].0, v));
    }
    least
}

/// The list that gives the terms when each is multiplied, where there is such a one.
fn quotients(
    alloc: Global,
    terms: &[Term],
    monomial: &Monomial,
    coefficient: i128,
) -> Result<Option<Vec<Term>>, NoMemory>
    requires nonzero { unsigned_abs coefficient ≢ 0 }
    requires norm { norm_of terms.now < 2 ^ 127 }
    ensures some { IfOk result
        (λ o. IfSome o (λ q. multiples (monomial.now, coefficient) q.items ≡ terms.now)) }
    ensures monomials { IfOk result (λ o. IfSome o (λ q. AllKeys IsMonomial q.items)) }
    ensures none { IfOk result
        (λ o. IfNone o ((q : Summands) → multiples (monomial.now, coefficient) q ≡ terms.now → ⊥)) }
{
    let mut rest = Vec::new(alloc);
    for term in terms {
        let quotient = match exact_quotient(term.1, coefficient) {
            Some(quotient) => quotient,
            None => return Ok(None),
        };
        match term.0.over(alloc, monomial)? {
            Some(over) => rest.push((over, quotient))?,
            None => return Ok(None),
        }
    }
    Ok(Some(rest))
}
