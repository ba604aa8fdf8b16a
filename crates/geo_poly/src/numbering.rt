//! The number of a variable in a polynomial that mostly lacks it.

ghost use Rattle.std.specs.Prelude.{◌≡◌, ◌<◌, length, true, IfNone, IfSome};
ghost use Rattle.geo_poly.specs.Polynomials.{IsPolynomial};
ghost use Rattle.geo_poly.specs.Shared.{AreParts, told, var_at};
ghost use Rattle.geo_poly.specs.Specialise.{degree_in};

use crate::poly::Poly;
use crate::shared::Shared;
use crate::variable_places::find_place;
use crate::variables::Var;
use std::cmp::Ordering;

impl Poly {
    /// Whether no monomial has a variable: the first one, which is the greatest, has none.
    pub(crate) fn is_number(&self) -> bool
        ensures lacks { result ≡ true → (v : Var) → degree_in v self.now ≡ 0 }
        ensures valid { IsPolynomial self.now }
    {
        let p = self.shared();
        if p.list.len() == 0 {
            return true;
        }
        p.list[0].0.0 == p.monos.one().0
    }
}

/// The number of the variable; none only where no monomial has the variable. The first monomial is
/// the greatest: no other has a variable before its first one.
pub(crate) fn number_in(p: &Shared, v: Var) -> Option<u64>
    requires { AreParts p.now }
    ensures within { IfSome result (λ k. k < length p.now.vars.now) }
    ensures variable { IfSome result (λ k. var_at p.now.vars.now k ≡ v) }
    ensures none { IfNone result (degree_in v (told p.now) ≡ 0) }
{
    if p.list.len() == 0 {
        return None;
    }
    let first = match p.first_power(p.list[0].0) {
        Some(first) => first,
        None => return None,
    };
    match v.cmp(&first.var) {
        Ordering::Less => None,
        Ordering::Equal => Some(first.number),
        Ordering::Greater => find_place(p.vars, v, first.number.saturating_add(1)),
    }
}
