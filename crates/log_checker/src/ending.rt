//! The polynomial at the end of a chain, and the variable that a start makes known.

ghost use Rattle.std.specs.Prelude.{◌≡◌, ◌<◌, ◌↔◌, IsTrue, length};
ghost use Rattle.sparse_lists.specs.SparseLists.{AllKeys};
ghost use Rattle.geo_logs.specs.Chains.{IsEnd};
ghost use Rattle.geo_logs.specs.Logs.{only_variable};
ghost use Rattle.geo_poly.specs.PolynomialVariables.{IsPlain};
ghost use Rattle.geo_poly.specs.Polynomials.{term_at};

use geo_poly::{Poly, Var};

/// Whether no quantity of points is left in the polynomial.
pub(crate) fn is_end(p: &Poly) -> bool
    ensures { IsTrue result ↔ IsEnd p.now }
{
    for i in 0..p.terms() {
        if !is_term_end(p, i) {
            return false;
        }
    }
    true
}

/// Whether no quantity of points is left in the term at place i.
fn is_term_end(p: &Poly, i: u64) -> bool
    requires { i < length p.now }
    ensures { IsTrue result ↔ AllKeys IsPlain (term_at p.now i).0 }
{
    for j in 0..p.powers(i) {
        let (v, _) = p.power(i, j);
        if !is_plain(v) {
            return false;
        }
    }
    true
}

/// Whether the variable is a coordinate or a parameter.
fn is_plain(v: Var) -> bool
    ensures { IsTrue result ↔ IsPlain v }
{
    matches!(v, Var::X(_) | Var::Y(_) | Var::T(_))
}

/// The variable of which the polynomial is a multiple by a number.
pub(crate) fn own_variable(p: &Poly) -> Option<Var>
    ensures { result ≡ only_variable p.now }
{
    if p.terms() != 1 || p.powers(0) != 1 {
        return None;
    }
    let (v, exponent) = p.power(0, 0);
    if exponent == 1 { Some(v) } else { None }
}
