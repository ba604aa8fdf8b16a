//! The variable that a condition makes known.

ghost use Rattle.std.specs.Prelude.{◌≡◌};
ghost use Rattle.geo_logs.specs.Logs.{only_variable};

use geo_poly::{Poly, Var};

/// The variable of which the polynomial is a multiple by a number, if it is one.
pub fn sole_variable(q: &Poly) -> Option<Var>
    ensures { result ≡ only_variable q.now }
{
    if q.terms() != 1 || q.powers(0) != 1 {
        return None;
    }
    let (v, exponent) = q.power(0, 0);
    if exponent == 1 { Some(v) } else { None }
}
