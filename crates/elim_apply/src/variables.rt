//! The variables of a polynomial.

ghost use Rattle.std.specs.Prelude.{◌≡◌, IfOk};
ghost use Rattle.geo_poly.specs.PolynomialVariables.{variables_of};

use geo_points::NoMemory;
use geo_poly::{Poly, Var};
use std::alloc::Global;

/// The variables of a polynomial, in order.
pub(crate) fn variables_of(alloc: Global, poly: &Poly) -> Result<Vec<Var>, NoMemory>
    ensures { IfOk result (λ found. found.items ≡ variables_of poly.now) }
{
    let variables = poly.variables(alloc)?;
    Ok(variables.items)
}
