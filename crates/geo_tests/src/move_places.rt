//! Tests of what a move asks for: points that are there.

ghost use Rattle.std.specs.Prelude.{◌<◌, All, IfOk, IsTrue, length};
ghost use Rattle.geo_logs.specs.Moves.{place_of};
ghost use Rattle.geo_logs.specs.Naming.{IsPlaceBelow};
ghost use Rattle.fraction_poly.specs.TableRows.{HasPointsBelow};
ghost use Rattle.geo_poly.specs.PolynomialVariables.{AllVariables};

use elim_apply::Move;
use geo_points::NoMemory;
use geo_poly::{Poly, Var};
use geo_terms::Steps;
use std::alloc::Global;

// Whether all points of the variable are below n.
pub fn is_below(var: Var, n: u32) -> bool
    ensures { IsTrue result → HasPointsBelow n var }
{
    match var {
        Var::R(a, b, c, d) => a.0 < n && b.0 < n && c.0 < n && d.0 < n,
        Var::S(a, b, c) => a.0 < n && b.0 < n && c.0 < n,
        Var::P(a, b, c) => a.0 < n && b.0 < n && c.0 < n,
        Var::X(a) => a.0 < n,
        Var::Y(a) => a.0 < n,
        Var::T(_) => true,
    }
}

// Whether all points of the variables are below n.
fn are_below(variables: &[Var], n: u32) -> bool
    ensures { IsTrue result → All (HasPointsBelow n) variables.now }
{
    for v in variables {
        if !is_below(*v, n) {
            return false;
        }
    }
    true
}

// Whether the steps make all points of the polynomial's variables.
pub fn has_points(alloc: Global, steps: &Steps, poly: &Poly) -> Result<bool, NoMemory>
    ensures { IfOk result (λ has. IsTrue has
        → AllVariables (HasPointsBelow (length steps.now.steps)) poly.now) }
{
    let count = steps.count();
    let variables = poly.variables(alloc)?;
    Ok(are_below(&variables.items, count))
}

// Whether the point that the move looks at, where it looks at one, is below n.
pub fn is_placed(mv: Move, n: u32) -> bool
    ensures { IsTrue result → IsPlaceBelow n (place_of mv) }
{
    match mv {
        Move::Ratio { lemma, at, .. } => lemma == 0 || at.0 < n,
        Move::Point(at) => at.0 < n,
        Move::Coords => true,
    }
}
