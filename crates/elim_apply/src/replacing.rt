//! What a move replaces.

ghost use Rattle.std.specs.Prelude.{◌≡◌, IfOk};
ghost use Rattle.elim_apply.specs.LemmaTable.{lemma_table};
ghost use Rattle.elim_apply.specs.Replacements.{CanMove};
ghost use Rattle.geo_logs.specs.Moves.{replacement};
ghost use Rattle.geo_poly.specs.Polynomials.{IsPolynomial, Summands};
ghost use Rattle.geo_poly.specs.PolynomialVariables.{variables_of};

use crate::kept_rows::KnownRows;
use crate::made::made_rows;
use crate::numbered::numbered_rows;
use geo_logs::{Move, Replacement};
use geo_points::NoMemory;
use geo_poly::Var;
use geo_terms::Steps;
use std::alloc::Global;

/// What the move replaces in a polynomial with these variables, multiplied out. It replaces
/// something, and its line is within the limits of size.
pub fn replacement_of(
    alloc: Global,
    steps: &Steps,
    variables: &[Var],
    mv: &Move,
) -> Result<Replacement, NoMemory>
    requires { (q : Summands) × (variables.now ≡ variables_of q) × IsPolynomial q
        × CanMove steps.now q mv.now }
    ensures { (q : Summands) → variables.now ≡ variables_of q → CanMove steps.now q mv.now
        → IfOk result (λ made. made ≡ replacement lemma_table steps.now mv.now q) }
{
    let mut known = KnownRows::new(alloc)?;
    let numbered = numbered_rows(alloc, steps, &mut known, mv, variables)?;
    let (rows, den) = made_rows(alloc, steps, &mut known, mv, &numbered)?;
    // All rows of a move have one charge.
    let charge = numbered[0].numbers.charge;
    Ok(Replacement { rows, den, charge })
}
