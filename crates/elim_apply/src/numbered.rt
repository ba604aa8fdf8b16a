//! The numbers of the rows that a move has for the variables of a polynomial.

ghost use Rattle.std.specs.Prelude.{◌≡◌, All, IfOk, length};
ghost use Rattle.std.specs.List.{filter_map};
ghost use Rattle.elim_apply.specs.Kept.{AreKnownRows};
ghost use Rattle.elim_apply.specs.Inner.Sketches.{numbered_row};
ghost use Rattle.fraction_poly.specs.TableRows.{HasPointsBelow};
ghost use Rattle.geo_logs.specs.Moves.{place_of};
ghost use Rattle.geo_logs.specs.Naming.{IsPlaceBelow};

use crate::kept_rows::KnownRows;
use fraction_poly::RowNumbers;
use geo_logs::Move;
use geo_points::NoMemory;
use geo_poly::Var;
use geo_terms::Steps;
use std::alloc::Global;

/// A variable that is replaced, with the numbers of its row.
#[derive(Clone, Copy)]
pub(crate) struct NumberedRow {
    /// The variable.
    pub var: Var,
    /// The numbers of the row.
    pub numbers: RowNumbers,
}

/// The numbers of the rows that the move has, in the order of the variables.
pub(crate) fn numbered_rows(
    alloc: Global,
    steps: &Steps,
    known: &mut KnownRows,
    mv: &Move,
    variables: &[Var],
) -> Result<Vec<NumberedRow>, NoMemory>
    requires place { IsPlaceBelow (length steps.now.steps) (place_of mv.now) }
    requires variables { All (HasPointsBelow (length steps.now.steps)) variables.now }
    requires known { AreKnownRows steps.now known.old }
    ensures rows { IfOk result
        (λ rows. rows.items ≡ filter_map (numbered_row steps.now mv.now) variables.now) }
    ensures known { AreKnownRows steps.now known.new }
{
    let mut numbered = Vec::new(alloc);
    for v in variables {
        let var = *v;
        if let Some(numbers) = known.row_numbers(alloc, steps, mv, var, numbered.len())? {
            numbered.push(NumberedRow { var, numbers })?;
        }
    }
    Ok(numbered)
}
