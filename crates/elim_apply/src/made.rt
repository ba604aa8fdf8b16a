//! The rows of a line multiplied out.

ghost use Rattle.std.specs.Prelude.{◌≡◌, ◌≢◌, [], All, IfOk, Some, length, map};
ghost use Rattle.elim_apply.specs.Kept.{AreKnownRows, CanBeMade, IsRowOf};
ghost use Rattle.elim_apply.specs.LemmaTable.{lemma_table};
ghost use Rattle.geo_logs.specs.Moves.{place_of};
ghost use Rattle.geo_logs.specs.Naming.{IsPlaceBelow};
ghost use Rattle.geo_terms.specs.Constructions.{Construction};

use crate::kept_rows::KnownRows;
use crate::numbered::NumberedRow;
use geo_logs::{Move, RowList};
use geo_points::NoMemory;
use geo_poly::Piece;
use geo_terms::Steps;
use std::alloc::Global;

/// The rows multiplied out, and their denominator, which they share.
pub(crate) fn made_rows(
    alloc: Global,
    steps: &Steps,
    known: &mut KnownRows,
    mv: &Move,
    numbered: &[NumberedRow],
) -> Result<(RowList, Piece), NoMemory>
    requires place { IsPlaceBelow (length steps.now.steps) (place_of mv.now) }
    requires some { numbered.now ≢ [] }
    requires rows { All (λ n. CanBeMade steps.now mv.now n.var) numbered.now }
    requires known { AreKnownRows steps.now known.old }
    ensures rows { IfOk result (λ made. map Some made.0
        ≡ map (λ n. lemma_table.row steps.now mv.now n.var) numbered.now) }
    ensures den { IfOk result (λ made. made.1 ≡ lemma_table.denominator steps.now mv.now) }
    ensures known { AreKnownRows steps.now known.new }
{
    let mut items = Vec::with_capacity(alloc, numbered.len())?;
    for row in numbered {
        known.take_row(alloc, steps, mv, row.var, &mut items)?;
    }
    let den = known.take_denominator(alloc, steps, mv, numbered[0].var)?;
    Ok((RowList { items }, den))
}

/// Keeps the rows and their denominator for later lines.
pub(crate) fn put_back(known: &mut KnownRows, mv: &Move, rows: RowList, den: Piece)
    ensures { (c : Construction) → AreKnownRows c known.old → All (IsRowOf c mv.now) rows
        → den ≡ lemma_table.denominator c mv.now → AreKnownRows c known.new }
{
    if let Some(row) = rows.items.first() {
        known.put_denominator(mv, row.var, den);
    }
    let mut nth: usize = 0;
    for row in rows.items {
        known.put_row(mv, row, nth);
        nth = nth.wrapping_add(1);
    }
}
