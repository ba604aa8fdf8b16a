//! The row that a move has for a variable, as it is written.

ghost use Rattle.std.specs.Prelude.{◌≡◌, ◌<◌, IfOk, length, option_map};
ghost use Rattle.std.specs.Option.{ForSome};
ghost use Rattle.elim_apply.specs.LemmaTable.{row_of_move};
ghost use Rattle.fraction_poly.specs.Inner.Drafts.{HasItsNumbers, row_of_draft};
ghost use Rattle.fraction_poly.specs.TableRows.{HasPointsBelow};
ghost use Rattle.geo_logs.specs.Moves.{place_of};
ghost use Rattle.geo_logs.specs.Naming.{IsPlaceBelow};

use area_coords::CoordRows;
use elim_area::AreaRows;
use elim_pyth::PythRows;
use elim_ratio::RatioRows;
use fraction_poly::{RowDraft, Rows};
use geo_logs::Move;
use geo_points::{NoMemory, PointId};
use geo_poly::Var;
use geo_terms::Steps;
use std::alloc::Global;

/// The point that a move on coordinates hands over, which is not looked at.
const NO_POINT: PointId = PointId(0);

/// The row of a variable as it is written, where the move replaces it.
pub(crate) fn draft_of(
    alloc: Global,
    steps: &Steps,
    mv: &Move,
    var: Var,
) -> Result<Option<RowDraft>, NoMemory>
    requires place { IsPlaceBelow (length steps.now.steps) (place_of mv.now) }
    requires var { HasPointsBelow (length steps.now.steps) var }
    ensures row { IfOk result (λ o. option_map (row_of_draft steps.now.nodes) o
        ≡ row_of_move steps.now mv.now var) }
    ensures numbers { IfOk result (λ o. ForSome o (HasItsNumbers steps.now.nodes)) }
{
    match *mv {
        Move::Ratio {
            var: own,
            lemma,
            at,
        } => {
            if own != var {
                return Ok(None);
            }
            RatioRows { lemma }.draft(alloc, steps, at, var)
        }
        Move::Point(at) => match var {
            Var::S(_, _, _) => AreaRows.draft(alloc, steps, at, var),
            Var::P(_, _, _) => PythRows.draft(alloc, steps, at, var),
            _ => Ok(None),
        },
        Move::Coords => CoordRows.draft(alloc, steps, NO_POINT, var),
    }
}
