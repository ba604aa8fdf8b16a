//! The next move.

ghost use Rattle.std.specs.Prelude.{◌≡◌, ◌<◌, IfNone, IfSome, length};
ghost use Rattle.geo_logs.specs.declared.moves.Move.TheVariants.{Ratio};
ghost use Rattle.elim_apply.specs.LemmaTable.{lemma_table};
ghost use Rattle.elim_ratio.specs.RatioTable.{first_lemma};
ghost use Rattle.geo_logs.specs.Chains.{IsEnd};
ghost use Rattle.geo_logs.specs.Defined.{HasFreePointsAlone, IsHighest, IsNextMove, named_point};
ghost use Rattle.geo_poly.specs.Shared.{AreParts, told};
ghost use Rattle.geo_terms.specs.Constructions.{Construction};

use crate::first::{Sought, first_fitting};
use crate::highest::highest_constructed;
use elim_apply::Move;
use elim_ratio::first_lemma;
use geo_points::PointId;
use geo_poly::{Poly, Shared, Var};
use geo_terms::Steps;

/// The move that the prover makes on the polynomial: the highest constructed point goes, ratio by
/// ratio and then at once from all areas and Pythagoras differences; without constructed points the
/// ratios go, and then the rest. `None` where only coordinates and parameters are left. Lemma 0
/// looks at no point, and is given with point 0.
pub fn next_move(steps: &Steps, p: &Poly) -> Option<Move>
    ensures some { IfSome result (IsNextMove lemma_table steps.now p.now) }
    ensures none { IfNone result (IsEnd p.now) }
    ensures end { IsEnd p.now → result ≡ None }
{
    move_among(steps, &p.shared())
}

/// The next move on the polynomial of these parts.
fn move_among(steps: &Steps, p: &Shared) -> Option<Move>
    requires { AreParts p.now }
    ensures some { IfSome result (IsNextMove lemma_table steps.now (told p.now)) }
    ensures none { IfNone result (IsEnd (told p.now)) }
{
    match highest_constructed(steps, p) {
        Some(y) => Some(move_at(steps, p, y)),
        None => move_of_free(p),
    }
}

/// The next move where this is the highest constructed point.
fn move_at(steps: &Steps, p: &Shared, y: PointId) -> Move
    requires parts { AreParts p.now }
    requires highest { IsHighest steps.now y (told p.now) }
    ensures { IsNextMove lemma_table steps.now (told p.now) result }
{
    match first_fitting(p, Sought::RatioWith(y)) {
        Some(var) => ratio_move(steps, var, y),
        None => Move::Point(y),
    }
}

/// The move of a ratio by its first lemma at the point.
fn ratio_move(steps: &Steps, var: Var, y: PointId) -> Move
    requires { y.0 < length steps.now.steps }
    ensures { let lemma = first_lemma steps.now y var in
        result ≡ Ratio var lemma (named_point lemma y) }
{
    let lemma = first_lemma(steps, y, var);
    let at = if lemma == 0 { PointId(0) } else { y };
    Move::Ratio { var, lemma, at }
}

/// The next move where no constructed point is left.
fn move_of_free(p: &Shared) -> Option<Move>
    requires { AreParts p.now }
    ensures some { IfSome result (λ mv. (c : Construction) → HasFreePointsAlone c (told p.now)
        → IsNextMove lemma_table c (told p.now) mv) }
    ensures none { IfNone result (IsEnd (told p.now)) }
{
    if let Some(var) = first_fitting(p, Sought::AnyRatio) {
        let (lemma, at) = (0, PointId(0));
        return Some(Move::Ratio { var, lemma, at });
    }
    match first_fitting(p, Sought::AnyQuantity) {
        Some(_) => Some(Move::Coords),
        None => None,
    }
}
