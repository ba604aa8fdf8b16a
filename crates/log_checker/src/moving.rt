//! The moves of a chain.

ghost use Rattle.std.specs.Prelude.{◌≡◌, ◌-◌, ◌<◌, ◌↔◌, IfErr, IfOk, IsNone, IsTrue, OnOk, length};
ghost use Rattle.elim_apply.specs.LemmaTable.{lemma_table};
ghost use Rattle.elim_apply.specs.Kept.{AreKnownRows};
ghost use Rattle.geo_logs.specs.Judging.{IsMoveRefused};
ghost use Rattle.geo_logs.specs.Moves.{IsMoved, move_charge, place_of, place_of_lemma, replacement};
ghost use Rattle.geo_logs.specs.Naming.{IsPlaceBelow};
ghost use Rattle.geo_logs.specs.declared.moves.Move.TheVariants.{Ratio};
ghost use Rattle.geo_points.specs.declared.ids.PointId.{PointId};
ghost use Rattle.geo_poly.specs.Polynomials.{Summands};
ghost use Rattle.log_checker.specs.Inner.Lines.{IsNamedBy, Tells};

use crate::reasons::Reason;
use crate::stops::Stop;
use elim_apply::{KnownRows, Move, apply_known};
use geo_base::Budget;
use geo_points::PointId;
use geo_poly::{Poly, Ticks, Var};
use geo_terms::Steps;
use std::alloc::Global;
use std::marker::Brand;
use std::sync::ledger::{Blank, Ledger};

/// The polynomial after a move line with this polynomial.
pub(crate) fn after_move(
    alloc: Global,
    steps: &Steps,
    numbers: &mut KnownRows,
    before: &Poly,
    mv: &Move,
    poly: &Poly,
    budget: &mut Budget,
) -> Result<Poly, Stop>
    requires named { IsNamedBy steps.now before.now }
    requires numbers { AreKnownRows steps.now numbers.old }
    ensures result { IfOk result (λ q. q ≡ poly.now) }
    ensures moved { let made = replacement lemma_table steps.now mv.now before.now in
        IfOk result (IsMoved made budget.old.left before.now) }
    ensures paid { let made = replacement lemma_table steps.now mv.now before.now in
        OnOk result (budget.new.left ≡ budget.old.left - move_charge made before.now) }
    ensures refused { IfErr result (Tells (IsMoveRefused lemma_table steps.now budget.old.left
        before.now mv.now poly.now)) }
    ensures numbers { AreKnownRows steps.now numbers.new }
{
    let moved = move_result(alloc, steps, numbers, before, mv, budget)?;
    if !moved.same(poly) {
        return Err(Stop::Rejected(Reason::WrongPoly));
    }
    Ok(moved)
}

/// The polynomial after a move. What refuses the move refuses its line, whatever polynomial it has.
pub(crate) fn move_result(
    alloc: Global,
    steps: &Steps,
    numbers: &mut KnownRows,
    before: &Poly,
    mv: &Move,
    budget: &mut Budget,
) -> Result<Poly, Stop>
    requires named { IsNamedBy steps.now before.now }
    requires numbers { AreKnownRows steps.now numbers.old }
    ensures moved { let made = replacement lemma_table steps.now mv.now before.now in
        IfOk result (IsMoved made budget.old.left before.now) }
    ensures paid { let made = replacement lemma_table steps.now mv.now before.now in
        OnOk result (budget.new.left ≡ budget.old.left - move_charge made before.now) }
    ensures refused { (q : Summands) → IfErr result (Tells (IsMoveRefused lemma_table steps.now
        budget.old.left before.now mv.now q)) }
    ensures numbers { AreKnownRows steps.now numbers.new }
{
    move_result_in::<Brand>(alloc, steps, numbers, before, mv, budget, Blank::new(1))
}

/// The polynomial, by a move with a counter of its own.
fn move_result_in<L: Ledger>(
    alloc: Global,
    steps: &Steps,
    numbers: &mut KnownRows,
    before: &Poly,
    mv: &Move,
    budget: &mut Budget,
    blank: Blank,
) -> Result<Poly, Stop>
    requires name { blank.name ≡ L.name }
    requires parts { blank.parts ≡ L.parts }
    requires some { 0 < blank.parts }
    requires named { IsNamedBy steps.now before.now }
    requires numbers { AreKnownRows steps.now numbers.old }
    ensures moved { let made = replacement lemma_table steps.now mv.now before.now in
        IfOk result (IsMoved made budget.old.left before.now) }
    ensures paid { let made = replacement lemma_table steps.now mv.now before.now in
        OnOk result (budget.new.left ≡ budget.old.left - move_charge made before.now) }
    ensures refused { (q : Summands) → IfErr result (Tells (IsMoveRefused lemma_table steps.now
        budget.old.left before.now mv.now q)) }
    ensures numbers { AreKnownRows steps.now numbers.new }
{
    // From here on it is known that the steps are a construction.
    prove!(steps.count() <= 512);
    if !has_place(steps, mv) {
        return Err(Stop::Rejected(Reason::NoRow));
    }
    let mut ticks = Ticks::<L>::new(blank);
    let moved = apply_known(alloc, steps, numbers, before, mv, budget, &mut ticks)?;
    Ok(moved)
}

/// Whether the point that the move looks at, if any, is one of the construction.
fn has_place(steps: &Steps, mv: &Move) -> bool
    ensures { IsTrue result ↔ IsPlaceBelow (length steps.now.steps) (place_of mv.now) }
{
    match mv {
        Move::Ratio { lemma, at, .. } => *lemma == 0 || at.0 < steps.count(),
        Move::Point(at) => at.0 < steps.count(),
        Move::Coords => true,
    }
}

/// The move of a ratio line. Lemma 0 looks at no point.
pub(crate) fn ratio_move(var: Var, lemma: u32, at: Option<PointId>) -> Move
    requires { IsNone at ↔ (lemma ≡ 0) }
    ensures { (y : PointId) × (result ≡ Ratio var lemma y) × (at ≡ place_of_lemma lemma y) }
{
    Move::Ratio {
        var,
        lemma,
        at: at.unwrap_or(PointId(0)),
    }
}
