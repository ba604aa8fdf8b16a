//! The next line.

ghost use Rattle.std.specs.Prelude.{◌≡◌, ◌≢◌, ◌<◌, ◌⊎◌, IfOk, IsErrOf, length};
ghost use Rattle.geo_logs.specs.Moves.{IsMoveStopped, place_of_lemma, replacement, spent};
ghost use Rattle.geo_logs.specs.Moves.{too_large};
ghost use Rattle.elim_apply.specs.LemmaTable.{lemma_table};
ghost use Rattle.geo_logs.specs.declared.moves.Move.{Move};
ghost use Rattle.elim_apply.specs.Kept.{AreKnownRows};
ghost use Rattle.fraction_poly.specs.TableRows.{HasPointsBelow};
ghost use Rattle.geo_chain.specs.NextLines.{HasLinePointsBelow, IsMoveDue, IsNextLine, left_after};
ghost use Rattle.geo_logs.specs.Chains.{line_of, moves};
ghost use Rattle.geo_poly.specs.declared.limits.Which.{Which};
ghost use Rattle.geo_poly.specs.PolynomialVariables.{AllVariables};

use crate::choosing::next_move;
use crate::cutting::cut_line;
use elim_apply::{ApplyError, KnownRows, Move, apply_known};
use geo_base::Budget;
use geo_points::PointId;
use geo_poly::lists::Vars;
use geo_poly::{Poly, Ticks};
use geo_terms::Steps;
use proof_log::Line;
use std::alloc::Global;
use std::marker::Brand;
use std::sync::ledger::{Blank, Ledger};

/// The line that the prover writes after the polynomial, with these known variables: the cut, where
/// one is due; else the next move with the polynomial after it; else the end. A move takes its
/// charge from the budget, and is `Spent` or `TooLarge` as `apply` answers it.
pub fn next_line(
    alloc: Global,
    steps: &Steps,
    p: &Poly,
    known: &Vars,
    budget: &mut Budget,
) -> Result<Line, ApplyError>
    requires { AllVariables (HasPointsBelow (length steps.now.steps)) p.now }
    ensures line { IfOk result (λ line.
        IsNextLine steps.now known.now budget.old.left p.now line budget.new.left) }
    ensures points { IfOk result (HasLinePointsBelow (length steps.now.steps)) }
    ensures row { result ≢ Err ApplyError.NoRow }
    ensures spent { IsErrOf result ApplyError.Spent → (mv : Move)
        × IsMoveDue steps.now known.now p.now mv
        × IsMoveStopped (replacement lemma_table steps.now mv p.now) budget.old.left p.now spent
        × (budget.new ≡ budget.old) }
    ensures too_large { (which : Which) → IsErrOf result (ApplyError.TooLarge which) → (mv : Move)
        × IsMoveDue steps.now known.now p.now mv
        × IsMoveStopped (replacement lemma_table steps.now mv p.now) budget.old.left p.now
        (too_large which)
        × (budget.new.left ≡ left_after steps.now mv p.now budget.old.left) }
    ensures memory { IsErrOf result ApplyError.NoMemory → (budget.new ≡ budget.old)
        ⊎ ((mv : Move) × IsMoveDue steps.now known.now p.now mv
        × (budget.new.left ≡ left_after steps.now mv p.now budget.old.left)) }
{
    let mut numbers = KnownRows::new(alloc)?;
    next_line_known(alloc, steps, &mut numbers, p, known, budget)
}

/// What `next_line` answers, where the numbers of the steps are kept from line to line.
pub fn next_line_known(
    alloc: Global,
    steps: &Steps,
    numbers: &mut KnownRows,
    p: &Poly,
    known: &Vars,
    budget: &mut Budget,
) -> Result<Line, ApplyError>
    requires numbers { AreKnownRows steps.now numbers.old }
    requires points { AllVariables (HasPointsBelow (length steps.now.steps)) p.now }
    ensures line { IfOk result (λ line.
        IsNextLine steps.now known.now budget.old.left p.now line budget.new.left) }
    ensures points { IfOk result (HasLinePointsBelow (length steps.now.steps)) }
    ensures row { result ≢ Err ApplyError.NoRow }
    ensures spent { IsErrOf result ApplyError.Spent → (mv : Move)
        × IsMoveDue steps.now known.now p.now mv
        × IsMoveStopped (replacement lemma_table steps.now mv p.now) budget.old.left p.now spent
        × (budget.new ≡ budget.old) }
    ensures too_large { (which : Which) → IsErrOf result (ApplyError.TooLarge which) → (mv : Move)
        × IsMoveDue steps.now known.now p.now mv
        × IsMoveStopped (replacement lemma_table steps.now mv p.now) budget.old.left p.now
        (too_large which)
        × (budget.new.left ≡ left_after steps.now mv p.now budget.old.left) }
    ensures memory { IsErrOf result ApplyError.NoMemory → (budget.new ≡ budget.old)
        ⊎ ((mv : Move) × IsMoveDue steps.now known.now p.now mv
        × (budget.new.left ≡ left_after steps.now mv p.now budget.old.left)) }
    ensures numbers { AreKnownRows steps.now numbers.new }
{
    next_line_in::<Brand>(alloc, steps, numbers, p, known, budget, Blank::new(1))
}

/// The line, by a move with a counter of its own.
fn next_line_in<L: Ledger>(
    alloc: Global,
    steps: &Steps,
    numbers: &mut KnownRows,
    p: &Poly,
    known: &Vars,
    budget: &mut Budget,
    blank: Blank,
) -> Result<Line, ApplyError>
    requires name { blank.name ≡ L.name }
    requires parts { blank.parts ≡ L.parts }
    requires some { 0 < blank.parts }
    requires numbers { AreKnownRows steps.now numbers.old }
    requires points { AllVariables (HasPointsBelow (length steps.now.steps)) p.now }
    ensures line { IfOk result (λ line.
        IsNextLine steps.now known.now budget.old.left p.now line budget.new.left) }
    ensures points { IfOk result (HasLinePointsBelow (length steps.now.steps)) }
    ensures row { result ≢ Err ApplyError.NoRow }
    ensures spent { IsErrOf result ApplyError.Spent → (mv : Move)
        × IsMoveDue steps.now known.now p.now mv
        × IsMoveStopped (replacement lemma_table steps.now mv p.now) budget.old.left p.now spent
        × (budget.new ≡ budget.old) }
    ensures too_large { (which : Which) → IsErrOf result (ApplyError.TooLarge which) → (mv : Move)
        × IsMoveDue steps.now known.now p.now mv
        × IsMoveStopped (replacement lemma_table steps.now mv p.now) budget.old.left p.now
        (too_large which)
        × (budget.new.left ≡ left_after steps.now mv p.now budget.old.left) }
    ensures memory { IsErrOf result ApplyError.NoMemory → (budget.new ≡ budget.old)
        ⊎ ((mv : Move) × IsMoveDue steps.now known.now p.now mv
        × (budget.new.left ≡ left_after steps.now mv p.now budget.old.left)) }
    ensures numbers { AreKnownRows steps.now numbers.new }
{
    // From here on it is known that the steps are a construction.
    prove!(steps.count() <= 512);
    if let Some(line) = cut_line(alloc, p, &known.items)? {
        return Ok(line);
    }
    let Some(mv) = next_move(steps, p) else {
        return Ok(Line::End);
    };
    let mut ticks = Ticks::<L>::new(blank);
    let poly = apply_known(alloc, steps, numbers, p, &mv, budget, &mut ticks)?;
    Ok(move_line(mv, poly))
}

/// The line of a move, with the polynomial after it.
fn move_line(mv: Move, poly: Poly) -> Line
    ensures { result ≡ line_of (moves mv poly) }
{
    match mv {
        Move::Ratio { var, lemma, at } => Line::Ratio {
            var,
            lemma,
            at: named_point(lemma, at),
            poly,
        },
        Move::Point(at) => Line::Point { at, poly },
        Move::Coords => Line::Coords(poly),
    }
}

/// The point that a line of this lemma names: lemma 0 names none.
fn named_point(lemma: u32, at: PointId) -> Option<PointId>
    ensures { result ≡ place_of_lemma lemma at }
{
    if lemma == 0 { None } else { Some(at) }
}
