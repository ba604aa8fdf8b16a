//! A move on a polynomial.

ghost use Rattle.std.specs.Prelude.{◌≡◌, ◌≢◌, ◌+◌, ◌-◌, ◌^◌, ◌<◌, ◌≤◌, ◌⊎◌, [], IfNone, IfOk, IfSome};
ghost use Rattle.std.specs.Prelude.{IsErrOf, OnOk, length};
ghost use Rattle.std.specs.List.{filter_map};
ghost use Rattle.elim_apply.specs.LemmaTable.{lemma_table};
ghost use Rattle.geo_logs.specs.Moves.{IsMoved, IsMoveStopped, move_charge, place_of, replacement};
ghost use Rattle.geo_logs.specs.Moves.{spent, too_large};
ghost use Rattle.elim_apply.specs.Multiples.{IsMultiple};
ghost use Rattle.geo_logs.specs.Naming.{IsPlaceBelow, IsPlaceMet};
ghost use Rattle.elim_apply.specs.Inner.Sizes.{IsSizeOf};
ghost use Rattle.elim_apply.specs.Inner.Sketches.{numbered_row};
ghost use Rattle.elim_apply.specs.Kept.{AreKnownRows};
ghost use Rattle.fraction_poly.specs.TableRows.{HasPointsBelow, HasVariable};
ghost use Rattle.geo_points.specs.Placements.{Placement};
ghost use Rattle.geo_poly.specs.Counted.{replacement_products};
ghost use Rattle.geo_poly.specs.declared.limits.Which.{Which};
ghost use Rattle.geo_poly.specs.PolynomialVariables.{AllVariables, variables_of};
ghost use Rattle.geo_poly.specs.Polynomials.{IsPolynomial};
ghost use Rattle.geo_poly.specs.Replace.{most_denominators, replaced_by};
ghost use Rattle.geo_poly.specs.Replace.{replaced_degree, replaced_weight};

use crate::errors::ApplyError;
use crate::kept_rows::KnownRows;
use crate::limits::LineSize;
use crate::made::{made_rows, put_back};
use crate::numbered::{NumberedRow, numbered_rows};
use crate::sizes::size_of_line;
use crate::variables::variables_of;
use geo_base::Budget;
use geo_logs::Move;
use geo_points::NoMemory;
use geo_poly::{Poly, Ticks};
use geo_terms::Steps;
use std::alloc::Global;
use std::sync::ledger::Ledger;

/// The polynomial after a move: the variables that have a row are replaced at once, and the whole
/// is multiplied by the denominator as often as the monomial that needs it most. The charge of the
/// line, its weight and its degree are tested in this order, before anything is multiplied out. The
/// charge is spent as soon as it is within the budget. Each product of monomials ticks.
pub fn apply<L: Ledger>(
    alloc: Global,
    steps: &Steps,
    p: &Poly,
    mv: &Move,
    budget: &mut Budget,
    ticks: &mut Ticks<L>,
) -> Result<Poly, ApplyError>
    requires points { AllVariables (HasPointsBelow (length steps.now.steps)) p.now }
    requires place { IsPlaceBelow (length steps.now.steps) (place_of mv.now) }
    ensures moved { let made = replacement lemma_table steps.now mv.now p.now in
        IfOk result (λ q. IsMoved made budget.old.left p.now q) }
    ensures paid { let made = replacement lemma_table steps.now mv.now p.now in
        OnOk result (budget.new.left ≡ budget.old.left - move_charge made p.now) }
    ensures value { IfOk result (λ q. (placed : Placement)
        → IsPlaceMet placed steps.now (place_of mv.now)
        → AllVariables (HasVariable placed) p.now → IsMultiple placed q p.now) }
    ensures no_row { let made = replacement lemma_table steps.now mv.now p.now in
        IsErrOf result ApplyError.NoRow → (made.rows ≡ []) × (budget.new ≡ budget.old) }
    ensures spent { let made = replacement lemma_table steps.now mv.now p.now in
        IsErrOf result ApplyError.Spent → (made.rows ≢ [])
        × IsMoveStopped made budget.old.left p.now spent × (budget.new ≡ budget.old) }
    ensures too_large { let made = replacement lemma_table steps.now mv.now p.now in
        (which : Which) → IsErrOf result (ApplyError.TooLarge which) → (made.rows ≢ [])
        × IsMoveStopped made budget.old.left p.now (too_large which)
        × (budget.new.left ≡ budget.old.left - move_charge made p.now) }
    ensures memory { let made = replacement lemma_table steps.now mv.now p.now in
        IsErrOf result ApplyError.NoMemory → (budget.new ≡ budget.old)
        ⊎ (budget.new.left ≡ budget.old.left - move_charge made p.now) }
    ensures ticks { let made = replacement lemma_table steps.now mv.now p.now in
        ticks.new ≤ ticks.old + replacement_products made.rows made.den p.now }
    ensures counted { OnOk result
        (ticks.new + budget.new.left ≤ ticks.old + budget.old.left) }
    ensures unworked { (e : ApplyError) → IsErrOf result e → e ≢ ApplyError.NoMemory
        → ticks.new ≡ ticks.old }
{
    let mut known = KnownRows::new(alloc)?;
    apply_known(alloc, steps, &mut known, p, mv, budget, ticks)
}

/// What `apply` does, where the numbers of the steps are kept from line to line: each is measured
/// once and multiplied out once for as long as they are.
pub fn apply_known<L: Ledger>(
    alloc: Global,
    steps: &Steps,
    known: &mut KnownRows,
    p: &Poly,
    mv: &Move,
    budget: &mut Budget,
    ticks: &mut Ticks<L>,
) -> Result<Poly, ApplyError>
    requires known { AreKnownRows steps.now known.old }
    requires points { AllVariables (HasPointsBelow (length steps.now.steps)) p.now }
    requires place { IsPlaceBelow (length steps.now.steps) (place_of mv.now) }
    ensures moved { let made = replacement lemma_table steps.now mv.now p.now in
        IfOk result (λ q. IsMoved made budget.old.left p.now q) }
    ensures paid { let made = replacement lemma_table steps.now mv.now p.now in
        OnOk result (budget.new.left ≡ budget.old.left - move_charge made p.now) }
    ensures value { IfOk result (λ q. (placed : Placement)
        → IsPlaceMet placed steps.now (place_of mv.now)
        → AllVariables (HasVariable placed) p.now → IsMultiple placed q p.now) }
    ensures no_row { let made = replacement lemma_table steps.now mv.now p.now in
        IsErrOf result ApplyError.NoRow → (made.rows ≡ []) × (budget.new ≡ budget.old) }
    ensures spent { let made = replacement lemma_table steps.now mv.now p.now in
        IsErrOf result ApplyError.Spent → (made.rows ≢ [])
        × IsMoveStopped made budget.old.left p.now spent × (budget.new ≡ budget.old) }
    ensures too_large { let made = replacement lemma_table steps.now mv.now p.now in
        (which : Which) → IsErrOf result (ApplyError.TooLarge which) → (made.rows ≢ [])
        × IsMoveStopped made budget.old.left p.now (too_large which)
        × (budget.new.left ≡ budget.old.left - move_charge made p.now) }
    ensures memory { let made = replacement lemma_table steps.now mv.now p.now in
        IsErrOf result ApplyError.NoMemory → (budget.new ≡ budget.old)
        ⊎ (budget.new.left ≡ budget.old.left - move_charge made p.now) }
    ensures ticks { let made = replacement lemma_table steps.now mv.now p.now in
        ticks.new ≤ ticks.old + replacement_products made.rows made.den p.now }
    ensures counted { OnOk result
        (ticks.new + budget.new.left ≤ ticks.old + budget.old.left) }
    ensures unworked { (e : ApplyError) → IsErrOf result e → e ≢ ApplyError.NoMemory
        → ticks.new ≡ ticks.old }
    ensures known { AreKnownRows steps.now known.new }
{
    // From here on it is known that the steps are a construction.
    prove!(steps.count() <= 512);
    let Some((rows, size)) = measured(alloc, steps, known, p, mv)? else {
        return Err(ApplyError::NoRow);
    };
    size.spend(budget)?;
    Ok(moved(alloc, steps, known, p, mv, &rows, size.top, ticks)?)
}

/// The rows that a move has for the polynomial, as they are written, and the size of its line;
/// `None` where it has no row.
fn measured(
    alloc: Global,
    steps: &Steps,
    known: &mut KnownRows,
    p: &Poly,
    mv: &Move,
) -> Result<Option<(Vec<NumberedRow>, LineSize)>, NoMemory>
    requires points { AllVariables (HasPointsBelow (length steps.now.steps)) p.now }
    requires place { IsPlaceBelow (length steps.now.steps) (place_of mv.now) }
    requires known { AreKnownRows steps.now known.old }
    ensures none { let made = replacement lemma_table steps.now mv.now p.now in
        IfOk result (λ o. IfNone o (made.rows ≡ [])) }
    ensures some { let made = replacement lemma_table steps.now mv.now p.now in
        IfOk result (λ o. IfSome o (λ _. made.rows ≢ [])) }
    ensures rows { IfOk result (λ o. IfSome o (λ m. m.0.items
        ≡ filter_map (numbered_row steps.now mv.now) (variables_of p.now))) }
    ensures size { let made = replacement lemma_table steps.now mv.now p.now in
        IfOk result (λ o. IfSome o (λ m. IsSizeOf m.1 (move_charge made p.now)
        (replaced_weight made.rows made.den p.now) (replaced_degree made.rows made.den p.now))) }
    ensures top { let made = replacement lemma_table steps.now mv.now p.now in
        IfOk result (λ o. IfSome o (λ m. m.1.top ≡ most_denominators made.rows p.now)) }
    ensures known { AreKnownRows steps.now known.new }
{
    // From here on it is known that the polynomial is in order and within its bounds.
    prove!(p.is_valid());
    let variables = variables_of(alloc, p)?;
    let rows = numbered_rows(alloc, steps, known, mv, &variables)?;
    if rows.is_empty() {
        return Ok(None);
    }
    // All rows of a move have one denominator and one charge.
    let size = size_of_line(alloc, &rows, rows[0].numbers, p)?;
    Ok(Some((rows, size)))
}

/// The polynomial after a move whose line is within its limits.
fn moved<L: Ledger>(
    alloc: Global,
    steps: &Steps,
    known: &mut KnownRows,
    p: &Poly,
    mv: &Move,
    rows: &[NumberedRow],
    top: u32,
    ticks: &mut Ticks<L>,
) -> Result<Poly, NoMemory>
    requires points { AllVariables (HasPointsBelow (length steps.now.steps)) p.now }
    requires known { AreKnownRows steps.now known.old }
    requires place { IsPlaceBelow (length steps.now.steps) (place_of mv.now) }
    requires rows { rows.now
        ≡ filter_map (numbered_row steps.now mv.now) (variables_of p.now) }
    requires some { rows.now ≢ [] }
    requires top { let made = replacement lemma_table steps.now mv.now p.now in
        top ≡ most_denominators made.rows p.now }
    requires weight { let made = replacement lemma_table steps.now mv.now p.now in
        replaced_weight made.rows made.den p.now < 2 ^ 127 }
    requires degree { let made = replacement lemma_table steps.now mv.now p.now in
        replaced_degree made.rows made.den p.now ≤ 65535 }
    ensures moved { let made = replacement lemma_table steps.now mv.now p.now in
        IfOk result (λ q. q ≡ replaced_by made.rows made.den.poly p.now) }
    ensures ticks { let made = replacement lemma_table steps.now mv.now p.now in
        ticks.new ≤ ticks.old + replacement_products made.rows made.den p.now }
    ensures known { AreKnownRows steps.now known.new }
{
    // From here on it is known that the polynomial is in order and within its bounds.
    prove!(p.is_valid());
    let (rows, den) = made_rows(alloc, steps, known, mv, rows)?;
    let moved = p.replace_within(alloc, &rows.items, &den, top, ticks)?;
    put_back(known, mv, rows, den);
    Ok(moved)
}
