//! The rows of free points.

ghost use Rattle.std.specs.Prelude.{◌≡◌, ◌<◌, ◌&&◌, IfOk, length, option_map};
ghost use Rattle.std.specs.Option.{ForSome};
ghost use Rattle.area_coords.specs.FreeTable.{area_in_coordinates, difference_in_coordinates};
ghost use Rattle.area_coords.specs.FreeTable.{free_table, is_free};
ghost use Rattle.fraction_poly.specs.declared.drafts.Number.{Number};
ghost use Rattle.fraction_poly.specs.Inner.Drafts.{HasItsNumbers, form_of, row_of_draft};
ghost use Rattle.fraction_poly.specs.Forms.{abscissa, ordinate, ◌⊞◌, ◌⊟◌, ◌⊠◌};
ghost use Rattle.geo_terms.specs.Trees.{Tree};
ghost use Rattle.fraction_poly.specs.TableRows.{HasPointsBelow};

use fraction_poly::{Draft, RowDraft, Rows, StepTerms};
use geo_points::{NoMemory, PointId};
use geo_poly::Var;
use geo_terms::{Step, Steps};
use std::alloc::Global;

/// The rows of areas and Pythagoras differences of free points. They look at no step but those of
/// the points.
#[derive(Clone, Copy, Debug, PartialEq, Eq)]
pub struct CoordRows;

impl Rows for CoordRows {
    ghost use Rattle.std.specs.Prelude.{false};
    ghost use Rattle.area_coords.specs.FreeTable.{free_table};

    ghost table = { λ _. free_table };

    ghost looks = { λ _. false };

    fn draft(
        &self,
        alloc: Global,
        steps: &Steps,
        at: PointId,
        var: Var,
    ) -> Result<Option<RowDraft>, NoMemory> {
        free_row(alloc, steps, at, var)
    }
}

/// The row of a quantity whose points are all free, as it is written. The point `_at` is not looked
/// at.
fn free_row(
    alloc: Global,
    steps: &Steps,
    _at: PointId,
    var: Var,
) -> Result<Option<RowDraft>, NoMemory>
    requires { HasPointsBelow (length steps.now.steps) var }
    ensures row { IfOk result (λ o. option_map (row_of_draft steps.now.nodes) o
        ≡ free_table steps.now _at var) }
    ensures numbers { IfOk result (λ o. ForSome o (HasItsNumbers steps.now.nodes)) }
{
    let (power, num) = match var {
        Var::S(a, b, c) if are_free(steps, a, b, c) => (1, area_in_coordinates(alloc, a, b, c)?),
        Var::P(a, b, c) if are_free(steps, a, b, c) => {
            (0, difference_in_coordinates(alloc, a, b, c)?)
        }
        _ => return Ok(None),
    };
    Ok(Some(RowDraft {
        power,
        num,
        den: Draft::Integer(2),
        terms: StepTerms::none(),
    }))
}

/// Whether all three points are free.
fn are_free(steps: &Steps, a: PointId, b: PointId, c: PointId) -> bool
    requires { (a.0 < length steps.now.steps) × (b.0 < length steps.now.steps)
        × (c.0 < length steps.now.steps) }
    ensures { result ≡ (is_free steps.now a && is_free steps.now b && is_free steps.now c) }
{
    is_free(steps, a) && is_free(steps, b) && is_free(steps, c)
}

/// Whether the point is free.
fn is_free(steps: &Steps, a: PointId) -> bool
    requires { a.0 < length steps.now.steps }
    ensures { result ≡ is_free steps.now a }
{
    matches!(steps.step(a), Step::Point)
}

/// `x_A y_B - x_A y_C - y_A x_B + y_A x_C + x_B y_C - y_B x_C`.
fn area_in_coordinates(alloc: Global, a: PointId, b: PointId, c: PointId) -> Result<Draft, NoMemory>
    ensures { IfOk result (λ d. (e : Number → Tree) → form_of e d ≡ area_in_coordinates a b c) }
{
    let front = products_from(alloc, a, b, c)?;
    let bc = Draft::Abscissa(b).times(alloc, Draft::Ordinate(c))?;
    let cb = Draft::Ordinate(b).times(alloc, Draft::Abscissa(c))?;
    front.plus(alloc, bc)?.minus(alloc, cb)
}

/// `x_A y_B - x_A y_C - y_A x_B + y_A x_C`.
fn products_from(alloc: Global, a: PointId, b: PointId, c: PointId) -> Result<Draft, NoMemory>
    ensures { IfOk result (λ d. (e : Number → Tree) → form_of e d
        ≡ abscissa a ⊠ ordinate b ⊟ abscissa a ⊠ ordinate c
        ⊟ ordinate a ⊠ abscissa b ⊞ ordinate a ⊠ abscissa c) }
{
    let ab = Draft::Abscissa(a).times(alloc, Draft::Ordinate(b))?;
    let ac = Draft::Abscissa(a).times(alloc, Draft::Ordinate(c))?;
    let ba = Draft::Ordinate(a).times(alloc, Draft::Abscissa(b))?;
    let ca = Draft::Ordinate(a).times(alloc, Draft::Abscissa(c))?;
    ab.minus(alloc, ac)?.minus(alloc, ba)?.plus(alloc, ca)
}

/// `2 (x_A x_C - x_A x_B - x_B x_C + x_B x_B + y_A y_C - y_A y_B - y_B y_C + y_B y_B)`.
fn difference_in_coordinates(
    alloc: Global,
    a: PointId,
    b: PointId,
    c: PointId,
) -> Result<Draft, NoMemory>
    ensures { IfOk result (λ d. (e : Number → Tree) → form_of e d ≡ difference_in_coordinates a b c) }
{
    let across = products_across(alloc, a, b, c)?;
    let all = with_products_upward(alloc, across, a, b, c)?;
    Draft::Integer(2).times(alloc, all)
}

/// The front, and then `+ y_A y_C - y_A y_B - y_B y_C + y_B y_B`.
fn with_products_upward(
    alloc: Global,
    front: Draft,
    a: PointId,
    b: PointId,
    c: PointId,
) -> Result<Draft, NoMemory>
    ensures { IfOk result (λ d. (e : Number → Tree) → form_of e d ≡ form_of e front
        ⊞ ordinate a ⊠ ordinate c ⊟ ordinate a ⊠ ordinate b
        ⊟ ordinate b ⊠ ordinate c ⊞ ordinate b ⊠ ordinate b) }
{
    let ac = Draft::Ordinate(a).times(alloc, Draft::Ordinate(c))?;
    let ab = Draft::Ordinate(a).times(alloc, Draft::Ordinate(b))?;
    let bc = Draft::Ordinate(b).times(alloc, Draft::Ordinate(c))?;
    let bb = Draft::Ordinate(b).times(alloc, Draft::Ordinate(b))?;
    let more = front.plus(alloc, ac)?.minus(alloc, ab)?;
    more.minus(alloc, bc)?.plus(alloc, bb)
}

/// `x_A x_C - x_A x_B - x_B x_C + x_B x_B`.
fn products_across(alloc: Global, a: PointId, b: PointId, c: PointId) -> Result<Draft, NoMemory>
    ensures { IfOk result (λ d. (e : Number → Tree) → form_of e d
        ≡ abscissa a ⊠ abscissa c ⊟ abscissa a ⊠ abscissa b
        ⊟ abscissa b ⊠ abscissa c ⊞ abscissa b ⊠ abscissa b) }
{
    let ac = Draft::Abscissa(a).times(alloc, Draft::Abscissa(c))?;
    let ab = Draft::Abscissa(a).times(alloc, Draft::Abscissa(b))?;
    let bc = Draft::Abscissa(b).times(alloc, Draft::Abscissa(c))?;
    let bb = Draft::Abscissa(b).times(alloc, Draft::Abscissa(b))?;
    ac.minus(alloc, ab)?.minus(alloc, bc)?.plus(alloc, bb)
}
