//! The rows of Pythagoras differences.

ghost use Rattle.std.specs.Prelude.{◌≡◌, ◌<◌, IfOk, length, option_map};
ghost use Rattle.std.specs.Option.{ForSome};
ghost use Rattle.elim_pyth.specs.DifferenceTable.{difference_row, difference_table};
ghost use Rattle.elim_pyth.specs.DifferenceTable.{linear_numerator, quadratic_numerator};
ghost use Rattle.elim_pyth.specs.DifferenceTable.{quadratic_power, reading};
ghost use Rattle.fraction_poly.specs.declared.drafts.Number.{Number};
ghost use Rattle.fraction_poly.specs.declared.drafts.Number.TheVariants.{First};
ghost use Rattle.fraction_poly.specs.Inner.Drafts.{HasItsNumbers, form_of, number_trees};
ghost use Rattle.fraction_poly.specs.Inner.Drafts.{row_of_draft, step_terms};
ghost use Rattle.fraction_poly.specs.Forms.{area, denominator, integer, numerator, pythagoras, ◌⊟◌};
ghost use Rattle.fraction_poly.specs.Forms.{◌⊠◌};
ghost use Rattle.geo_terms.specs.Stores.{Store};
ghost use Rattle.geo_terms.specs.Trees.{Tree};

use crate::squares::{along_square, crossing_square, foot_square, turned_square, weights_square};
use fraction_poly::{
    Draft, Linear, Number, RowDraft, Rows, along_numerator, crossing_numerator, foot_numerator,
    step_draft, weights_numerator,
};
use geo_points::{NoMemory, PointId};
use geo_poly::Var;
use geo_terms::{Step, Steps};
use std::alloc::Global;

/// The rows of Pythagoras differences.
#[derive(Clone, Copy, Debug, PartialEq, Eq)]
pub struct PythRows;

impl Rows for PythRows {
    ghost use Rattle.std.specs.Prelude.{true};
    ghost use Rattle.elim_pyth.specs.DifferenceTable.{difference_table};

    ghost table = { λ _. difference_table };

    ghost looks = { λ _. true };

    fn draft(
        &self,
        alloc: Global,
        steps: &Steps,
        at: PointId,
        var: Var,
    ) -> Result<Option<RowDraft>, NoMemory> {
        difference_row(alloc, steps, at, var)
    }
}

/// How a Pythagoras difference contains the point Y.
#[derive(Clone, Copy)]
pub enum Reading {
    /// At one end: `P_ABY`.
    Linear(PointId, PointId),
    /// In the middle: `P_AYB`.
    Quadratic(PointId, PointId),
}

/// The row of a difference with the point `at`, as it is written.
fn difference_row(
    alloc: Global,
    steps: &Steps,
    at: PointId,
    var: Var,
) -> Result<Option<RowDraft>, NoMemory>
    requires { at.0 < length steps.now.steps }
    ensures row { IfOk result (λ o. option_map (row_of_draft steps.now.nodes) o
        ≡ difference_table steps.now at var) }
    ensures numbers { IfOk result (λ o. ForSome o (HasItsNumbers steps.now.nodes)) }
{
    // From here on it is known that the steps' numbers stand in the store.
    prove!(at.0 < steps.count());
    let Var::P(a, b, c) = var else {
        return Ok(None);
    };
    let Some(reading) = read_at(at, a, b, c) else {
        return Ok(None);
    };
    row_of_reading(alloc, steps.step(at), reading)
}

/// How `P_abc` contains the point `y`.
fn read_at(y: PointId, a: PointId, b: PointId, c: PointId) -> Option<Reading>
    ensures { result ≡ reading y a b c }
{
    if b == y {
        Some(Reading::Quadratic(a, c))
    } else if a == y {
        Some(if c == y {
            Reading::Quadratic(b, b)
        } else {
            Reading::Linear(c, b)
        })
    } else if c == y {
        Some(Reading::Linear(a, b))
    } else {
        None
    }
}

/// The row of a difference that is read so, where the step makes Y.
fn row_of_reading(alloc: Global, step: Step, reading: Reading) -> Result<Option<RowDraft>, NoMemory>
    ensures row { IfOk result (λ o. (nodes : Store)
        → option_map (row_of_draft nodes) o ≡ difference_row nodes step reading) }
    ensures terms { IfOk result (λ o. ForSome o (λ d. d.terms ≡ step_terms step)) }
{
    let (power, num) = match reading {
        Reading::Linear(a, b) => (1, linear_pythagoras(alloc, step, a, b)?),
        Reading::Quadratic(a, b) => {
            let num = quadratic_numerator(alloc, step, a, b)?;
            (quadratic_power(step), num)
        }
    };
    match num {
        None => Ok(None),
        Some(num) => Ok(Some(step_draft(alloc, step, power, num)?)),
    }
}

/// The numerator of `P_ABY`, where the step makes Y.
fn linear_pythagoras(
    alloc: Global,
    step: Step,
    a: PointId,
    b: PointId,
) -> Result<Option<Draft>, NoMemory>
    ensures { IfOk result (λ o. (nodes : Store)
        → option_map (form_of (number_trees nodes (step_terms step))) o
        ≡ linear_numerator nodes step a b) }
{
    let difference = Linear::Pythagoras(a, b);
    let numerator = match step {
        Step::Point => return Ok(None),
        Step::Inter { u, v, p, q } => crossing_numerator(alloc, u, v, p, q, difference)?,
        Step::Foot { p, u, v } => foot_numerator(alloc, p, u, v, difference)?,
        Step::Pratio { w, u, v, r: _ } => along_numerator(alloc, w, u, v, difference)?,
        Step::Tratio { u, v, r: _ } => turned_pythagoras(alloc, u, v, a, b)?,
        Step::Weights { o, u, v, .. } => weights_numerator(alloc, o, u, v, difference)?,
    };
    Ok(Some(numerator))
}

/// `4 d P_ABU - 16 n (S_UAB - S_VAB)`, where `Y - U = n/d J (V - U)`.
fn turned_pythagoras(
    alloc: Global,
    u: PointId,
    v: PointId,
    a: PointId,
    b: PointId,
) -> Result<Draft, NoMemory>
    ensures { IfOk result (λ d. (e : Number → Tree) → form_of e d
        ≡ integer 4 ⊠ denominator (e First) ⊠ pythagoras a b u
        ⊟ integer 16 ⊠ numerator (e First) ⊠ (area u a b ⊟ area v a b)) }
{
    let front = Draft::Integer(4)
        .times(alloc, Draft::Denominator(Number::First))?
        .times(alloc, Draft::Pythagoras(a, b, u))?;
    let turned = Draft::Area(u, a, b).minus(alloc, Draft::Area(v, a, b))?;
    let back = Draft::Integer(16)
        .times(alloc, Draft::Numerator(Number::First))?
        .times(alloc, turned)?;
    front.minus(alloc, back)
}

/// The numerator of `P_AYB`, where the step makes Y.
fn quadratic_numerator(
    alloc: Global,
    step: Step,
    a: PointId,
    b: PointId,
) -> Result<Option<Draft>, NoMemory>
    ensures { IfOk result (λ o. (nodes : Store)
        → option_map (form_of (number_trees nodes (step_terms step))) o
        ≡ quadratic_numerator nodes step a b) }
{
    let numerator = match step {
        Step::Point => return Ok(None),
        Step::Inter { u, v, p, q } => crossing_square(alloc, u, v, p, q, a, b)?,
        Step::Foot { p, u, v } => foot_square(alloc, p, u, v, a, b)?,
        Step::Pratio { w, u, v, r: _ } => along_square(alloc, w, u, v, a, b)?,
        Step::Tratio { u, v, r: _ } => turned_square(alloc, u, v, a, b)?,
        Step::Weights { o, u, v, .. } => weights_square(alloc, o, u, v, a, b)?,
    };
    Ok(Some(numerator))
}

/// The power of the denominator in the row of `P_AYB`.
fn quadratic_power(step: Step) -> u32
    ensures { result ≡ quadratic_power step }
{
    match step {
        Step::Foot { .. } => 1,
        _ => 2,
    }
}
