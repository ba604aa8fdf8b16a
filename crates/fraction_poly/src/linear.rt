//! What the steps give for quantities that contain the point which they make, as drafts.

ghost use Rattle.std.specs.Prelude.{◌≡◌, IfOk};
ghost use Rattle.fraction_poly.specs.declared.drafts.Number.{Number};
ghost use Rattle.fraction_poly.specs.declared.drafts.Number.TheVariants.{First, Second};
ghost use Rattle.fraction_poly.specs.Inner.Drafts.{form_of, linear_form, number_trees};
ghost use Rattle.fraction_poly.specs.Inner.Drafts.{row_of_draft, step_terms};
ghost use Rattle.fraction_poly.specs.Forms.{denominator, numerator, ◌⊠◌};
ghost use Rattle.fraction_poly.specs.StepForms.{along_numerator, crossing_numerator};
ghost use Rattle.fraction_poly.specs.StepForms.{foot_numerator, origin_weight, step_denominator};
ghost use Rattle.fraction_poly.specs.StepForms.{step_row, weights_numerator};
ghost use Rattle.geo_terms.specs.Stores.{Store};
ghost use Rattle.geo_terms.specs.Trees.{Tree};

use crate::drafts::{Draft, Number, RowDraft, StepTerms};
use geo_points::{NoMemory, PointId};
use geo_terms::Step;
use std::alloc::Global;

/// A quantity that is linear in a point X.
#[derive(Clone, Copy, Debug, PartialEq, Eq)]
pub enum Linear {
    /// The signed area `S_ABX`.
    Area(PointId, PointId),
    /// The Pythagoras difference `P_ABX`.
    Pythagoras(PointId, PointId),
}

impl Linear {
    /// The quantity at a point.
    pub fn at(self, x: PointId) -> Draft
        ensures { (e : Number → Tree) → form_of e result ≡ linear_form self x }
    {
        match self {
            Linear::Area(a, b) => Draft::Area(a, b, x),
            Linear::Pythagoras(a, b) => Draft::Pythagoras(a, b, x),
        }
    }
}

/// The numerator at the point of the lines UV and PQ: `S_UPQ G(V) - S_VPQ G(U)`.
pub fn crossing_numerator(
    alloc: Global,
    u: PointId,
    v: PointId,
    p: PointId,
    q: PointId,
    quantity: Linear,
) -> Result<Draft, NoMemory>
    ensures { IfOk result (λ d. (e : Number → Tree)
        → form_of e d ≡ crossing_numerator u v p q (linear_form quantity)) }
{
    let front = Draft::Area(u, p, q).times(alloc, quantity.at(v))?;
    let back = Draft::Area(v, p, q).times(alloc, quantity.at(u))?;
    front.minus(alloc, back)
}

/// The numerator at the foot of P on the line UV: `P_PUV G(V) + P_PVU G(U)`.
pub fn foot_numerator(
    alloc: Global,
    p: PointId,
    u: PointId,
    v: PointId,
    quantity: Linear,
) -> Result<Draft, NoMemory>
    ensures { IfOk result (λ d. (e : Number → Tree)
        → form_of e d ≡ foot_numerator p u v (linear_form quantity)) }
{
    let front = Draft::Pythagoras(p, u, v).times(alloc, quantity.at(v))?;
    let back = Draft::Pythagoras(p, v, u).times(alloc, quantity.at(u))?;
    front.plus(alloc, back)
}

/// The numerator at the point with `Y - W = n/d (V - U)`: `d G(W) + n G(V) - n G(U)`.
pub fn along_numerator(
    alloc: Global,
    w: PointId,
    u: PointId,
    v: PointId,
    quantity: Linear,
) -> Result<Draft, NoMemory>
    ensures { IfOk result (λ d. (e : Number → Tree) → form_of e d
        ≡ along_numerator w u v (numerator (e First)) (denominator (e First)) (linear_form quantity)) }
{
    let at_w = Draft::Denominator(Number::First).times(alloc, quantity.at(w))?;
    let at_v = Draft::Numerator(Number::First).times(alloc, quantity.at(v))?;
    let at_u = Draft::Numerator(Number::First).times(alloc, quantity.at(u))?;
    at_w.plus(alloc, at_v)?.minus(alloc, at_u)
}

/// The numerator at the point with `Y - O = n/d (U - O) + m/e (V - O)`:
/// `(d e - n e - m d) G(O) + n e G(U) + m d G(V)`.
pub fn weights_numerator(
    alloc: Global,
    o: PointId,
    u: PointId,
    v: PointId,
    quantity: Linear,
) -> Result<Draft, NoMemory>
    ensures { IfOk result (λ d. (e : Number → Tree) → form_of e d
        ≡ weights_numerator o u v (numerator (e First)) (denominator (e First))
        (numerator (e Second)) (denominator (e Second)) (linear_form quantity)) }
{
    let at_o = origin_weight(alloc)?.times(alloc, quantity.at(o))?;
    let at_u = first_weight(alloc)?.times(alloc, quantity.at(u))?;
    let at_v = second_weight(alloc)?.times(alloc, quantity.at(v))?;
    at_o.plus(alloc, at_u)?.plus(alloc, at_v)
}

/// The weight of O in `Y - O = n/d (U - O) + m/e (V - O)`, times `d e`: `d e - n e - m d`.
pub fn origin_weight(alloc: Global) -> Result<Draft, NoMemory>
    ensures { IfOk result (λ d. (e : Number → Tree) → form_of e d
        ≡ origin_weight (numerator (e First)) (denominator (e First))
        (numerator (e Second)) (denominator (e Second))) }
{
    let less = both_denominators(alloc)?.minus(alloc, first_weight(alloc)?)?;
    less.minus(alloc, second_weight(alloc)?)
}

/// The weight of U, times `d e`: `n e`.
pub fn first_weight(alloc: Global) -> Result<Draft, NoMemory>
    ensures { IfOk result (λ d. (e : Number → Tree)
        → form_of e d ≡ numerator (e First) ⊠ denominator (e Second)) }
{
    Draft::Numerator(Number::First).times(alloc, Draft::Denominator(Number::Second))
}

/// The weight of V, times `d e`: `m d`.
pub fn second_weight(alloc: Global) -> Result<Draft, NoMemory>
    ensures { IfOk result (λ d. (e : Number → Tree)
        → form_of e d ≡ numerator (e Second) ⊠ denominator (e First)) }
{
    Draft::Numerator(Number::Second).times(alloc, Draft::Denominator(Number::First))
}

/// The product of the denominators of both numbers.
pub fn both_denominators(alloc: Global) -> Result<Draft, NoMemory>
    ensures { IfOk result (λ d. (e : Number → Tree)
        → form_of e d ≡ denominator (e First) ⊠ denominator (e Second)) }
{
    Draft::Denominator(Number::First).times(alloc, Draft::Denominator(Number::Second))
}

/// The denominator of the rows of a step's point.
pub(crate) fn step_denominator(alloc: Global, step: Step) -> Result<Draft, NoMemory>
    ensures { IfOk result (λ d. (nodes : Store)
        → form_of (number_trees nodes (step_terms step)) d ≡ step_denominator nodes step) }
{
    match step {
        Step::Point => Ok(Draft::Integer(1)),
        Step::Inter { u, v, p, q } => Draft::Area(u, p, q).minus(alloc, Draft::Area(v, p, q)),
        Step::Foot { p: _, u, v } => Ok(Draft::Pythagoras(u, v, u)),
        Step::Pratio { .. } => Ok(Draft::Denominator(Number::First)),
        Step::Tratio { .. } => Draft::Integer(4).times(alloc, Draft::Denominator(Number::First)),
        Step::Weights { .. } => both_denominators(alloc),
    }
}

/// The terms of the step's numbers.
pub(crate) fn step_terms(step: Step) -> StepTerms
    ensures { result ≡ step_terms step }
{
    match step {
        Step::Pratio { r, .. } | Step::Tratio { r, .. } => StepTerms {
            first: Some(r),
            second: None,
        },
        Step::Weights { r, s, .. } => StepTerms {
            first: Some(r),
            second: Some(s),
        },
        _ => StepTerms::none(),
    }
}

/// The row with this power and this numerator, by the step that makes the point.
pub fn step_draft(alloc: Global, step: Step, power: u32, num: Draft) -> Result<RowDraft, NoMemory>
    ensures row { IfOk result (λ d. (nodes : Store) → row_of_draft nodes d
        ≡ step_row nodes step power (form_of (number_trees nodes (step_terms step)) num)) }
    ensures terms { IfOk result (λ d. d.terms ≡ step_terms step) }
{
    let den = step_denominator(alloc, step)?;
    let terms = step_terms(step);
    Ok(RowDraft {
        power,
        num,
        den,
        terms,
    })
}
