//! The highest constructed point of a polynomial.

ghost use Rattle.std.specs.Prelude.{◌≡◌, ◌↔◌, ◌||◌, IfNone, IfSome, IsTrue, None};
ghost use Rattle.geo_chain.specs.Inner.Searches.{Improves, IsAsHigh, MakesOneAmong, MakesPoint};
ghost use Rattle.geo_chain.specs.Inner.Searches.{MakesOneIn, MakesOneOf, Reaches};
ghost use Rattle.geo_logs.specs.Defined.{HasFreePointsAlone, IsConstructed, IsHighest, is_point};
ghost use Rattle.geo_poly.specs.Shared.{AreParts, IsIndexOf, told, told_powers};

use geo_points::PointId;
use geo_poly::{Shared, Var};
use geo_terms::{Step, Steps};
use mono_store::MonoId;

/// The constructed point of the highest number in the quantities of the polynomial.
pub(crate) fn highest_constructed(steps: &Steps, p: &Shared) -> Option<PointId>
    requires { AreParts p.now }
    ensures some { IfSome result (λ y. IsHighest steps.now y (told p.now)) }
    ensures none { IfNone result (HasFreePointsAlone steps.now (told p.now)) }
{
    highest_of_terms(steps, p, highest_listed(steps, p.vars))
}

/// The highest constructed point of the listed variables, which need not all occur.
fn highest_listed(steps: &Steps, variables: &[Var]) -> Option<PointId>
    ensures { Improves IsAsHigh (MakesOneOf steps.now variables.now) None result }
{
    let mut highest = None;
    for v in variables {
        highest = highest_with(steps, *v, highest);
    }
    highest
}

/// The highest constructed point of the terms, of which none has a higher one than `most`: no term is
/// looked at behind the first one that has this.
fn highest_of_terms(steps: &Steps, p: &Shared, most: Option<PointId>) -> Option<PointId>
    requires parts { AreParts p.now }
    requires most { Improves IsAsHigh (MakesOneOf steps.now p.now.vars.now) None most }
    ensures { Improves IsAsHigh (MakesOneIn steps.now (told p.now)) None result }
{
    let mut highest = None;
    for (id, _) in p.list {
        if reaches(highest, most) {
            return highest;
        }
        highest = highest_in(steps, p, *id, highest);
    }
    highest
}

/// Whether the point is as high as the other one, where there is another one.
fn reaches(found: Option<PointId>, most: Option<PointId>) -> bool
    ensures { IsTrue result → IfSome most (Reaches IsAsHigh found) }
{
    match (found, most) {
        (_, None) => true,
        (None, Some(_)) => false,
        (Some(y), Some(z)) => z.0 <= y.0,
    }
}

/// The highest constructed point of a monomial and of what was there before.
fn highest_in(steps: &Steps, p: &Shared, id: MonoId, before: Option<PointId>) -> Option<PointId>
    requires { IsIndexOf p.now id }
    ensures { Improves IsAsHigh (MakesOneAmong steps.now (told_powers p.now id)) before result }
{
    let mut highest = before;
    let mut rest = id;
    while let Some(first) = p.first_power(rest) {
        highest = highest_with(steps, first.var, highest);
        rest = first.rest;
    }
    highest
}

/// The highest constructed point of a variable and of what was there before.
fn highest_with(steps: &Steps, v: Var, before: Option<PointId>) -> Option<PointId>
    ensures { Improves IsAsHigh (MakesPoint steps.now v) before result }
{
    match v {
        Var::R(a, b, c, d) => highest_of_four(steps, a, b, c, d, before),
        Var::S(a, b, c) | Var::P(a, b, c) => highest_of_three(steps, a, b, c, before),
        Var::X(_) | Var::Y(_) | Var::T(_) => before,
    }
}

/// The highest constructed one of four points and of what was there before.
fn highest_of_four(
    steps: &Steps,
    a: PointId,
    b: PointId,
    c: PointId,
    d: PointId,
    before: Option<PointId>,
) -> Option<PointId>
    ensures { Improves IsAsHigh (λ z. IsConstructed steps.now z
        × IsTrue (is_point a z || is_point b z || is_point c z || is_point d z)) before result }
{
    let third = higher(steps, c, higher(steps, d, before));
    higher(steps, a, higher(steps, b, third))
}

/// The highest constructed one of three points and of what was there before.
fn highest_of_three(
    steps: &Steps,
    a: PointId,
    b: PointId,
    c: PointId,
    before: Option<PointId>,
) -> Option<PointId>
    ensures { Improves IsAsHigh (λ z. IsConstructed steps.now z
        × IsTrue (is_point a z || is_point b z || is_point c z)) before result }
{
    higher(steps, a, higher(steps, b, higher(steps, c, before)))
}

/// The point, where it is constructed and higher than what was there before; else that.
fn higher(steps: &Steps, y: PointId, before: Option<PointId>) -> Option<PointId>
    ensures { Improves IsAsHigh
        (λ z. IsConstructed steps.now z × IsTrue (is_point y z)) before result }
{
    match before {
        Some(z) if z.0 >= y.0 => before,
        _ if is_constructed(steps, y) => Some(y),
        _ => before,
    }
}

/// Whether a step makes the point, and not as a free one.
fn is_constructed(steps: &Steps, y: PointId) -> bool
    ensures { IsTrue result ↔ IsConstructed steps.now y }
{
    y.0 < steps.count() && !matches!(steps.step(y), Step::Point)
}
