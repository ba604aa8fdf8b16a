//! The first variable of a kind in a polynomial.

ghost use Rattle.std.specs.Prelude.{◌≡◌, ◌↔◌, IfNone, IfSome, IsTrue, None};
ghost use Rattle.std.specs.List.Sorted.{IsStrictlySortedBy};
ghost use Rattle.geo_chain.specs.Inner.Searches.{Fits, HasFittingAmong, HasFittingIn, Improves};
ghost use Rattle.geo_chain.specs.Inner.Searches.{IsFirstFitting, IsFitting, IsNotAfter, NoneFits};
ghost use Rattle.geo_chain.specs.Inner.Searches.{Reaches};
ghost use Rattle.geo_logs.specs.Defined.{has_point};
ghost use Rattle.geo_poly.specs.PolynomialVariables.{IsQuantity, IsRatio, variables_of};
ghost use Rattle.geo_poly.specs.Shared.{AreParts, IsIndexOf, told, told_powers};
ghost use Rattle.geo_poly.specs.Variables.{var_cmp};

use geo_points::PointId;
use geo_poly::{Shared, Var};
use mono_store::MonoId;
use std::cmp::Ordering;

/// A kind of variables.
#[derive(Clone, Copy, Debug)]
pub(crate) enum Sought {
    /// The ratios with a point.
    RatioWith(PointId),
    /// All ratios.
    AnyRatio,
    /// All ratios, areas and Pythagoras differences.
    AnyQuantity,
}

impl Sought {
    /// Whether the variable is of this kind.
    fn fits(self, v: Var) -> bool
        ensures { IsTrue result ↔ Fits self v }
    {
        match self {
            Sought::RatioWith(y) => is_ratio(v) && has_point(y, v),
            Sought::AnyRatio => is_ratio(v),
            Sought::AnyQuantity => is_quantity(v),
        }
    }
}

/// The first variable of this kind in the polynomial.
pub(crate) fn first_fitting(p: &Shared, sought: Sought) -> Option<Var>
    requires { AreParts p.now }
    ensures some { IfSome result (IsFirstFitting sought (variables_of (told p.now))) }
    ensures none { IfNone result (NoneFits sought (variables_of (told p.now))) }
{
    first_of_terms(p, sought, first_listed(p.vars, sought))
}

/// The first variable of this kind, where the variables are in order.
fn first_listed(variables: &[Var], sought: Sought) -> Option<Var>
    requires { IsStrictlySortedBy var_cmp variables.now }
    ensures some { IfSome result (IsFirstFitting sought variables.now) }
    ensures none { IfNone result (NoneFits sought variables.now) }
{
    for v in variables {
        if sought.fits(*v) {
            return Some(*v);
        }
    }
    None
}

/// The first variable of this kind in the terms, of which none has an earlier one than `least`: no term
/// is looked at behind the first one that has this.
fn first_of_terms(p: &Shared, sought: Sought, least: Option<Var>) -> Option<Var>
    requires parts { AreParts p.now }
    requires some { IfSome least (IsFirstFitting sought p.now.vars.now) }
    requires none { IfNone least (NoneFits sought p.now.vars.now) }
    ensures { Improves IsNotAfter (HasFittingIn sought (told p.now)) None result }
{
    let mut first = None;
    for (id, _) in p.list {
        if reaches(first, least) {
            return first;
        }
        first = first_in(p, *id, sought, first);
    }
    first
}

/// Whether the variable stands no later than the other one, where there is another one.
fn reaches(found: Option<Var>, least: Option<Var>) -> bool
    ensures { IsTrue result → IfSome least (Reaches IsNotAfter found) }
{
    match (found, least) {
        (_, None) => true,
        (None, Some(_)) => false,
        (Some(v), Some(w)) => v == w,
    }
}

/// The first variable of this kind in a monomial, or what was there before, where that is earlier.
fn first_in(p: &Shared, id: MonoId, sought: Sought, before: Option<Var>) -> Option<Var>
    requires { IsIndexOf p.now id }
    ensures { Improves IsNotAfter (HasFittingAmong sought (told_powers p.now id)) before result }
{
    let mut first = before;
    let mut rest = id;
    while let Some(power) = p.first_power(rest) {
        first = earlier(sought, power.var, first);
        rest = power.rest;
    }
    first
}

/// The variable, where it is of this kind and earlier than what was there before; else that.
fn earlier(sought: Sought, v: Var, before: Option<Var>) -> Option<Var>
    ensures { Improves IsNotAfter (IsFitting sought v) before result }
{
    if !sought.fits(v) {
        return before;
    }
    match before {
        Some(w) if w.cmp(&v) != Ordering::Greater => before,
        _ => Some(v),
    }
}

/// Whether the variable is a ratio.
fn is_ratio(v: Var) -> bool
    ensures { IsTrue result ↔ IsRatio v }
{
    matches!(v, Var::R(_, _, _, _))
}

/// Whether the variable is a quantity of points.
fn is_quantity(v: Var) -> bool
    ensures { IsTrue result ↔ IsQuantity v }
{
    matches!(v, Var::R(_, _, _, _) | Var::S(_, _, _) | Var::P(_, _, _))
}

/// Whether the variable is a quantity with the point.
fn has_point(y: PointId, v: Var) -> bool
    ensures { result ≡ has_point y v }
{
    match v {
        Var::R(a, b, c, d) => a == y || b == y || c == y || d == y,
        Var::S(a, b, c) | Var::P(a, b, c) => a == y || b == y || c == y,
        Var::X(_) | Var::Y(_) | Var::T(_) => false,
    }
}
