//! Quantities as a sign times a variable whose points are sorted.
ghost use Rattle.std.specs.Prelude.{◌≡◌, ◌≤◌, ◌*ℤ◌, unsigned_abs};
ghost use Rattle.geo_poly.specs.Canonical.{canonical_area, canonical_difference, canonical_ratio};
ghost use Rattle.geo_poly.specs.Canonical.{higher, lower, pair_sign, sorted_difference};

use crate::variables::Var;
use geo_points::PointId;
use std::cmp::Ordering;

/// A quantity as a sign times a variable. Where there is no variable, it is the number `sign`.
///
/// Each quantity has one such form. The points of its variable are sorted, and a variable with
/// sorted points is its own form (`laws::canonical_forms_are_sorted`,
/// `laws::sorted_variables_are_canonical`).
#[derive(Clone, Copy, Debug, PartialEq, Eq)]
pub struct Canon {
    /// The sign -1, 0 or 1; with a variable it is not 0.
    pub sign: i128,
    /// The variable, or `None` where the quantity is a number.
    pub var: Option<Var>,
}

/// The signed area of three points: 0 where two of them are the same, else a sign times the
/// variable of the sorted points.
pub fn canon_s(a: PointId, b: PointId, c: PointId) -> Canon
    ensures { result ≡ canonical_area a b c }
{
    let sign = times_pair_sign(times_pair_sign(times_pair_sign(1, a, b), b, c), a, c);
    if sign == 0 {
        return Canon { sign: 0, var: None };
    }
    let least = a.0.min(b.0).min(c.0);
    let middle = a.0.min(b.0).max(a.0.max(b.0).min(c.0));
    let greatest = a.0.max(b.0).max(c.0);
    Canon {
        sign,
        var: Some(Var::S(PointId(least), PointId(middle), PointId(greatest))),
    }
}

/// The Pythagoras difference of three points: 0 where the middle one is an end, else the variable
/// with its ends sorted; that of a segment has the lower point at its ends.
pub fn canon_p(a: PointId, b: PointId, c: PointId) -> Canon
    ensures { result ≡ canonical_difference a b c }
{
    if a == b || b == c {
        return Canon { sign: 0, var: None };
    }
    Canon {
        sign: 1,
        var: Some(sorted_difference(a, b, c)),
    }
}

/// The variable of a Pythagoras difference.
fn sorted_difference(a: PointId, b: PointId, c: PointId) -> Var
    ensures { result ≡ sorted_difference a b c }
{
    if a == c {
        Var::P(lower(a, b), higher(a, b), lower(a, b))
    } else {
        Var::P(lower(a, c), b, higher(a, c))
    }
}

/// The ratio of AB to CD: 0 where a pair has one point twice, else a sign for each pair that stands
/// in the wrong order, times the variable of the sorted pairs, or alone where these are the same.
/// Where C is D, the ratio has no value anywhere, so nothing rests on the 0.
pub fn canon_r(a: PointId, b: PointId, c: PointId, d: PointId) -> Canon
    ensures { result ≡ canonical_ratio a b c d }
{
    let sign = times_pair_sign(times_pair_sign(1, a, b), c, d);
    let (low, high) = (lower(a, b), higher(a, b));
    let (from, to) = (lower(c, d), higher(c, d));
    if sign == 0 || (low == from && high == to) {
        return Canon { sign, var: None };
    }
    Canon {
        sign,
        var: Some(Var::R(low, high, from, to)),
    }
}

/// The point with the lower number.
fn lower(a: PointId, b: PointId) -> PointId
    ensures { result ≡ lower a b }
{
    PointId(a.0.min(b.0))
}

/// The point with the higher number.
fn higher(a: PointId, b: PointId) -> PointId
    ensures { result ≡ higher a b }
{
    PointId(a.0.max(b.0))
}

/// The sign, turned where the points stand in the wrong order, and 0 where they are the same.
fn times_pair_sign(sign: i128, a: PointId, b: PointId) -> i128
    requires { unsigned_abs sign ≤ 1 }
    ensures value { result ≡ sign *ℤ pair_sign a b }
    ensures small { unsigned_abs result ≤ 1 }
{
    match a.0.cmp(&b.0) {
        Ordering::Less => sign,
        Ordering::Equal => 0,
        Ordering::Greater => -sign,
    }
}
