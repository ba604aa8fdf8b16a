//! Worked moves. What is expected was worked out by hand.

ghost use Rattle.std.specs.Prelude.{◌≡◌, ◌<◌, IfOk, length};
ghost use Rattle.fraction_poly.specs.TableRows.{HasPointsBelow};
ghost use Rattle.geo_logs.specs.Moves.{place_of};
ghost use Rattle.geo_logs.specs.Naming.{IsPlaceBelow};
ghost use Rattle.geo_poly.specs.PolynomialVariables.{AllVariables};

use elim_apply::{ApplyError, Move, apply};
use geo_base::Budget;
use geo_points::{NoMemory, PointId};
use geo_poly::{Poly, Ticks, Var};
use geo_terms::{Node, Step, Steps};
use std::alloc::Global;
use std::marker::Brand;
use std::sync::ledger::{Blank, Ledger};
use std::test::Fail;

/// The polynomial after a move, with so many charges and a counter.
fn applied_in<L: Ledger>(
    alloc: Global,
    steps: &Steps,
    p: &Poly,
    mv: &Move,
    left: u64,
    blank: Blank,
) -> Result<Poly, ApplyError>
    requires points { AllVariables (HasPointsBelow (length steps.now.steps)) p.now }
    requires place { IsPlaceBelow (length steps.now.steps) (place_of mv.now) }
    requires name { blank.name ≡ L.name }
    requires parts { blank.parts ≡ L.parts }
    requires some { 0 < blank.parts }
{
    let mut ticks = Ticks::<L>::new(blank);
    apply(alloc, steps, p, mv, &mut Budget { left }, &mut ticks)
}

/// The polynomial after a move, with so many charges.
fn applied(alloc: Global, steps: &Steps, p: &Poly, mv: &Move, left: u64) -> Result<Poly, ApplyError>
    requires points { AllVariables (HasPointsBelow (length steps.now.steps)) p.now }
    requires place { IsPlaceBelow (length steps.now.steps) (place_of mv.now) }
{
    applied_in::<Brand>(alloc, steps, p, mv, left, Blank::new(1))
}

/// Two free points and the middle between them.
pub fn with_middle(alloc: Global) -> Result<Steps, NoMemory>
    ensures { IfOk result (λ s. length s.steps ≡ 3) }
{
    let mut steps = Steps::new(alloc)?;
    let a = steps.push(Step::Point)?;
    let b = steps.push(Step::Point)?;
    let one = steps.intern(Node::Int(1))?;
    let two = steps.intern(Node::Int(2))?;
    let r = steps.intern(Node::Div(one, two))?;
    steps.push(Step::Pratio {
        w: a,
        u: a,
        v: b,
        r,
    })?;
    Ok(steps)
}

/// What the middle leaves of the area of the three points, with so many charges.
fn without_middle(alloc: Global, left: u64) -> Result<Poly, ApplyError> {
    let steps = with_middle(alloc)?;
    let [a, b, y] = [PointId(0), PointId(1), PointId(2)];
    let area = Poly::var(alloc, Var::S(a, b, y))?;
    applied(alloc, &steps, &area, &Move::Point(y), left)
}

#[test]
fn a_middle_lies_on_its_line(rt: HostRuntime) -> Result<(), Fail> {
    let alloc = rt.alloc();
    assert!(rt; without_middle(alloc, 24).is_ok_and(|q| q.is_zero()));
    assert!(rt; matches!(without_middle(alloc, 23), Err(ApplyError::Spent)));
    Ok(())
}

/// Four free points.
fn with_four(alloc: Global) -> Result<Steps, NoMemory>
    ensures { IfOk result (λ s. length s.steps ≡ 4) }
{
    let mut steps = Steps::new(alloc)?;
    steps.push(Step::Point)?;
    steps.push(Step::Point)?;
    steps.push(Step::Point)?;
    steps.push(Step::Point)?;
    Ok(steps)
}

/// The square of the distance of two free points, twice, in their coordinates.
fn square(alloc: Global) -> Result<Poly, ApplyError> {
    let steps = with_four(alloc)?;
    let [c, d] = [PointId(2), PointId(3)];
    let square = Poly::var(alloc, Var::P(c, d, c))?;
    applied(alloc, &steps, &square, &Move::Coords, 52)
}

#[test]
fn free_points_have_coordinates(rt: HostRuntime) -> Result<(), Fail> {
    assert!(rt; square(rt.alloc()).is_ok_and(|q| q.terms() == 6 && q.norm() == 16));
    Ok(())
}

/// The ratio AF / BF goes, where F lies on the lines AB and CP.
fn ratio_gone(alloc: Global, left: u64) -> Result<Poly, ApplyError> {
    let mut steps = with_four(alloc)?;
    let [a, b, c, p] = [PointId(0), PointId(1), PointId(2), PointId(3)];
    let f = steps.push(Step::Inter {
        u: a,
        v: b,
        p: c,
        q: p,
    })?;
    let var = Var::R(a, f, b, f);
    let ratio = Poly::var(alloc, var)?;
    let mv = Move::Ratio {
        var,
        lemma: 21,
        at: f,
    };
    applied(alloc, &steps, &ratio, &mv, left)
}

#[test]
fn a_ratio_becomes_an_area(rt: HostRuntime) -> Result<(), Fail> {
    // 4 (1 + 1) for the row, and 2 for the term.
    let area = Poly::var(rt.alloc(), Var::S(PointId(0), PointId(2), PointId(3)))?;
    assert!(rt; ratio_gone(rt.alloc(), 10).is_ok_and(|q| q.same(&area)));
    Ok(())
}

/// Three free points, and the point with the weight 1/3 at each of them.
fn with_centroid(alloc: Global) -> Result<Steps, NoMemory>
    ensures { IfOk result (λ s. length s.steps ≡ 4) }
{
    let mut steps = Steps::new(alloc)?;
    let a = steps.push(Step::Point)?;
    let b = steps.push(Step::Point)?;
    let c = steps.push(Step::Point)?;
    let one = steps.intern(Node::Int(1))?;
    let three = steps.intern(Node::Int(3))?;
    let r = steps.intern(Node::Div(one, three))?;
    steps.push(Step::Weights {
        o: a,
        u: b,
        v: c,
        r,
        s: r,
    })?;
    Ok(steps)
}

/// What the point by weights leaves of its area with two of the three points.
fn without_centroid(alloc: Global, left: u64) -> Result<Poly, ApplyError> {
    let steps = with_centroid(alloc)?;
    let [b, c, x] = [PointId(1), PointId(2), PointId(3)];
    let area = Poly::var(alloc, Var::S(b, c, x))?;
    applied(alloc, &steps, &area, &Move::Point(x), left)
}

#[test]
fn a_centroid_has_a_third_of_the_area(rt: HostRuntime) -> Result<(), Fail> {
    let alloc = rt.alloc();
    // 2 and 2 for both numbers, 4 (5 + 1) for the row, and 2 times 5 for the term; and what is left
    // is (9 - 3 - 3) S_BCA.
    assert!(rt; without_centroid(alloc, 38).is_ok_and(|q| q.terms() == 1 && q.norm() == 3));
    assert!(rt; matches!(without_centroid(alloc, 37), Err(ApplyError::Spent)));
    Ok(())
}
