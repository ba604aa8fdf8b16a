//! The terms of goals, put into the store of the steps of the citing program. A store with no room
//! left is answered by NoMemory.

ghost use Rattle.std.specs.Prelude.{◌<◌, pos, IfOk, length};
ghost use Rattle.geo_terms.specs.Stores.{tree_of};
ghost use Rattle.geo_terms.specs.Trees.{addition, area_leaf, integer_leaf, multiplication};
ghost use Rattle.geo_terms.specs.Trees.{pythagoras_leaf, subtraction};
ghost use Rattle.geo_conditions.specs.Inner.ItemTerms.{HasTerm};
ghost use Rattle.geo_library.specs.CitedGoals.{along_goal, centroid_goal, turned_goal};
ghost use Rattle.geo_library.specs.CitedGoals.{weights_goal};
ghost use Rattle.geo_library.specs.Inner.Goals.{IsGoalWithin, IsNumberWithin, goal_tree};
ghost use Rattle.geo_library.specs.Inner.Goals.{number_tree};

use crate::goals::{Goal, Number};
use geo_conditions::interning::{
    area, difference, intern, midpoint, perpendicular, product, pythagoras, same_length, sum,
};
use geo_points::{NoMemory, PointId, TermId};
use geo_terms::{Node, Steps};

// A number.
fn number(steps: &mut Steps, number: Number) -> Result<TermId, NoMemory>
    requires stored { IsNumberWithin (length steps.old.nodes) number }
    ensures { IfOk result (λ id. HasTerm steps.old steps.new id
        (number_tree steps.old.nodes number)) }
{
    match number {
        Number::One => intern(steps, Node::Int(1)),
        Number::Stored(e) => Ok(e),
    }
}

// 2 e.
fn twice(steps: &mut Steps, e: TermId) -> Result<TermId, NoMemory>
    requires stored { e.0 < length steps.old.nodes }
    ensures { IfOk result (λ id. HasTerm steps.old steps.new id
        (multiplication (integer_leaf (pos 2)) (tree_of steps.old.nodes e))) }
{
    let n = intern(steps, Node::Int(2))?;
    product(steps, n, e)
}

// 8 e.
fn eight_times(steps: &mut Steps, e: TermId) -> Result<TermId, NoMemory>
    requires stored { e.0 < length steps.old.nodes }
    ensures { IfOk result (λ id. HasTerm steps.old steps.new id
        (multiplication (integer_leaf (pos 8)) (tree_of steps.old.nodes e))) }
{
    let n = intern(steps, Node::Int(8))?;
    product(steps, n, e)
}

// r r P_UVU.
fn square_times(steps: &mut Steps, r: TermId, u: PointId, v: PointId) -> Result<TermId, NoMemory>
    requires stored { r.0 < length steps.old.nodes }
    ensures { IfOk result (λ id. HasTerm steps.old steps.new id
        (multiplication (multiplication (tree_of steps.old.nodes r) (tree_of steps.old.nodes r)) (pythagoras_leaf u v u))) }
{
    let square = product(steps, r, r)?;
    let length = pythagoras(steps, u, v, u)?;
    product(steps, square, length)
}

// e + r r P_UVU.
fn with_square(
    steps: &mut Steps,
    e: TermId,
    r: TermId,
    u: PointId,
    v: PointId,
) -> Result<TermId, NoMemory>
    requires e { e.0 < length steps.old.nodes }
    requires r { r.0 < length steps.old.nodes }
    ensures { IfOk result (λ id. HasTerm steps.old steps.new id
        (addition (tree_of steps.old.nodes e)
        (multiplication (multiplication (tree_of steps.old.nodes r) (tree_of steps.old.nodes r))
        (pythagoras_leaf u v u)))) }
{
    let square = square_times(steps, r, u, v)?;
    sum(steps, e, square)
}

// P_XWX + r r P_UVU.
fn squares(
    steps: &mut Steps,
    x: PointId,
    w: PointId,
    u: PointId,
    v: PointId,
    r: TermId,
) -> Result<TermId, NoMemory>
    requires stored { r.0 < length steps.old.nodes }
    ensures { IfOk result (λ id. HasTerm steps.old steps.new id
        (addition (pythagoras_leaf x w x)
        (multiplication (multiplication (tree_of steps.old.nodes r) (tree_of steps.old.nodes r))
        (pythagoras_leaf u v u)))) }
{
    let length = pythagoras(steps, x, w, x)?;
    with_square(steps, length, r, u, v)
}

// 2 r (P_XUV - P_WUV).
fn along_twice(
    steps: &mut Steps,
    x: PointId,
    w: PointId,
    u: PointId,
    v: PointId,
    r: TermId,
) -> Result<TermId, NoMemory>
    requires stored { r.0 < length steps.old.nodes }
    ensures { IfOk result (λ id. HasTerm steps.old steps.new id
        (multiplication (multiplication (integer_leaf (pos 2)) (tree_of steps.old.nodes r))
        (subtraction (pythagoras_leaf x u v) (pythagoras_leaf w u v)))) }
{
    let twice = twice(steps, r)?;
    let along = perpendicular(steps, x, w, u, v)?;
    product(steps, twice, along)
}

// P_XWX + r r P_UVU - 2 r (P_XUV - P_WUV).
fn along(
    steps: &mut Steps,
    x: PointId,
    w: PointId,
    u: PointId,
    v: PointId,
    r: TermId,
) -> Result<TermId, NoMemory>
    requires stored { r.0 < length steps.old.nodes }
    ensures { IfOk result (λ id. HasTerm steps.old steps.new id
        (along_goal x w u v (tree_of steps.old.nodes r))) }
{
    let squares = squares(steps, x, w, u, v, r)?;
    let along = along_twice(steps, x, w, u, v, r)?;
    difference(steps, squares, along)
}

// 8 r S_UVX.
fn turned_part(
    steps: &mut Steps,
    x: PointId,
    u: PointId,
    v: PointId,
    r: TermId,
) -> Result<TermId, NoMemory>
    requires stored { r.0 < length steps.old.nodes }
    ensures { IfOk result (λ id. HasTerm steps.old steps.new id
        (multiplication (multiplication (integer_leaf (pos 8)) (tree_of steps.old.nodes r))
        (area_leaf u v x))) }
{
    let eight = eight_times(steps, r)?;
    let area = area(steps, u, v, x)?;
    product(steps, eight, area)
}

// P_XUX + r r P_UVU - 8 r S_UVX.
fn turned(
    steps: &mut Steps,
    x: PointId,
    u: PointId,
    v: PointId,
    r: TermId,
) -> Result<TermId, NoMemory>
    requires stored { r.0 < length steps.old.nodes }
    ensures { IfOk result (λ id. HasTerm steps.old steps.new id
        (turned_goal x u v (tree_of steps.old.nodes r))) }
{
    let squares = squares(steps, x, u, u, v, r)?;
    let turned = turned_part(steps, x, u, v, r)?;
    difference(steps, squares, turned)
}

// S_PQX + S_PQA.
fn halfway(
    steps: &mut Steps,
    x: PointId,
    a: PointId,
    p: PointId,
    q: PointId,
) -> Result<TermId, NoMemory>
    ensures { IfOk result (λ id. HasTerm steps.old steps.new id
        (addition (area_leaf p q x) (area_leaf p q a))) }
{
    let first = area(steps, p, q, x)?;
    let second = area(steps, p, q, a)?;
    sum(steps, first, second)
}

// P_XOP - P_AOA.
fn inverse(
    steps: &mut Steps,
    x: PointId,
    p: PointId,
    o: PointId,
    a: PointId,
) -> Result<TermId, NoMemory>
    ensures { IfOk result (λ id. HasTerm steps.old steps.new id
        (subtraction (pythagoras_leaf x o p) (pythagoras_leaf a o a))) }
{
    let first = pythagoras(steps, x, o, p)?;
    let second = pythagoras(steps, a, o, a)?;
    difference(steps, first, second)
}

// P_AXA + P_BXB + P_CXC.
fn lengths(
    steps: &mut Steps,
    x: PointId,
    a: PointId,
    b: PointId,
    c: PointId,
) -> Result<TermId, NoMemory>
    ensures { IfOk result (λ id. HasTerm steps.old steps.new id
        (addition (addition (pythagoras_leaf a x a) (pythagoras_leaf b x b))
        (pythagoras_leaf c x c))) }
{
    let first = pythagoras(steps, a, x, a)?;
    let second = pythagoras(steps, b, x, b)?;
    let both = sum(steps, first, second)?;
    let third = pythagoras(steps, c, x, c)?;
    sum(steps, both, third)
}

// P_AXB + P_BXC + P_CXA.
fn angles(
    steps: &mut Steps,
    x: PointId,
    a: PointId,
    b: PointId,
    c: PointId,
) -> Result<TermId, NoMemory>
    ensures { IfOk result (λ id. HasTerm steps.old steps.new id
        (addition (addition (pythagoras_leaf a x b) (pythagoras_leaf b x c))
        (pythagoras_leaf c x a))) }
{
    let first = pythagoras(steps, a, x, b)?;
    let second = pythagoras(steps, b, x, c)?;
    let both = sum(steps, first, second)?;
    let third = pythagoras(steps, c, x, a)?;
    sum(steps, both, third)
}

// P_AXA + P_BXB + P_CXC + 2 (P_AXB + P_BXC + P_CXA).
fn centroid(
    steps: &mut Steps,
    x: PointId,
    a: PointId,
    b: PointId,
    c: PointId,
) -> Result<TermId, NoMemory>
    ensures { IfOk result (λ id. HasTerm steps.old steps.new id
        (centroid_goal x a b c)) }
{
    let lengths = lengths(steps, x, a, b, c)?;
    let angles = angles(steps, x, a, b, c)?;
    let twice = twice(steps, angles)?;
    sum(steps, lengths, twice)
}

// 2 r P_XAB.
fn twice_along(
    steps: &mut Steps,
    r: TermId,
    x: PointId,
    a: PointId,
    b: PointId,
) -> Result<TermId, NoMemory>
    requires stored { r.0 < length steps.old.nodes }
    ensures { IfOk result (λ id. HasTerm steps.old steps.new id
        (multiplication (multiplication (integer_leaf (pos 2)) (tree_of steps.old.nodes r))
        (pythagoras_leaf x a b))) }
{
    let twice = twice(steps, r)?;
    let quantity = pythagoras(steps, x, a, b)?;
    product(steps, twice, quantity)
}

// e - 2 r P_XAB.
fn less_along(
    steps: &mut Steps,
    e: TermId,
    r: TermId,
    x: PointId,
    a: PointId,
    b: PointId,
) -> Result<TermId, NoMemory>
    requires e { e.0 < length steps.old.nodes }
    requires r { r.0 < length steps.old.nodes }
    ensures { IfOk result (λ id. HasTerm steps.old steps.new id
        (subtraction (tree_of steps.old.nodes e)
        (multiplication (multiplication (integer_leaf (pos 2)) (tree_of steps.old.nodes r))
        (pythagoras_leaf x a b)))) }
{
    let along = twice_along(steps, r, x, a, b)?;
    difference(steps, e, along)
}

// 2 r s P_BAC.
fn twice_both(
    steps: &mut Steps,
    a: PointId,
    b: PointId,
    c: PointId,
    r: TermId,
    s: TermId,
) -> Result<TermId, NoMemory>
    requires r { r.0 < length steps.old.nodes }
    requires s { s.0 < length steps.old.nodes }
    ensures { IfOk result (λ id. HasTerm steps.old steps.new id
        (multiplication (multiplication (multiplication (integer_leaf (pos 2))
        (tree_of steps.old.nodes r)) (tree_of steps.old.nodes s)) (pythagoras_leaf b a c))) }
{
    let twice = twice(steps, r)?;
    let both = product(steps, twice, s)?;
    let quantity = pythagoras(steps, b, a, c)?;
    product(steps, both, quantity)
}

// P_XAX + r r P_BAB + s s P_CAC.
fn weighted_squares(
    steps: &mut Steps,
    x: PointId,
    a: PointId,
    b: PointId,
    c: PointId,
    r: TermId,
    s: TermId,
) -> Result<TermId, NoMemory>
    requires r { r.0 < length steps.old.nodes }
    requires s { s.0 < length steps.old.nodes }
    ensures { IfOk result (λ id. HasTerm steps.old steps.new id
        (addition (addition (pythagoras_leaf x a x)
        (multiplication (multiplication (tree_of steps.old.nodes r) (tree_of steps.old.nodes r)) (pythagoras_leaf b a b)))
        (multiplication (multiplication (tree_of steps.old.nodes s) (tree_of steps.old.nodes s))
        (pythagoras_leaf c a c)))) }
{
    let first = squares(steps, x, a, b, a, r)?;
    with_square(steps, first, s, c, a)
}

// P_XAX + r r P_BAB + s s P_CAC - 2 r P_XAB - 2 s P_XAC + 2 r s P_BAC.
fn weights(
    steps: &mut Steps,
    x: PointId,
    a: PointId,
    b: PointId,
    c: PointId,
    r: TermId,
    s: TermId,
) -> Result<TermId, NoMemory>
    requires r { r.0 < length steps.old.nodes }
    requires s { s.0 < length steps.old.nodes }
    ensures { IfOk result (λ id. HasTerm steps.old steps.new id
        (weights_goal x a b c (tree_of steps.old.nodes r) (tree_of steps.old.nodes s))) }
{
    let squares = weighted_squares(steps, x, a, b, c, r, s)?;
    let first = less_along(steps, squares, r, x, a, b)?;
    let second = less_along(steps, first, s, x, a, c)?;
    let both = twice_both(steps, a, b, c, r, s)?;
    sum(steps, second, both)
}

/// The index of a goal's term, which is added where it is new.
pub fn intern_goal(steps: &mut Steps, goal: Goal) -> Result<TermId, NoMemory>
    requires { IsGoalWithin (length steps.old.nodes) goal }
    ensures { IfOk result (λ id. HasTerm steps.old steps.new id (goal_tree steps.old.nodes goal)) }
{
    match goal {
        Goal::OnLine { a, b, x } => area(steps, a, b, x),
        Goal::Upright { x, y, a, b } => perpendicular(steps, x, y, a, b),
        Goal::Along { x, w, u, v, r } => {
            let r = number(steps, r)?;
            along(steps, x, w, u, v, r)
        }
        Goal::Turned { x, u, v, r } => turned(steps, x, u, v, r),
        Goal::Midpoint { m, a, b } => midpoint(steps, m, a, b),
        Goal::Halfway { x, a, p, q } => halfway(steps, x, a, p, q),
        Goal::Bisector { x, a, b } => same_length(steps, x, a, x, b),
        Goal::Circle { x, o, a } => same_length(steps, x, o, a, o),
        Goal::Centroid { x, a, b, c } => centroid(steps, x, a, b, c),
        Goal::Inverse { x, p, o, a } => inverse(steps, x, p, o, a),
        Goal::Weights { x, a, b, c, r, s } => weights(steps, x, a, b, c, r, s),
    }
}
