//! The terms of conditions and goals, put into the store of the steps. A store with no room left is
//! answered by NoMemory.

ghost use Rattle.std.specs.Prelude.{◌<◌, pos, IfOk, length};
ghost use Rattle.geo_terms.specs.Stores.{HasChildrenBelow, HasShortInteger, node_tree, tree_of};
ghost use Rattle.geo_terms.specs.Stores.{trees_of};
ghost use Rattle.geo_terms.specs.Trees.{addition, area_leaf, integer_leaf, multiplication};
ghost use Rattle.geo_terms.specs.Trees.{pythagoras_leaf, ratio_leaf, subtraction};
ghost use Rattle.geo_conditions.specs.Inner.ItemTerms.{HasTerm, IsItemStored, Keeps, item_tree};
ghost use Rattle.geo_conditions.specs.Terms.{area_of, circle_term, midpoint_term, parallel_term};
ghost use Rattle.geo_conditions.specs.Terms.{pythagoras_of, ratio_of};

use crate::item_terms::ItemTerm;
use geo_points::{NoMemory, PointId, TermId};
use geo_terms::{Node, Steps};

/// The index of a node.
pub fn intern(steps: &mut Steps, node: Node) -> Result<TermId, NoMemory>
    requires children { HasChildrenBelow (length steps.old.nodes) node }
    requires integer { HasShortInteger node }
    ensures keeps { Keeps steps.old steps.new }
    ensures term { IfOk result (λ id.
        HasTerm steps.old steps.new id (node_tree (trees_of steps.old.nodes) node)) }
{
    if steps.look().len() == u32::MAX {
        return Err(NoMemory);
    }
    steps.intern(node)
}

// The number 2.
fn two(steps: &mut Steps) -> Result<TermId, NoMemory>
    ensures keeps { Keeps steps.old steps.new }
    ensures term { IfOk result (λ id. HasTerm steps.old steps.new id (integer_leaf (pos 2))) }
{
    intern(steps, Node::Int(2))
}

/// `S_ABC`.
pub fn area(steps: &mut Steps, a: PointId, b: PointId, c: PointId) -> Result<TermId, NoMemory>
    ensures keeps { Keeps steps.old steps.new }
    ensures term { IfOk result (λ id. HasTerm steps.old steps.new id (area_leaf a b c)) }
{
    intern(steps, Node::S(a, b, c))
}

/// `P_ABC`.
pub fn pythagoras(steps: &mut Steps, a: PointId, b: PointId, c: PointId) -> Result<TermId, NoMemory>
    ensures keeps { Keeps steps.old steps.new }
    ensures term { IfOk result (λ id. HasTerm steps.old steps.new id (pythagoras_leaf a b c)) }
{
    intern(steps, Node::P(a, b, c))
}

// AB/CD.
fn ratio(
    steps: &mut Steps,
    a: PointId,
    b: PointId,
    c: PointId,
    d: PointId,
) -> Result<TermId, NoMemory>
    ensures keeps { Keeps steps.old steps.new }
    ensures term { IfOk result (λ id. HasTerm steps.old steps.new id (ratio_leaf a b c d)) }
{
    intern(steps, Node::R(a, b, c, d))
}

/// The sum of two terms.
pub fn sum(steps: &mut Steps, e: TermId, f: TermId) -> Result<TermId, NoMemory>
    requires first { e.0 < length steps.old.nodes }
    requires second { f.0 < length steps.old.nodes }
    ensures keeps { Keeps steps.old steps.new }
    ensures term { IfOk result (λ id. HasTerm steps.old steps.new id
        (addition (tree_of steps.old.nodes e) (tree_of steps.old.nodes f))) }
{
    intern(steps, Node::Add(e, f))
}

/// A term less another.
pub fn difference(steps: &mut Steps, e: TermId, f: TermId) -> Result<TermId, NoMemory>
    requires first { e.0 < length steps.old.nodes }
    requires second { f.0 < length steps.old.nodes }
    ensures keeps { Keeps steps.old steps.new }
    ensures term { IfOk result (λ id. HasTerm steps.old steps.new id
        (subtraction (tree_of steps.old.nodes e) (tree_of steps.old.nodes f))) }
{
    intern(steps, Node::Sub(e, f))
}

/// The product of two terms.
pub fn product(steps: &mut Steps, e: TermId, f: TermId) -> Result<TermId, NoMemory>
    requires first { e.0 < length steps.old.nodes }
    requires second { f.0 < length steps.old.nodes }
    ensures keeps { Keeps steps.old steps.new }
    ensures term { IfOk result (λ id. HasTerm steps.old steps.new id
        (multiplication (tree_of steps.old.nodes e) (tree_of steps.old.nodes f))) }
{
    intern(steps, Node::Mul(e, f))
}

// S_ACD - S_BCD.
fn parallel(
    steps: &mut Steps,
    a: PointId,
    b: PointId,
    c: PointId,
    d: PointId,
) -> Result<TermId, NoMemory>
    ensures keeps { Keeps steps.old steps.new }
    ensures term { IfOk result (λ id. HasTerm steps.old steps.new id (parallel_term a.0 b.0 c.0 d.0)) }
{
    let first = area(steps, a, c, d)?;
    let second = area(steps, b, c, d)?;
    difference(steps, first, second)
}

/// `P_ACD - P_BCD`.
pub fn perpendicular(
    steps: &mut Steps,
    a: PointId,
    b: PointId,
    c: PointId,
    d: PointId,
) -> Result<TermId, NoMemory>
    ensures keeps { Keeps steps.old steps.new }
    ensures term { IfOk result (λ id. HasTerm steps.old steps.new id
        (subtraction (pythagoras_of a.0 c.0 d.0) (pythagoras_of b.0 c.0 d.0))) }
{
    let first = pythagoras(steps, a, c, d)?;
    let second = pythagoras(steps, b, c, d)?;
    difference(steps, first, second)
}

/// `P_ABA - P_CDC`.
pub fn same_length(
    steps: &mut Steps,
    a: PointId,
    b: PointId,
    c: PointId,
    d: PointId,
) -> Result<TermId, NoMemory>
    ensures keeps { Keeps steps.old steps.new }
    ensures term { IfOk result (λ id. HasTerm steps.old steps.new id
        (subtraction (pythagoras_of a.0 b.0 a.0) (pythagoras_of c.0 d.0 c.0))) }
{
    let first = pythagoras(steps, a, b, a)?;
    let second = pythagoras(steps, c, d, c)?;
    difference(steps, first, second)
}

// AC/CB - AD/BD.
fn harmonic(
    steps: &mut Steps,
    a: PointId,
    b: PointId,
    c: PointId,
    d: PointId,
) -> Result<TermId, NoMemory>
    ensures keeps { Keeps steps.old steps.new }
    ensures term { IfOk result (λ id. HasTerm steps.old steps.new id
        (subtraction (ratio_of a.0 c.0 c.0 b.0) (ratio_of a.0 d.0 b.0 d.0))) }
{
    let first = ratio(steps, a, c, c, b)?;
    let second = ratio(steps, a, d, b, d)?;
    difference(steps, first, second)
}

// 2 P_AMA.
fn twice_square(steps: &mut Steps, a: PointId, m: PointId) -> Result<TermId, NoMemory>
    ensures keeps { Keeps steps.old steps.new }
    ensures term { IfOk result (λ id. HasTerm steps.old steps.new id
        (multiplication (integer_leaf (pos 2)) (pythagoras_of a.0 m.0 a.0))) }
{
    let first = two(steps)?;
    let second = pythagoras(steps, a, m, a)?;
    product(steps, first, second)
}

// 2 P_AMA + 2 P_BMB.
fn twice_squares(steps: &mut Steps, m: PointId, a: PointId, b: PointId) -> Result<TermId, NoMemory>
    ensures keeps { Keeps steps.old steps.new }
    ensures term { IfOk result (λ id. HasTerm steps.old steps.new id
        (addition (multiplication (integer_leaf (pos 2)) (pythagoras_of a.0 m.0 a.0))
        (multiplication (integer_leaf (pos 2)) (pythagoras_of b.0 m.0 b.0)))) }
{
    let first = twice_square(steps, a, m)?;
    let second = twice_square(steps, b, m)?;
    sum(steps, first, second)
}

/// `2 P_AMA + 2 P_BMB - P_ABA`.
pub fn midpoint(steps: &mut Steps, m: PointId, a: PointId, b: PointId) -> Result<TermId, NoMemory>
    ensures keeps { Keeps steps.old steps.new }
    ensures term { IfOk result (λ id. HasTerm steps.old steps.new id (midpoint_term m.0 a.0 b.0)) }
{
    let first = twice_squares(steps, m, a, b)?;
    let second = pythagoras(steps, a, b, a)?;
    difference(steps, first, second)
}

// S_CAD P_CBD.
fn area_first(
    steps: &mut Steps,
    a: PointId,
    b: PointId,
    c: PointId,
    d: PointId,
) -> Result<TermId, NoMemory>
    ensures keeps { Keeps steps.old steps.new }
    ensures term { IfOk result (λ id. HasTerm steps.old steps.new id
        (multiplication (area_of c.0 a.0 d.0) (pythagoras_of c.0 b.0 d.0))) }
{
    let first = area(steps, c, a, d)?;
    let second = pythagoras(steps, c, b, d)?;
    product(steps, first, second)
}

// P_CAD S_CBD.
fn area_second(
    steps: &mut Steps,
    a: PointId,
    b: PointId,
    c: PointId,
    d: PointId,
) -> Result<TermId, NoMemory>
    ensures keeps { Keeps steps.old steps.new }
    ensures term { IfOk result (λ id. HasTerm steps.old steps.new id
        (multiplication (pythagoras_of c.0 a.0 d.0) (area_of c.0 b.0 d.0))) }
{
    let first = pythagoras(steps, c, a, d)?;
    let second = area(steps, c, b, d)?;
    product(steps, first, second)
}

// S_CAD P_CBD - P_CAD S_CBD.
fn concyclic(
    steps: &mut Steps,
    a: PointId,
    b: PointId,
    c: PointId,
    d: PointId,
) -> Result<TermId, NoMemory>
    ensures keeps { Keeps steps.old steps.new }
    ensures term { IfOk result (λ id. HasTerm steps.old steps.new id (circle_term a.0 b.0 c.0 d.0)) }
{
    let first = area_first(steps, a, b, c, d)?;
    let second = area_second(steps, a, b, c, d)?;
    difference(steps, first, second)
}

/// The index of a condition's or a goal's term, which is added where it is new.
pub fn intern_item(steps: &mut Steps, term: ItemTerm) -> Result<TermId, NoMemory>
    requires { IsItemStored steps.old.nodes term }
    ensures keeps { Keeps steps.old steps.new }
    ensures term { IfOk result (λ id. HasTerm steps.old steps.new id (item_tree steps.old.nodes term)) }
{
    match term {
        ItemTerm::Square { a, b } => pythagoras(steps, a, b, a),
        ItemTerm::Area { a, b, c } => area(steps, a, b, c),
        ItemTerm::Parallel { a, b, c, d } => parallel(steps, a, b, c, d),
        ItemTerm::Perpendicular { a, b, c, d } => perpendicular(steps, a, b, c, d),
        ItemTerm::Midpoint { m, a, b } => midpoint(steps, m, a, b),
        ItemTerm::SameLength { a, b, c, d } => same_length(steps, a, b, c, d),
        ItemTerm::Harmonic { a, b, c, d } => harmonic(steps, a, b, c, d),
        ItemTerm::Concyclic { a, b, c, d } => concyclic(steps, a, b, c, d),
        ItemTerm::Stored(e) => Ok(e),
        ItemTerm::Difference { e, f } => difference(steps, e, f),
    }
}
