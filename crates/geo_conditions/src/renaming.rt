//! The terms of a program over the points and numbers of its lowered form.

ghost use Rattle.std.specs.Prelude.{◌≡◌, ◌<◌, IfOk, length, map, slice_index_or};
ghost use Rattle.geo_terms.specs.Stores.{HasChildrenBelow};
ghost use Rattle.geo_lowering.specs.Inner.Renaming.{AreRenamed, renamed_node};
ghost use Rattle.geo_conditions.specs.Inner.ItemTerms.{Keeps, terms_layout};

use geo_points::{NoMemory, ParamId, PointId, TermId};
use geo_terms::{Node, Steps, Terms};
use std::alloc::Global;

/// The number of a named point among all points; past the end 0.
pub fn point_at(points: &[PointId], a: PointId) -> PointId
    ensures { result.0 ≡ slice_index_or (map (λ p. p.0) points.now) a.0 0 }
{
    match points.get(a.0 as usize) {
        Some(place) => *place,
        None => PointId(0),
    }
}

// The number of a parameter among all numbers.
fn param_at(params: &[ParamId], t: ParamId) -> ParamId
    ensures { result.0 ≡ slice_index_or (map (λ p. p.0) params.now) t.0 0 }
{
    match params.get(t.0 as usize) {
        Some(place) => *place,
        None => ParamId(0),
    }
}

// The node over the places of its points and parameters, and the renamed terms.
fn node_at(points: &[PointId], params: &[ParamId], items: &[TermId], node: Node) -> Node
    requires { HasChildrenBelow (length items.now) node }
    ensures { result ≡ renamed_node (terms_layout points.now params.now) items.now node }
{
    match node {
        Node::Int(n) => Node::Int(n),
        Node::Param(t) => Node::Param(param_at(params, t)),
        Node::S(a, b, c) => Node::S(
            point_at(points, a),
            point_at(points, b),
            point_at(points, c),
        ),
        Node::P(a, b, c) => Node::P(
            point_at(points, a),
            point_at(points, b),
            point_at(points, c),
        ),
        Node::R(a, b, c, d) => Node::R(
            point_at(points, a),
            point_at(points, b),
            point_at(points, c),
            point_at(points, d),
        ),
        Node::Neg(e) => Node::Neg(items[e.0 as usize]),
        Node::Add(e, f) => Node::Add(items[e.0 as usize], items[f.0 as usize]),
        Node::Sub(e, f) => Node::Sub(items[e.0 as usize], items[f.0 as usize]),
        Node::Mul(e, f) => Node::Mul(items[e.0 as usize], items[f.0 as usize]),
        Node::Div(e, f) => Node::Div(items[e.0 as usize], items[f.0 as usize]),
    }
}

/// All terms of a store, renamed, in the store of the steps: the item at each place is the term of
/// that index. A store with no room left is answered by NoMemory.
pub fn rename_terms(
    alloc: Global,
    steps: &mut Steps,
    terms: &Terms,
    points: &[PointId],
    params: &[ParamId],
) -> Result<Vec<TermId>, NoMemory>
    ensures keeps { Keeps steps.old steps.new }
    ensures count { IfOk result (λ items. length items.items ≡ length terms.now) }
    ensures renamed { IfOk result (λ items.
        AreRenamed (terms_layout points.now params.now) terms.now steps.new.nodes items.items) }
{
    let mut items = Vec::new(alloc);
    for k in 0..terms.len() {
        if steps.look().len() == u32::MAX {
            return Err(NoMemory);
        }
        let node = node_at(points, params, &items, terms.node(TermId(k)));
        items.push(steps.intern(node)?)?;
    }
    Ok(items)
}
