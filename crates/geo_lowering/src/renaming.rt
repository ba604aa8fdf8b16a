//! The terms of a program over the points and numbers of its lowered form.

ghost use Rattle.std.specs.Prelude.{◌≡◌, ◌<◌, IfOk, length};
ghost use Rattle.geo_terms.specs.Stores.{HasChildrenBelow};
ghost use Rattle.geo_lowering.specs.Parts.{layout_at};
ghost use Rattle.geo_lowering.specs.Inner.Renaming.{AreRenamed, renamed_node};

use crate::layouts::Places;
use geo_points::{NoMemory, TermId};
use geo_terms::{Node, Steps, Terms};
use std::alloc::Global;

// The node over the places of its points and parameters, and the renamed terms.
fn node_at(places: &Places, items: &[TermId], node: Node) -> Node
    requires { HasChildrenBelow (length items.now) node }
    ensures { result ≡ renamed_node (layout_at places.now) items.now node }
{
    match node {
        Node::Int(n) => Node::Int(n),
        Node::Param(t) => Node::Param(places.param(t)),
        Node::S(a, b, c) => Node::S(places.point(a), places.point(b), places.point(c)),
        Node::P(a, b, c) => Node::P(places.point(a), places.point(b), places.point(c)),
        Node::R(a, b, c, d) => Node::R(
            places.point(a),
            places.point(b),
            places.point(c),
            places.point(d),
        ),
        Node::Neg(e) => Node::Neg(items[e.0 as usize]),
        Node::Add(e, f) => Node::Add(items[e.0 as usize], items[f.0 as usize]),
        Node::Sub(e, f) => Node::Sub(items[e.0 as usize], items[f.0 as usize]),
        Node::Mul(e, f) => Node::Mul(items[e.0 as usize], items[f.0 as usize]),
        Node::Div(e, f) => Node::Div(items[e.0 as usize], items[f.0 as usize]),
    }
}

/// All terms of a store, renamed, in the store of the steps: the item at each place is the term of
/// that index. A store with no room left is answered by NoMemory.
pub fn rename_terms(
    alloc: Global,
    steps: &mut Steps,
    terms: &Terms,
    places: &Places,
) -> Result<Vec<TermId>, NoMemory>
    ensures steps { steps.new.steps ≡ steps.old.steps }
    ensures params { steps.new.params ≡ steps.old.params }
    ensures count { IfOk result (λ items. length items.items ≡ length terms.now) }
    ensures renamed { IfOk result (λ items.
        AreRenamed (layout_at places.now) terms.now steps.new.nodes items.items) }
{
    let mut items = Vec::new(alloc);
    for k in 0..terms.len() {
        if steps.look().len() == u32::MAX {
            return Err(NoMemory);
        }
        let node = node_at(places, &items, terms.node(TermId(k)));
        items.push(steps.intern(node)?)?;
    }
    Ok(items)
}
