//! The part of a store that a term reaches.

ghost use Rattle.std.specs.Prelude.{◌≡◌, ◌+◌, ◌<◌, ◌≤◌, IfOk, IsSome, length};
ghost use Rattle.fraction_poly.specs.Measures.{numbers_of};
ghost use Rattle.fraction_poly.specs.Inner.Charges.{charge_below};
ghost use Rattle.fraction_poly.specs.Inner.Parts.{CanMultiplyOut, DoAllFit, IsPart, over_parts};
ghost use Rattle.fraction_poly.specs.Inner.Parts.{place_at, place_in};
ghost use Rattle.geo_points.specs.declared.ids.TermId.{TermId};
ghost use Rattle.geo_terms.specs.Stores.{tree_of};

use crate::reaching::reached;
use geo_points::{NoMemory, TermId};
use geo_terms::{Node, Terms};
use std::alloc::Global;
use std::collections::HashMap;

/// The nodes that a term reaches, as a store of their own, and the term's index there. It takes
/// time and memory for these nodes alone.
pub(crate) fn cut_out(alloc: Global, terms: &Terms, id: TermId) -> Result<(Terms, TermId), NoMemory>
    requires { id.0 < length terms.now }
    ensures stored { IfOk result (λ cut. cut.1.0 < length cut.0) }
    ensures tree { IfOk result (λ cut. tree_of cut.0 cut.1 ≡ tree_of terms.now id) }
    ensures fit { IfOk result (λ cut. CanMultiplyOut (tree_of terms.now id) → DoAllFit cut.0) }
    ensures charges { IfOk result (λ cut. charge_below cut.0 (cut.1.0 + 1)
        ≤ (numbers_of (tree_of terms.now id)).charge) }
{
    // From here on it is known that parts stand before their nodes.
    prove!(id.0 < terms.len());
    let order = reached(alloc, terms, id)?;
    let mut cut = Terms::new(alloc)?;
    let mut places = HashMap::new(alloc);
    for k in (0..order.len()).rev() {
        let old = order[k];
        let place = cut.intern(moved(&places, terms.node(old)))?;
        places.insert(old.0, place)?;
    }
    let place = place(&places, id);
    Ok((cut, place))
}

/// The node over the places of its parts.
fn moved(places: &HashMap<u32, TermId>, node: Node) -> Node
    requires { (c : TermId) → IsPart node c → IsSome (place_at places.now c) }
    ensures { result ≡ over_parts (place_in places.now) node }
{
    match node {
        Node::Int(_) | Node::Param(_) | Node::S(..) | Node::P(..) | Node::R(..) => node,
        Node::Neg(e) => Node::Neg(place(places, e)),
        Node::Add(e, f) => Node::Add(place(places, e), place(places, f)),
        Node::Sub(e, f) => Node::Sub(place(places, e), place(places, f)),
        Node::Mul(e, f) => Node::Mul(place(places, e), place(places, f)),
        Node::Div(e, f) => Node::Div(place(places, e), place(places, f)),
    }
}

/// The place of an index.
fn place(places: &HashMap<u32, TermId>, id: TermId) -> TermId
    requires { IsSome (place_at places.now id) }
    ensures { result ≡ place_in places.now id }
{
    places[&id.0]
}
