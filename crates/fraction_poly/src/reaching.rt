//! Which nodes a term is made of.

ghost use Rattle.std.specs.Prelude.{◌≡◌, ◌<◌, ◌⊎◌, ℕ, IfOk, OnOk, IsTrue, length};
ghost use Rattle.std.specs.BTreeSet.{contains};
ghost use Rattle.std.specs.Ordering.{nat_cmp};
ghost use Rattle.fraction_poly.specs.Inner.Parts.{AreReached, IsPart};
ghost use Rattle.geo_points.specs.declared.ids.TermId.{TermId};

use geo_points::{NoMemory, TermId};
use geo_terms::{Node, Terms};
use std::alloc::Global;
use std::collections::BTreeSet;

/// The indices of the term, of its parts, of the parts of these, and so on: each once, and from the
/// greatest down, so that parts come after their nodes. It takes time and memory for these nodes
/// alone.
pub(crate) fn reached(alloc: Global, terms: &Terms, id: TermId) -> Result<Vec<TermId>, NoMemory>
    requires { id.0 < length terms.now }
    ensures { IfOk result (λ order. AreReached terms.now id order.items) }
{
    // From here on it is known that parts stand before their nodes.
    prove!(id.0 < terms.len());
    let mut order = Vec::new(alloc);
    let mut pending = BTreeSet::new(alloc);
    pending.insert(id.0)?;
    while let Some(index) = pending.pop_last() {
        add_parts(&mut pending, terms.node(TermId(index)))?;
        order.push(TermId(index))?;
    }
    Ok(order)
}

/// Adds the indices of a node's parts. All others stay.
fn add_parts(pending: &mut BTreeSet<u32>, node: Node) -> Result<(), NoMemory>
    ensures parts { OnOk result ((c : TermId) → IsPart node c
        → IsTrue (contains nat_cmp pending.new c.0)) }
    ensures kept { OnOk result ((k : ℕ) → IsTrue (contains nat_cmp pending.old k)
        → IsTrue (contains nat_cmp pending.new k)) }
    ensures others { OnOk result ((c : TermId) → IsTrue (contains nat_cmp pending.new c.0)
        → IsTrue (contains nat_cmp pending.old c.0) ⊎ IsPart node c) }
{
    match node {
        Node::Int(_) | Node::Param(_) | Node::S(..) | Node::P(..) | Node::R(..) => {}
        Node::Neg(e) => {
            pending.insert(e.0)?;
        }
        Node::Add(e, f) | Node::Sub(e, f) | Node::Mul(e, f) | Node::Div(e, f) => {
            pending.insert(e.0)?;
            pending.insert(f.0)?;
        }
    }
    Ok(())
}
