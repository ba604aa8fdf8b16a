//! Which nodes a walk over a term has visited.

ghost use Rattle.std.specs.Prelude.{◌<◌, IsTrue, length};
ghost use Rattle.fraction_poly.specs.Inner.Parts.{IsPart};
ghost use Rattle.geo_points.specs.declared.ids.TermId.{TermId};

use geo_points::TermId;
use geo_terms::{Node, Terms};
use std::alloc::Global;
use std::mem;

/// A walk over a term as a tree goes no deeper. Nothing rests on it but time and the stack.
pub(crate) const DEEPEST: u32 = 160;

/// A walk over a term as a tree goes to nodes that stand no further from its first one in their store.
/// Nothing rests on it but time and memory.
const FARTHEST: usize = 262_144;

/// The nodes with parts that a walk over a term as a tree has visited. Nothing rests on it but time:
/// a walk that comes to one again is given up, since it would take time for each way to a node.
#[derive(Drop)]
pub(crate) struct Visits {
    /// The first node of the walk; none where no account is kept.
    first: Option<TermId>,
    /// Whether a node was visited, by how far it stands before the first one.
    marks: Vec<bool>,
}

impl Visits {
    /// No account is kept: for walks that are short anyway.
    pub(crate) fn unmarked(alloc: Global) -> Visits {
        Visits {
            first: None,
            marks: Vec::new(alloc),
        }
    }

    /// For a walk from a node.
    pub(crate) fn from(alloc: Global, first: TermId) -> Visits {
        Visits {
            first: Some(first),
            marks: Vec::new(alloc),
        }
    }

    /// Whether the node has parts and was visited before. From now on it was. A node that stands far
    /// before the first one, or for which there is no memory, counts as visited.
    pub(crate) fn repeat(&mut self, terms: &Terms, id: TermId) -> bool
        requires { id.0 < length terms.now }
    {
        if is_leaf(terms.node(id)) {
            return false;
        }
        let Some(first) = self.first else {
            return false;
        };
        self.mark(first.0.saturating_sub(id.0) as usize)
    }

    /// Marks a place, and answers whether it was marked before, is far or lacks memory.
    fn mark(&mut self, place: usize) -> bool {
        if place >= FARTHEST {
            return true;
        }
        if place >= self.marks.len() && self.marks.resize(place + 1, false).is_err() {
            return true;
        }
        match self.marks.get_mut(place) {
            None => true,
            Some(mark) => mem::replace(mark, true),
        }
    }
}

/// Whether a node has no parts.
pub(crate) fn is_leaf(node: Node) -> bool
    ensures { IsTrue result → (c : TermId) → IsPart node c → ⊥ }
{
    match node {
        Node::Int(_) | Node::Param(_) | Node::S(..) | Node::P(..) | Node::R(..) => true,
        Node::Neg(_) | Node::Add(..) | Node::Sub(..) | Node::Mul(..) | Node::Div(..) => false,
    }
}
