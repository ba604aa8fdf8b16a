//! A store of terms, in which each stands once.

ghost use Rattle.std.specs.Prelude.{◌≡◌, ◌<◌, ◌≤◌, ◌+◌, ◌++◌, ◌∷◌, ◌↔◌, [], Contains, IfOk, OnOk};
ghost use Rattle.std.specs.Prelude.{OnErr, IsTrue, Some, length, slice_get};
ghost use Rattle.geo_points.specs.declared.ids.TermId.{TermId};
ghost use Rattle.geo_terms.specs.Stores.{HasChildrenBelow, HasShortInteger, IsStore, node_tree};
ghost use Rattle.geo_terms.specs.Stores.{tree_of, trees_of};

use crate::nodes::Node;
use first_seen::FirstSeen;
use geo_points::{NoMemory, TermId};
use std::alloc::Global;
use std::marker::Model;

/// Terms by index: a list of nodes, each once, whose children stand at lower indices. So each index
/// stands for a finite tree, and equal terms have equal indices.
pub struct Terms {
    nodes: FirstSeen<Node>,
}

/// By hand, so that a caller's proof sees one call where a store is let go.
impl Drop for Terms {
    fn drop(self) {
        let Terms { nodes: _ } = self;
    }
}

impl Model for Terms {
    ghost use Rattle.geo_terms.specs.Stores.{Store, IsStore};

    ghost Value = { Store };

    ghost view = { λ terms. terms.nodes };

    ghost invariant = { λ terms. IsStore terms.nodes };
}

impl Terms {
    /// A store with no terms.
    pub fn new(alloc: Global) -> Result<Terms, NoMemory>
        ensures { IfOk result (λ terms. terms ≡ []) }
    {
        Ok(Terms {
            nodes: FirstSeen::new(alloc),
        })
    }

    /// A store with the same terms.
    pub fn copy(&self) -> Result<Terms, NoMemory>
        ensures { IfOk result (λ terms. terms ≡ self.now) }
    {
        Ok(Terms {
            nodes: self.nodes.copy()?,
        })
    }

    /// The index of the node, which is added at the end where it is new. All other terms stay.
    pub fn intern(&mut self, node: Node) -> Result<TermId, NoMemory>
        requires children { HasChildrenBelow (length self.old) node }
        requires integer { HasShortInteger node }
        requires room { length self.old < 4294967295 }
        ensures node { IfOk result (λ id. slice_get self.new id.0 ≡ Some node) }
        ensures tree { IfOk result (λ id. tree_of self.new id
            ≡ node_tree (trees_of self.old) node) }
        ensures known { Contains self.old node → self.new ≡ self.old }
        ensures added { OnOk result ((Contains self.old node → ⊥)
            → self.new ≡ self.old ++ node ∷ []) }
        ensures others { (id : TermId) → id.0 < length self.old
            → tree_of self.new id ≡ tree_of self.old id }
        ensures longer { length self.old ≤ length self.new }
        ensures one_more { length self.new ≤ length self.old + 1 }
        ensures valid { IsStore self.new }
        ensures err { OnErr result (self.new ≡ self.old) }
    {
        let (index, _) = self.nodes.insert_full(node)?;
        Ok(TermId(index as u32))
    }

    /// The node at an index.
    pub fn node(&self, id: TermId) -> Node
        requires { id.0 < length self.now }
        ensures { slice_get self.now id.0 ≡ Some result }
    {
        self.nodes.as_slice()[id.0 as usize]
    }

    /// The number of nodes. Every store meets the clause `valid`.
    pub fn len(&self) -> u32
        ensures len { result ≡ length self.now }
        ensures valid { IsStore self.now }
    {
        self.nodes.len() as u32
    }

    /// Whether there is no node.
    pub fn is_empty(&self) -> bool
        ensures { IsTrue result ↔ (self.now ≡ []) }
    {
        self.nodes.is_empty()
    }
}
