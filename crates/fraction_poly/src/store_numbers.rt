//! How large the numerators and denominators of a store's terms may be.

ghost use Rattle.std.specs.Prelude.{◌≡◌, ◌<◌, IfOk, Some, length, slice_get};
ghost use Rattle.fraction_poly.specs.Measures.{capped, numbers_of, store_numbers};
ghost use Rattle.geo_terms.specs.Stores.{Store, tree_of};

use crate::numbers::{Numbers, node_numbers};
use geo_points::{NoMemory, TermId};
use geo_terms::Terms;
use std::alloc::Global;
use std::marker::Model;

/// The numbers of each term of a store, made once for all of them. Seen as a list, by index.
#[derive(Drop)]
pub struct StoreNumbers {
    each: Vec<Numbers>,
}

impl Model for StoreNumbers {
    ghost use Rattle.std.specs.Prelude.{List};
    ghost use Rattle.fraction_poly.specs.declared.numbers.Numbers.{Numbers};

    ghost Value = { List Numbers };

    ghost view = { λ table. table.each.items };
}

impl StoreNumbers {
    /// Those of the terms that stand in the store now. It takes time and memory for each node once.
    pub fn new(alloc: Global, terms: &Terms) -> Result<StoreNumbers, NoMemory>
        ensures numbers { IfOk result (λ table. table ≡ store_numbers terms.now) }
        ensures len { IfOk result (λ table. length table ≡ length terms.now) }
    {
        // From here on it is known that parts stand before their nodes.
        let len = terms.len();
        let mut each = Vec::new(alloc);
        for i in 0..len {
            each.push(node_numbers(&each, terms.node(TermId(i))))?;
        }
        Ok(StoreNumbers { each })
    }

    /// Those of the term at an index: what `measure` tells of it. Terms that were added to the
    /// store since have none.
    pub fn numbers(&self, id: TermId) -> Numbers
        requires { id.0 < length self.now }
        ensures listed { slice_get self.now id.0 ≡ Some result }
        ensures term { (nodes : Store) → self.now ≡ store_numbers nodes
            → result ≡ capped (numbers_of (tree_of nodes id)) }
    {
        self.each[id.0 as usize]
    }
}
