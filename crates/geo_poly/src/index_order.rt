//! The order of the indices of a store.

ghost use Rattle.std.specs.Prelude.{◌≡◌};
ghost use Rattle.mono_store.specs.Stores.{IsStore};
ghost use Rattle.mono_store.proofs.Propositions.{IsStore-prop};

use mono_store::{MonoId, Monos};
use poly_arena::KeyOrder;
use std::cmp::Ordering;

/// Indices in the order of their monomials, as the keys of chains.
#[derive(Drop)]
pub struct ByMonomial<'a> {
    /// The store.
    pub store: &'a Monos,
    ghost valid: { IsStore store.now } by { IsStore-prop store.now },
}

impl<'a> ByMonomial<'a> {
    /// The order of the indices of this store.
    pub fn new(store: &'a Monos) -> ByMonomial<'a>
        ensures { result.store.now ≡ store.now }
    {
        // every store says of itself that it is one
        let _one = store.one();
        ByMonomial { store }
    }
}

impl<'a> KeyOrder for ByMonomial<'a> {
    ghost use Rattle.mono_store.specs.Stores.{count};
    ghost use Rattle.geo_poly.specs.StoreOrder.{index_cmp, index_order};

    ghost keys = { λ order. count order.store.now };

    ghost cmp = { λ order. index_cmp order.store.now };

    fn cmp_keys(&self, a: u64, b: u64) -> Ordering {
        self.store.compare(MonoId(a), MonoId(b))
    }

    ghost laws = { λ order. index_order order.store.now order.valid };
}
