//! Keys of chains that stand for monomials.

ghost use Rattle.std.specs.Prelude.{◌≡◌, ◌≢◌, ◌+◌, ◌<◌, ◌≤◌, ◌∷◌, [], IfOk, IfSome, IsTrue};
ghost use Rattle.std.specs.declared.cmp.Ordering.TheVariants.{Less};
ghost use Rattle.sparse_lists.specs.SparseLists.{AllKeys};
ghost use Rattle.mono_store.specs.Monomials.{ComesFirst, degree_of, product};
ghost use Rattle.poly_arena.specs.Chains.{IsLive, Merges, pairs_of};
ghost use Rattle.sparse_lists.specs.Coefficients.{sum_of};
ghost use Rattle.poly_arena.specs.Orders.{IsFalling, SumsFit};
ghost use Rattle.geo_poly.specs.Keys.{Keys};
ghost use Rattle.geo_poly.specs.Inner.Keyed.{AddsUp, IsAmount, IsInReach, KeepsKeys, key_cmp};

use crate::index_order::ByMonomial;
use geo_points::NoMemory;
use mono_store::{MonoId, Monos};
use poly_arena::{Arena, Chain};
use std::cmp::Ordering;

/// Keys of chains that stand for monomials in numbered variables: the indices of a store, or what
/// else is multiplied and compared more quickly.
pub(crate) trait MonomialKeys {
    ghost keys: { Self → Keys };

    /// The key of the monomial with no variable.
    fn one(&self) -> u64
        ensures is { result ≡ 0 }
        ensures within { 0 < (keys self.now).count };

    /// Whether the exponent of a variable has room in a key.
    fn fits(&self, var: u64, exp: u32) -> bool
        ensures { IsTrue result → IfSome (keys self.now).limits (λ limit. exp ≤ limit var) };

    /// The key of the monomial that has the power before those of `next`.
    fn power_before(&mut self, var: u64, exp: u32, next: u64) -> Result<u64, NoMemory>
        requires next { next < (keys self.old).count }
        requires exponent { 1 ≤ exp }
        requires first { ComesFirst var ((keys self.old).powers next) }
        requires degree { exp + degree_of ((keys self.old).powers next) ≤ 65535 }
        requires reach { IfSome (keys self.old).limits (λ limit. exp ≤ limit var) }
        ensures within { IfOk result (λ k. k < (keys self.new).count) }
        ensures powers { IfOk result
            (λ k. (keys self.new).powers k ≡ (var, exp) ∷ (keys self.old).powers next) }
        ensures kept { KeepsKeys (keys self.old) (keys self.new) };

    /// What a power adds to the key of each monomial that it comes before; none where it has no
    /// room, or keys are not added up.
    fn amount(&self, var: u64, exp: u32) -> Option<u64>
        ensures { IfSome result (IsAmount (keys self.now) var exp) };

    /// The key of the product of two monomials. Without memory, other monomials may have been
    /// added.
    fn times(&mut self, a: u64, b: u64) -> Result<u64, NoMemory>
        requires left { a < (keys self.old).count }
        requires right { b < (keys self.old).count }
        requires degree { degree_of ((keys self.old).powers a)
            + degree_of ((keys self.old).powers b) ≤ 65535 }
        requires reach { IsInReach (keys self.old) ((keys self.old).powers a)
            ((keys self.old).powers b) }
        ensures within { IfOk result (λ k. k < (keys self.new).count) }
        ensures product { IfOk result (λ k. (keys self.new).powers k
            ≡ product ((keys self.old).powers a) ((keys self.old).powers b)) }
        ensures kept { KeepsKeys (keys self.old) (keys self.new) };

    /// Whether the key of a product is the sum of both keys.
    fn adds_up(&self) -> bool
        ensures { IsTrue result → AddsUp (keys self.now) };

    /// Whether the monomial of `a` comes before that of `b`.
    fn comes_before(&self, a: u64, b: u64) -> bool
        requires left { a < (keys self.now).count }
        requires right { b < (keys self.now).count }
        ensures { IsTrue result → key_cmp (keys self.now) b a ≡ Less };

    /// Puts the sum of both chains into the first, in the order of the monomials, and spends the
    /// second.
    fn merge(&self, arena: &mut Arena, kept: &mut Chain, spent: Chain)
        requires kept { IsLive arena.old kept.old }
        requires spent { IsLive arena.old spent }
        requires differ { kept.old ≢ spent }
        requires kept_falls { IsFalling (key_cmp (keys self.now)) (pairs_of arena.old kept.old) }
        requires spent_falls { IsFalling (key_cmp (keys self.now)) (pairs_of arena.old spent) }
        requires kept_keys { AllKeys (λ k. k < (keys self.now).count)
            (pairs_of arena.old kept.old) }
        requires spent_keys { AllKeys (λ k. k < (keys self.now).count) (pairs_of arena.old spent) }
        requires sums { SumsFit (pairs_of arena.old kept.old) (pairs_of arena.old spent) }
        ensures merges { Merges arena.old arena.new kept.old spent (sum_of (key_cmp (keys self.now))
            (pairs_of arena.old kept.old) (pairs_of arena.old spent)) }
        ensures chain { kept.new ≡ kept.old };

    ghost first: { (s : Self) → (keys s).powers 0 ≡ [] };
}

impl MonomialKeys for Monos {
    ghost use Rattle.geo_poly.specs.Keys.{store_keys};
    ghost use Rattle.mono_store.proofs.Unfolding.{monomial_of-one};
    ghost use Rattle.std.proofs.Common.{refl};

    ghost keys = { store_keys };

    fn one(&self) -> u64 {
        Monos::one(self).0
    }

    fn fits(&self, _var: u64, _exp: u32) -> bool {
        true
    }

    fn power_before(&mut self, var: u64, exp: u32, next: u64) -> Result<u64, NoMemory> {
        let id = self.mono(var, exp, MonoId(next))?;
        Ok(id.0)
    }

    fn amount(&self, _var: u64, _exp: u32) -> Option<u64> {
        None
    }

    fn times(&mut self, a: u64, b: u64) -> Result<u64, NoMemory> {
        let id = self.product(MonoId(a), MonoId(b))?;
        Ok(id.0)
    }

    fn adds_up(&self) -> bool {
        false
    }

    fn comes_before(&self, a: u64, b: u64) -> bool {
        self.compare(MonoId(b), MonoId(a)) == Ordering::Less
    }

    fn merge(&self, arena: &mut Arena, kept: &mut Chain, spent: Chain) {
        arena.merge_into(&ByMonomial::new(self), kept, spent);
    }

    ghost first = { λ store. monomial_of-one store (record { 0 = 0 }) refl };
}
