//! Products and sums of polynomials as chains of an arena.

ghost use Rattle.std.specs.Prelude.{◌≡◌, ◌≢◌, ◌+◌, ◌*◌, ◌^◌, ◌<◌, ◌≤◌, ◌∷◌, [], IfOk, OnErr};
ghost use Rattle.std.specs.Prelude.{length};
ghost use Rattle.std.specs.List.Sorted.{IsStrictlySortedBy};
ghost use Rattle.sparse_lists.specs.SparseLists.{AllKeys, IsCanonical};
ghost use Rattle.poly_arena.specs.Chains.{IsLive, Merges, pairs_of};
ghost use Rattle.geo_poly.specs.Chained.{AddsChain, SameChains, StandsUnder, keyed_terms_under};
ghost use Rattle.geo_poly.specs.Inner.Keyed.{AreInReach, IsIndexUnder, KeepsKeys, term_under};
ghost use Rattle.geo_poly.specs.Inner.Keyed.{terms_under};
ghost use Rattle.geo_poly.specs.Keys.{IsKeyUnder};
ghost use Rattle.sparse_lists.specs.Coefficients.{coefficients};
ghost use Rattle.geo_poly.specs.Polynomials.{CanMultiply, multiples, norm_of};
ghost use Rattle.geo_poly.specs.Polynomials.{product_of, sum_of, term_cmp};
ghost use Rattle.geo_poly.specs.Variables.{var_cmp};

use crate::monomial_keys::MonomialKeys;
use crate::shared::Indexed;
use crate::ticks::Ticks;
use crate::variables::Var;
use geo_points::NoMemory;
use poly_arena::{Arena, Chain};
use std::sync::ledger::Ledger;

/// The chain of the sum of two. It takes no memory.
pub(crate) fn summed<K: MonomialKeys>(
    keys: &K,
    arena: &mut Arena,
    vars: &[Var],
    mut left: Chain,
    right: Chain,
) -> Chain
    requires rising { IsStrictlySortedBy var_cmp vars.now }
    requires left { IsLive arena.old left }
    requires right { IsLive arena.old right }
    requires differ { left ≢ right }
    requires left_keys { AllKeys (IsKeyUnder vars.now (K.keys keys.now)) (pairs_of arena.old left) }
    requires right_keys { AllKeys (IsKeyUnder vars.now (K.keys keys.now))
        (pairs_of arena.old right) }
    requires left_order { IsCanonical term_cmp coefficients
        (keyed_terms_under vars.now (K.keys keys.now) (pairs_of arena.old left)) }
    requires right_order { IsCanonical term_cmp coefficients
        (keyed_terms_under vars.now (K.keys keys.now) (pairs_of arena.old right)) }
    requires fits { norm_of (keyed_terms_under vars.now (K.keys keys.now) (pairs_of arena.old left))
        + norm_of (keyed_terms_under vars.now (K.keys keys.now) (pairs_of arena.old right))
        < 2 ^ 127 }
    ensures chain { result ≡ left }
    ensures merges { Merges arena.old arena.new left right (pairs_of arena.new left) }
    ensures sum { StandsUnder vars.now (K.keys keys.now) arena.new left
        (sum_of (keyed_terms_under vars.now (K.keys keys.now) (pairs_of arena.old left))
        (keyed_terms_under vars.now (K.keys keys.now) (pairs_of arena.old right))) }
{
    let _ = vars;
    keys.merge(arena, &mut left, right);
    left
}

/// The chain of the list times the one term. Each product of monomials ticks, also one for which
/// there is no memory.
pub(crate) fn multiples_chain<K: MonomialKeys, L: Ledger>(
    keys: &mut K,
    arena: &mut Arena,
    vars: &[Var],
    t: Indexed,
    list: &[Indexed],
    ticks: &mut Ticks<L>,
) -> Result<Chain, NoMemory>
    requires rising { IsStrictlySortedBy var_cmp vars.now }
    requires term { IsIndexUnder vars.now (K.keys keys.old) t.0 }
    requires indices { AllKeys (IsIndexUnder vars.now (K.keys keys.old)) list.now }
    requires fits { CanMultiply (term_under vars.now (K.keys keys.old) t ∷ [])
        (terms_under vars.now (K.keys keys.old) list.now) }
    requires reach { AreInReach vars.now (K.keys keys.old)
        (term_under vars.now (K.keys keys.old) t ∷ [])
        (terms_under vars.now (K.keys keys.old) list.now) }
    ensures chain { IfOk result (λ c. StandsUnder vars.now (K.keys keys.new) arena.new c
        (multiples (term_under vars.now (K.keys keys.old) t)
        (terms_under vars.now (K.keys keys.old) list.now))) }
    ensures adds { IfOk result (AddsChain arena.old arena.new) }
    ensures err { OnErr result (SameChains arena.old arena.new) }
    ensures kept { KeepsKeys (K.keys keys.old) (K.keys keys.new) }
    ensures ticks { ticks.new ≤ ticks.old + length list.now }
{
    let _ = vars;
    arena.reserve(list.len() as u64)?;
    let mut chain = arena.chain()?;
    let mut i = list.len();
    while i > 0 {
        i -= 1;
        let (id, coefficient) = list[i];
        ticks.tick();
        match keys.times(t.0.0, id.0) {
            Ok(product) => arena.push_front(&mut chain, product, t.1 * coefficient),
            Err(error) => {
                arena.give_back(chain);
                return Err(error);
            }
        }
    }
    Ok(chain)
}

/// The chain of the product, by halves of the left list, so that few terms are merged often.
pub(crate) fn chain_by_halves<K: MonomialKeys, L: Ledger>(
    keys: &mut K,
    arena: &mut Arena,
    vars: &[Var],
    left: &[Indexed],
    right: &[Indexed],
    ticks: &mut Ticks<L>,
) -> Result<Chain, NoMemory>
    requires rising { IsStrictlySortedBy var_cmp vars.now }
    requires left { AllKeys (IsIndexUnder vars.now (K.keys keys.old)) left.now }
    requires right { AllKeys (IsIndexUnder vars.now (K.keys keys.old)) right.now }
    requires fits { CanMultiply (terms_under vars.now (K.keys keys.old) left.now)
        (terms_under vars.now (K.keys keys.old) right.now) }
    requires reach { AreInReach vars.now (K.keys keys.old)
        (terms_under vars.now (K.keys keys.old) left.now)
        (terms_under vars.now (K.keys keys.old) right.now) }
    ensures chain { IfOk result (λ c. StandsUnder vars.now (K.keys keys.new) arena.new c
        (product_of (terms_under vars.now (K.keys keys.old) left.now)
        (terms_under vars.now (K.keys keys.old) right.now))) }
    ensures adds { IfOk result (AddsChain arena.old arena.new) }
    ensures err { OnErr result (SameChains arena.old arena.new) }
    ensures kept { KeepsKeys (K.keys keys.old) (K.keys keys.new) }
    ensures ticks { ticks.new ≤ ticks.old + length left.now * length right.now }
{
    match left {
        [] => Ok(arena.chain()?),
        [term] => multiples_chain(keys, arena, vars, *term, right, ticks),
        _ => {
            let (front, back) = left.split_at(left.len() / 2);
            let sum = chain_by_halves(keys, arena, vars, front, right, ticks)?;
            match chain_by_halves(keys, arena, vars, back, right, ticks) {
                Ok(rest) => Ok(summed(keys, arena, vars, sum, rest)),
                Err(error) => {
                    arena.give_back(sum);
                    Err(error)
                }
            }
        }
    }
}

/// The chain of the product, by halves of the shorter list.
pub(crate) fn product_chain<K: MonomialKeys, L: Ledger>(
    keys: &mut K,
    arena: &mut Arena,
    vars: &[Var],
    left: &[Indexed],
    right: &[Indexed],
    ticks: &mut Ticks<L>,
) -> Result<Chain, NoMemory>
    requires rising { IsStrictlySortedBy var_cmp vars.now }
    requires left { AllKeys (IsIndexUnder vars.now (K.keys keys.old)) left.now }
    requires right { AllKeys (IsIndexUnder vars.now (K.keys keys.old)) right.now }
    requires fits { CanMultiply (terms_under vars.now (K.keys keys.old) left.now)
        (terms_under vars.now (K.keys keys.old) right.now) }
    requires reach { AreInReach vars.now (K.keys keys.old)
        (terms_under vars.now (K.keys keys.old) left.now)
        (terms_under vars.now (K.keys keys.old) right.now) }
    ensures chain { IfOk result (λ c. StandsUnder vars.now (K.keys keys.new) arena.new c
        (product_of (terms_under vars.now (K.keys keys.old) left.now)
        (terms_under vars.now (K.keys keys.old) right.now))) }
    ensures adds { IfOk result (AddsChain arena.old arena.new) }
    ensures err { OnErr result (SameChains arena.old arena.new) }
    ensures kept { KeepsKeys (K.keys keys.old) (K.keys keys.new) }
    ensures ticks { ticks.new ≤ ticks.old + length left.now * length right.now }
{
    if left.len() <= right.len() {
        chain_by_halves(keys, arena, vars, left, right, ticks)
    } else {
        chain_by_halves(keys, arena, vars, right, left, ticks)
    }
}
