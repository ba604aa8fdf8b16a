//! Replacements as chains of an arena.

ghost use Rattle.std.specs.Prelude.{◌≡◌, ◌+◌, ◌*◌, ◌<◌, ◌≤◌, ◌∷◌, []};
ghost use Rattle.std.specs.Prelude.{Contains, IfOk, IfSome, IsTrue, OnErr, None, Some};
ghost use Rattle.std.specs.Prelude.{length, pos, slice_get};
ghost use Rattle.std.specs.List.Sorted.{IsStrictlySortedBy};
ghost use Rattle.sparse_lists.specs.SparseLists.{AllKeys};
ghost use Rattle.poly_arena.specs.Chains.{IsLive, Updates, list_of, pairs_of};
ghost use Rattle.geo_poly.specs.Chained.{AddsChain, SameChains, StandsUnder, keyed_terms_under};
ghost use Rattle.geo_poly.specs.Inner.Keyed.{AddsUp, AreInReach, AreWithinLimits, HasRoom};
ghost use Rattle.geo_poly.specs.Inner.Keyed.{IsIndexUnder, IsWithinLimits, KeepsKeys, term_under};
ghost use Rattle.geo_poly.specs.Inner.Keyed.{terms_under};
ghost use Rattle.geo_poly.specs.Inner.Settings.{AreStoredUnder, IsStoredUnder, Swaps};
ghost use Rattle.geo_poly.specs.Keys.{IsKeyUnder};
ghost use Rattle.geo_poly.specs.KeptVariables.{AllNumerators};
ghost use Rattle.geo_poly.specs.Monomials.{IsMonomial};
ghost use Rattle.geo_poly.specs.Polynomials.{CanMultiply, product_of};
ghost use Rattle.geo_poly.specs.PolynomialVariables.{AllVariables};
ghost use Rattle.geo_poly.specs.Replace.{others};
ghost use Rattle.geo_poly.specs.Shared.{named};
ghost use Rattle.geo_poly.specs.Variables.{var_cmp};

use crate::chained::{multiples_chain, product_chain};
use crate::interning::place_near;
use crate::monomial_keys::MonomialKeys;
use crate::moving::{Move, MovedMonomials, keyed, keyed_near};
use crate::poly::Poly;
use crate::row_table::RowTable;
use crate::rows::Row;
use crate::settings::IndexList;
use crate::shared::Indexed;
use crate::ticks::Ticks;
use crate::variables::Var;
use geo_points::NoMemory;
use mono_store::MonoId;
use poly_arena::{Arena, Chain};
use std::alloc::Global;
use std::sync::ledger::Ledger;

/// The polynomial as a list of keys.
pub(crate) fn stored_poly<K: MonomialKeys>(
    alloc: Global,
    keys: &mut K,
    vars: &[Var],
    poly: &Poly,
) -> Result<Vec<Indexed>, NoMemory>
    requires rising { IsStrictlySortedBy var_cmp vars.now }
    requires known { AllVariables (Contains vars.now) poly.now }
    requires reach { IsWithinLimits vars.now (K.keys keys.old) poly.now }
    ensures stored { IfOk result
        (λ list. IsStoredUnder vars.now (K.keys keys.new) list.items poly.now) }
    ensures kept { KeepsKeys (K.keys keys.old) (K.keys keys.new) }
{
    keyed(alloc, keys, vars, &poly.shared())
}

/// The polynomial as a list of keys, with what became of its variables, which are looked for first
/// where those of an earlier one are.
fn stored_near<K: MonomialKeys>(
    alloc: Global,
    keys: &mut K,
    vars: &[Var],
    poly: &Poly,
    earlier: &[Move],
) -> Result<(Vec<Indexed>, MovedMonomials), NoMemory>
    requires rising { IsStrictlySortedBy var_cmp vars.now }
    requires known { AllVariables (Contains vars.now) poly.now }
    requires reach { IsWithinLimits vars.now (K.keys keys.old) poly.now }
    ensures stored { IfOk result
        (λ found. IsStoredUnder vars.now (K.keys keys.new) found.0.items poly.now) }
    ensures kept { KeepsKeys (K.keys keys.old) (K.keys keys.new) }
{
    keyed_near(alloc, keys, vars, &poly.shared(), earlier)
}

/// The numerators of the rows as lists of keys.
pub(crate) fn stored_rows<K: MonomialKeys>(
    alloc: Global,
    keys: &mut K,
    vars: &[Var],
    rows: &[Row],
) -> Result<Vec<IndexList>, NoMemory>
    requires rising { IsStrictlySortedBy var_cmp vars.now }
    requires known { AllNumerators (Contains vars.now) rows.now }
    requires reach { AreWithinLimits vars.now (K.keys keys.old) rows.now }
    ensures stored { IfOk result
        (λ nums. AreStoredUnder vars.now (K.keys keys.new) rows.now nums.items) }
    ensures kept { KeepsKeys (K.keys keys.old) (K.keys keys.new) }
{
    let mut nums = Vec::with_capacity(alloc, rows.len())?;
    let mut table = MovedMonomials::none(alloc);
    for row in rows {
        let (items, moved) = stored_near(alloc, keys, vars, &row.num.poly, table.moves())?;
        table = moved;
        nums.push(IndexList { items })?;
    }
    Ok(nums)
}

/// A chain of the one pair.
pub(crate) fn one_term_chain(
    arena: &mut Arena,
    key: u64,
    coefficient: i128,
) -> Result<Chain, NoMemory>
    ensures chain { IfOk result
        (λ c. list_of arena.new c ≡ Some ((key, coefficient) ∷ [])) }
    ensures adds { IfOk result (AddsChain arena.old arena.new) }
    ensures err { OnErr result (SameChains arena.old arena.new) }
{
    arena.reserve(1)?;
    let mut chain = arena.chain()?;
    arena.push_front(&mut chain, key, coefficient);
    Ok(chain)
}

/// The chain times the list. The chain is spent, also where there is no memory.
pub(crate) fn times_list<K: MonomialKeys, L: Ledger>(
    alloc: Global,
    keys: &mut K,
    arena: &mut Arena,
    vars: &[Var],
    chain: Chain,
    list: &[Indexed],
    ticks: &mut Ticks<L>,
) -> Result<Chain, NoMemory>
    requires rising { IsStrictlySortedBy var_cmp vars.now }
    requires live { IsLive arena.old chain }
    requires keys { AllKeys (IsKeyUnder vars.now (K.keys keys.old)) (pairs_of arena.old chain) }
    requires indices { AllKeys (IsIndexUnder vars.now (K.keys keys.old)) list.now }
    requires fits { CanMultiply
        (keyed_terms_under vars.now (K.keys keys.old) (pairs_of arena.old chain))
        (terms_under vars.now (K.keys keys.old) list.now) }
    requires reach { AreInReach vars.now (K.keys keys.old)
        (keyed_terms_under vars.now (K.keys keys.old) (pairs_of arena.old chain))
        (terms_under vars.now (K.keys keys.old) list.now) }
    ensures chain { IfOk result (λ c. StandsUnder vars.now (K.keys keys.new) arena.new c
        (product_of (keyed_terms_under vars.now (K.keys keys.old) (pairs_of arena.old chain))
        (terms_under vars.now (K.keys keys.old) list.now))) }
    ensures swaps { IfOk result (Swaps arena.old arena.new chain) }
    ensures err { OnErr result (Updates arena.old arena.new chain None) }
    ensures kept { KeepsKeys (K.keys keys.old) (K.keys keys.new) }
    ensures ticks { ticks.new
        ≤ ticks.old + length (pairs_of arena.old chain) * length list.now }
{
    match lone_term(keys, list) {
        Some(term) => Ok(scaled(keys, arena, vars, chain, term, ticks)),
        None => times_terms(alloc, keys, arena, vars, chain, list, ticks),
    }
}

/// The term of a list that has just one, where keys are added up.
fn lone_term<K: MonomialKeys>(keys: &K, list: &[Indexed]) -> Option<Indexed>
    ensures adds { IfSome result (λ t. AddsUp (K.keys keys.now)) }
    ensures list { IfSome result (λ t. list.now ≡ t ∷ []) }
{
    if !keys.adds_up() {
        return None;
    }
    match list {
        [term] => Some(*term),
        _ => None,
    }
}

/// The chain times the term, in its place. It takes no memory.
fn scaled<K: MonomialKeys, L: Ledger>(
    keys: &K,
    arena: &mut Arena,
    vars: &[Var],
    chain: Chain,
    term: Indexed,
    ticks: &mut Ticks<L>,
) -> Chain
    requires rising { IsStrictlySortedBy var_cmp vars.now }
    requires adds { AddsUp (K.keys keys.now) }
    requires live { IsLive arena.old chain }
    requires keys { AllKeys (IsKeyUnder vars.now (K.keys keys.now)) (pairs_of arena.old chain) }
    requires term { IsIndexUnder vars.now (K.keys keys.now) term.0 }
    requires fits { CanMultiply
        (keyed_terms_under vars.now (K.keys keys.now) (pairs_of arena.old chain))
        (term_under vars.now (K.keys keys.now) term ∷ []) }
    requires reach { AreInReach vars.now (K.keys keys.now)
        (keyed_terms_under vars.now (K.keys keys.now) (pairs_of arena.old chain))
        (term_under vars.now (K.keys keys.now) term ∷ []) }
    ensures chain { StandsUnder vars.now (K.keys keys.now) arena.new result
        (product_of (keyed_terms_under vars.now (K.keys keys.now) (pairs_of arena.old chain))
        (term_under vars.now (K.keys keys.now) term ∷ [])) }
    ensures swaps { Swaps arena.old arena.new chain result }
    ensures ticks { ticks.new ≡ ticks.old + length (pairs_of arena.old chain) }
{
    let _ = keys;
    let _ = vars;
    let count = arena.scale(&chain, term.0.0, term.1);
    ticks.tick_each(count);
    chain
}

/// The chain times the list, by the pair of a chain of one. The chain is spent, also where there is
/// no memory.
fn times_terms<K: MonomialKeys, L: Ledger>(
    alloc: Global,
    keys: &mut K,
    arena: &mut Arena,
    vars: &[Var],
    chain: Chain,
    list: &[Indexed],
    ticks: &mut Ticks<L>,
) -> Result<Chain, NoMemory>
    requires rising { IsStrictlySortedBy var_cmp vars.now }
    requires live { IsLive arena.old chain }
    requires keys { AllKeys (IsKeyUnder vars.now (K.keys keys.old)) (pairs_of arena.old chain) }
    requires indices { AllKeys (IsIndexUnder vars.now (K.keys keys.old)) list.now }
    requires fits { CanMultiply
        (keyed_terms_under vars.now (K.keys keys.old) (pairs_of arena.old chain))
        (terms_under vars.now (K.keys keys.old) list.now) }
    requires reach { AreInReach vars.now (K.keys keys.old)
        (keyed_terms_under vars.now (K.keys keys.old) (pairs_of arena.old chain))
        (terms_under vars.now (K.keys keys.old) list.now) }
    ensures chain { IfOk result (λ c. StandsUnder vars.now (K.keys keys.new) arena.new c
        (product_of (keyed_terms_under vars.now (K.keys keys.old) (pairs_of arena.old chain))
        (terms_under vars.now (K.keys keys.old) list.now))) }
    ensures swaps { IfOk result (Swaps arena.old arena.new chain) }
    ensures err { OnErr result (Updates arena.old arena.new chain None) }
    ensures kept { KeepsKeys (K.keys keys.old) (K.keys keys.new) }
    ensures ticks { ticks.new
        ≤ ticks.old + length (pairs_of arena.old chain) * length list.now }
{
    match arena.only_pair(&chain) {
        Some((key, coefficient)) => {
            arena.give_back(chain);
            let term = (MonoId(key), coefficient);
            multiples_chain(keys, arena, vars, term, list, ticks)
        }
        None => times_list_by_halves(alloc, keys, arena, vars, chain, list, ticks),
    }
}

/// The chain times the list, by halves of the shorter. The chain is spent, also where there is no
/// memory.
fn times_list_by_halves<K: MonomialKeys, L: Ledger>(
    alloc: Global,
    keys: &mut K,
    arena: &mut Arena,
    vars: &[Var],
    chain: Chain,
    list: &[Indexed],
    ticks: &mut Ticks<L>,
) -> Result<Chain, NoMemory>
    requires rising { IsStrictlySortedBy var_cmp vars.now }
    requires live { IsLive arena.old chain }
    requires keys { AllKeys (IsKeyUnder vars.now (K.keys keys.old)) (pairs_of arena.old chain) }
    requires indices { AllKeys (IsIndexUnder vars.now (K.keys keys.old)) list.now }
    requires fits { CanMultiply
        (keyed_terms_under vars.now (K.keys keys.old) (pairs_of arena.old chain))
        (terms_under vars.now (K.keys keys.old) list.now) }
    requires reach { AreInReach vars.now (K.keys keys.old)
        (keyed_terms_under vars.now (K.keys keys.old) (pairs_of arena.old chain))
        (terms_under vars.now (K.keys keys.old) list.now) }
    ensures chain { IfOk result (λ c. StandsUnder vars.now (K.keys keys.new) arena.new c
        (product_of (keyed_terms_under vars.now (K.keys keys.old) (pairs_of arena.old chain))
        (terms_under vars.now (K.keys keys.old) list.now))) }
    ensures swaps { IfOk result (Swaps arena.old arena.new chain) }
    ensures err { OnErr result (Updates arena.old arena.new chain None) }
    ensures kept { KeepsKeys (K.keys keys.old) (K.keys keys.new) }
    ensures ticks { ticks.new
        ≤ ticks.old + length (pairs_of arena.old chain) * length list.now }
{
    let left = arena.to_list_of(alloc, &chain, |key, coefficient| (MonoId(key), coefficient));
    arena.give_back(chain);
    product_chain(keys, arena, vars, &left?, list, ticks)
}

/// Whether the list is that of the polynomial 1.
pub(crate) fn is_one(list: &[Indexed]) -> bool
    ensures { IsTrue result → list.now ≡ (record { 0 = 0 }, pos 1) ∷ [] }
{
    match list {
        [term] => term.0.0 == 0 && term.1 == 1,
        _ => false,
    }
}

/// The list at a place.
pub(crate) fn list_at(lists: &[IndexList], i: usize) -> &[Indexed]
    requires { i < length lists.now }
    ensures { slice_get lists.now i ≡ Some result.now }
{
    lists[i].as_slice()
}
