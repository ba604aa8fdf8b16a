//! Terms that have no factors, in the order of what is left of their monomials, as one chain.

ghost use Rattle.std.specs.Prelude.{◌≡◌, ◌<◌, [], All, IfNone, IfOk, IfSome, IsFalse, IsTrue};
ghost use Rattle.std.specs.Prelude.{OnErr, drop, map};
ghost use Rattle.std.specs.declared.cmp.Ordering.TheVariants.{Less};
ghost use Rattle.geo_poly.specs.Chained.{AddsChain, SameChains, StandsUnder};
ghost use Rattle.geo_poly.specs.Inner.Factored.{IsPending, factored_terms, told_pending};
ghost use Rattle.geo_poly.specs.Inner.Keyed.{KeepsKeys, key_cmp};
ghost use Rattle.geo_poly.specs.Inner.ReplacedExponents.{IsReplacedInReach};
ghost use Rattle.geo_poly.specs.Inner.Runs.{IsNextKey};
ghost use Rattle.geo_poly.specs.Inner.Settings.{IsSetUnder};
ghost use Rattle.geo_poly.specs.Inner.TermKeys.{AreTermKeys};
ghost use Rattle.geo_poly.specs.Polynomials.{polynomial_of};
ghost use Rattle.geo_poly.specs.Shared.{told};

use crate::monomial_keys::MonomialKeys;
use crate::pending::Pending;
use crate::settings::Setting;
use crate::shared::Shared;
use crate::term_keys::{TermKeys, key_of_term};
use geo_points::NoMemory;
use poly_arena::{Arena, Chain};
use std::alloc::Global;

/// Whether a term has a factor at a place.
fn has_factor(term: &Pending, depth: usize) -> bool
    ensures { IsFalse result → drop depth term.now.factors.now ≡ [] }
{
    depth < term.factors.len()
}

/// Whether the key comes before the first one, where there is one.
fn is_before<K: MonomialKeys>(keys: &K, key: u64, first: Option<u64>) -> bool
    requires key { key < (K.keys keys.now).count }
    requires first { IfSome first (λ k. k < (K.keys keys.now).count) }
    ensures { IsTrue result → IfSome first (λ k. key_cmp (K.keys keys.now) k key ≡ Less) }
{
    match first {
        Some(first) => keys.comes_before(key, first),
        None => true,
    }
}

/// The key of what is left of a term, where it has no factor from a place on, its key comes before
/// the first one and there is memory.
fn next_key<K: MonomialKeys>(
    alloc: Global,
    setting: &Setting,
    keys: &mut K,
    p: &Shared,
    table: &TermKeys,
    term: &Pending,
    depth: usize,
    first: Option<u64>,
) -> Option<u64>
    requires set { IsSetUnder setting.now (K.keys keys.old) }
    requires table { AreTermKeys setting.now p.now (K.keys keys.old) table.now }
    requires pending { IsPending setting.now p.now depth term.now }
    requires reach { IsReplacedInReach setting.now.vars.now (K.keys keys.old) setting.now.rows.now
        setting.now.den.piece.now setting.now.top (told p.now) }
    requires first { IfSome first (λ k. k < (K.keys keys.old).count) }
    ensures next { IfSome result
        (IsNextKey setting.now p.now depth (K.keys keys.new) first term.now) }
    ensures kept { KeepsKeys (K.keys keys.old) (K.keys keys.new) }
{
    if has_factor(term, depth) {
        return None;
    }
    match key_of_term(alloc, setting, keys, p, table, term) {
        Ok(rest) => {
            if is_before(keys, rest.0, first) {
                return Some(rest.0);
            }
            None
        }
        Err(_) => None,
    }
}

/// The chain of the sum of terms that have no factor from a place on, where what is left of their
/// monomials stands in order. No two chains are merged.
pub(crate) fn run_chain<K: MonomialKeys>(
    alloc: Global,
    setting: &Setting,
    keys: &mut K,
    arena: &mut Arena,
    p: &Shared,
    table: &TermKeys,
    pending: &[Pending],
    depth: usize,
) -> Result<Option<Chain>, NoMemory>
    requires set { IsSetUnder setting.now (K.keys keys.old) }
    requires table { AreTermKeys setting.now p.now (K.keys keys.old) table.now }
    requires pending { All (IsPending setting.now p.now depth) pending.now }
    requires reach { IsReplacedInReach setting.now.vars.now (K.keys keys.old) setting.now.rows.now
        setting.now.den.piece.now setting.now.top (told p.now) }
    ensures chain { IfOk result (λ run. IfSome run (λ c. StandsUnder setting.now.vars.now
        (K.keys keys.new) arena.new c (polynomial_of (factored_terms
        (map (told_pending setting.now p.now depth) pending.now))))) }
    ensures adds { IfOk result (λ run. IfSome run (AddsChain arena.old arena.new)) }
    ensures none { IfOk result (λ run. IfNone run (SameChains arena.old arena.new)) }
    ensures err { OnErr result (SameChains arena.old arena.new) }
    ensures kept { KeepsKeys (K.keys keys.old) (K.keys keys.new) }
{
    arena.reserve(pending.len() as u64)?;
    let mut chain = arena.chain()?;
    let mut first = None;
    let mut i = pending.len();
    while i > 0 {
        i -= 1;
        let term = &pending[i];
        match next_key(alloc, setting, keys, p, table, term, depth, first) {
            Some(key) => {
                arena.push_front(&mut chain, key, term.coefficient);
                first = Some(key);
            }
            None => {
                arena.give_back(chain);
                return Ok(None);
            }
        }
    }
    Ok(Some(chain))
}
