//! Replacing variables of a polynomial at once, each by a numerator over a power of a denominator.

ghost use Rattle.std.specs.Prelude.{◌≡◌, ◌≢◌, ◌↔◌, ◌+◌, ◌^◌, ◌<◌, ◌≤◌, Contains, IfOk, OnErr};
ghost use Rattle.std.specs.List.Sorted.{IsStrictlySortedBy};
ghost use Rattle.mono_store.specs.Stores.{Keeps};
ghost use Rattle.geo_poly.specs.declared.limits.Which.{Which};
ghost use Rattle.geo_poly.specs.declared.variables.Var.{Var};
ghost use Rattle.geo_poly.specs.Chained.{AddsChain, SameChains, StandsFor, StandsUnder};
ghost use Rattle.geo_poly.specs.Counted.{replacement_products};
ghost use Rattle.geo_poly.specs.Inner.Keyed.{AreWithinLimits, IsWithinLimits, KeepsKeys};
ghost use Rattle.geo_poly.specs.Inner.ReplacedExponents.{IsReplacedInReach};
ghost use Rattle.geo_poly.specs.Inner.Limits.{HaveRoom, exponent_anywhere};
ghost use Rattle.geo_poly.specs.Inner.Settings.{AreStoredUnder, IsStoredUnder};
ghost use Rattle.geo_poly.specs.KeptVariables.{AllNumerators};
ghost use Rattle.geo_poly.specs.PolynomialVariables.{AllVariables};
ghost use Rattle.geo_poly.specs.Replace.{AllBounded, AllPowersSmall, CanReplace, IsBounded};
ghost use Rattle.geo_poly.specs.Replace.{most_denominators, replaced_by};
ghost use Rattle.geo_poly.specs.Replace.{replaced_degree, replaced_weight};
ghost use Rattle.geo_poly.specs.Variables.{var_cmp};

use crate::chained_replacement::{stored_poly, stored_rows};
use crate::exponent_limits::{digits_for, replacement_limits};
use crate::limits::{MAX, MAX_DEGREE, PolyError, Which};
use crate::monomial_keys::MonomialKeys;
use crate::nested::nested_chain;
use crate::poly::Poly;
use crate::polynomial_variables::{union, with_others};
use crate::replacement_bounds::{degree_of_terms, most_denominators_of, weight_of_terms};
use crate::roomy_stores::roomy_store;
use crate::row_table::RowTable;
use crate::rows::{Piece, Row};
use crate::settings::{IndexList, Setting, StoredPiece};
use crate::term_limits::limits_by_terms;
use crate::ticks::Ticks;
use crate::variables::{Var, Vars};
use geo_points::NoMemory;
use mono_store::{Digits, Monos};
use poly_arena::{Arena, Chain};
use std::alloc::Global;
use std::sync::ledger::Ledger;

/// With more variables than these, limits of their exponents are not reckoned: of the 64 bits of a word each
/// variable that occurs takes one or more.
const MOST_NAMES: usize = 128;

impl Poly {
    /// Replaces the variables of the rows at once, and multiplies by the denominator as often as
    /// the monomial that needs it most, so that no fraction is left. The norm is tested first, by
    /// the weights of the pieces, and then the degree, by their degrees. Each product of monomials
    /// ticks, also in a call that then finds no memory.
    pub fn replace<L: Ledger>(
        &self,
        alloc: Global,
        rows: &[Row],
        den: &Piece,
        ticks: &mut Ticks<L>,
    ) -> Result<Poly, PolyError>
        requires rows { AllBounded rows.now }
        requires powers { AllPowersSmall rows.now }
        requires den { IsBounded den.now }
        ensures replaced { IfOk result (λ p. p ≡ replaced_by rows.now den.now.poly self.now) }
        ensures norm { (result ≡ Err (PolyError.TooLarge Which.Norm))
            ↔ (2 ^ 127 ≤ replaced_weight rows.now den.now self.now) }
        ensures degree { (result ≡ Err (PolyError.TooLarge Which.Degree))
            ↔ ((replaced_weight rows.now den.now self.now < 2 ^ 127)
            × (65535 < replaced_degree rows.now den.now self.now)) }
        ensures refused { (which : Which) → result ≡ Err (PolyError.TooLarge which)
            → ticks.new ≡ ticks.old }
        ensures ticks { ticks.new ≤ ticks.old
            + replacement_products rows.now den.now self.now }
    {
        let (table, top) = self.test_replacement(alloc, rows, den)?;
        Ok(self.replacement(alloc, &table, den, top, ticks)?)
    }

    /// The replacement of `replace`, where it is known that it fits, and how many denominators a
    /// term is to get.
    pub fn replace_within<L: Ledger>(
        &self,
        alloc: Global,
        rows: &[Row],
        den: &Piece,
        top: u32,
        ticks: &mut Ticks<L>,
    ) -> Result<Poly, NoMemory>
        requires rows { AllBounded rows.now }
        requires den { IsBounded den.now }
        requires top { top ≡ most_denominators rows.now self.now }
        requires norm { replaced_weight rows.now den.now self.now < 2 ^ 127 }
        requires degree { replaced_degree rows.now den.now self.now ≤ 65535 }
        ensures replaced { IfOk result (λ p. p ≡ replaced_by rows.now den.now.poly self.now) }
        ensures ticks { ticks.new ≤ ticks.old
            + replacement_products rows.now den.now self.now }
    {
        let table = RowTable::new(alloc, rows, self.shared().vars);
        self.replacement(alloc, &table, den, top, ticks)
    }

    /// The chain of the replacement, in an arena and over a store that are given; variables have
    /// the places in `vars` as their numbers. It is refused as `replace` is.
    pub fn replace_chain<L: Ledger>(
        &self,
        alloc: Global,
        rows: &[Row],
        den: &Piece,
        vars: &Vars,
        store: &mut Monos,
        arena: &mut Arena,
        ticks: &mut Ticks<L>,
    ) -> Result<Chain, PolyError>
        requires rows { AllBounded rows.now }
        requires powers { AllPowersSmall rows.now }
        requires den { IsBounded den.now }
        requires rising { IsStrictlySortedBy var_cmp vars.now }
        requires known { AllVariables (Contains vars.now) self.now }
        requires rows_known { AllNumerators (Contains vars.now) rows.now }
        requires den_known { AllVariables (Contains vars.now) den.now.poly }
        ensures chain { IfOk result (λ c. StandsFor vars.now store.new arena.new c
            (replaced_by rows.now den.now.poly self.now)) }
        ensures adds { IfOk result (AddsChain arena.old arena.new) }
        ensures norm { (result ≡ Err (PolyError.TooLarge Which.Norm))
            ↔ (2 ^ 127 ≤ replaced_weight rows.now den.now self.now) }
        ensures degree { (result ≡ Err (PolyError.TooLarge Which.Degree))
            ↔ ((replaced_weight rows.now den.now self.now < 2 ^ 127)
            × (65535 < replaced_degree rows.now den.now self.now)) }
        ensures refused { (which : Which) → result ≡ Err (PolyError.TooLarge which)
            → (arena.new ≡ arena.old) × (store.new ≡ store.old) × (ticks.new ≡ ticks.old) }
        ensures err { OnErr result (SameChains arena.old arena.new) }
        ensures kept { Keeps store.old store.new }
        ensures ticks { ticks.new ≤ ticks.old
            + replacement_products rows.now den.now self.now }
    {
        let (table, top) = self.test_replacement(alloc, rows, den)?;
        Ok(self.chained_replacement(alloc, &table, den, top, vars, store, arena, ticks)?)
    }

    /// Whether the replacement fits; if so, the rows, and how many denominators a term is to get.
    fn test_replacement<'a>(
        &self,
        alloc: Global,
        rows: &'a [Row],
        den: &Piece,
    ) -> Result<(RowTable<'a>, u32), PolyError>
        requires rows { AllBounded rows.now }
        requires powers { AllPowersSmall rows.now }
        requires den { IsBounded den.now }
        ensures rows { IfOk result (λ t. t.0 ≡ rows.now) }
        ensures top { IfOk result (λ t. t.1 ≡ most_denominators rows.now self.now) }
        ensures can { IfOk result (λ t. CanReplace rows.now den.now t.1 self.now) }
        ensures norm { (result ≡ Err (PolyError.TooLarge Which.Norm))
            ↔ (2 ^ 127 ≤ replaced_weight rows.now den.now self.now) }
        ensures degree { (result ≡ Err (PolyError.TooLarge Which.Degree))
            ↔ ((replaced_weight rows.now den.now self.now < 2 ^ 127)
            × (65535 < replaced_degree rows.now den.now self.now)) }
        ensures memory { result ≢ Err PolyError.NoMemory }
    {
        let p = &self.shared();
        let table = RowTable::new(alloc, rows, p.vars);
        let top = most_denominators_of(p, &table);
        if weight_of_terms(p, &table, den, top) > MAX as u128 {
            return Err(PolyError::TooLarge(Which::Norm));
        }
        if degree_of_terms(p, &table, den, top) > MAX_DEGREE as u128 {
            return Err(PolyError::TooLarge(Which::Degree));
        }
        Ok((table, top))
    }

    /// The replacement, which fits, with a store and an arena of its own.
    fn replacement<L: Ledger>(
        &self,
        alloc: Global,
        rows: &RowTable,
        den: &Piece,
        top: u32,
        ticks: &mut Ticks<L>,
    ) -> Result<Poly, NoMemory>
        requires top { top ≡ most_denominators rows.now self.now }
        requires can { CanReplace rows.now den.now top self.now }
        ensures replaced { IfOk result (λ p. p ≡ replaced_by rows.now den.now.poly self.now) }
        ensures ticks { ticks.new ≤ ticks.old
            + replacement_products rows.now den.now self.now }
    {
        let vars = self.replacement_vars(alloc, rows.rows(), den)?;
        let p = &self.shared();
        let names = vars.as_slice();
        if names.len() > MOST_NAMES {
            return self.stored_replacement(alloc, rows, den, top, vars, Monos::new(alloc), ticks);
        }
        let limits = replacement_limits(alloc, names, p, rows, den, top)?;
        if let Some(words) = digits_for(alloc, names, &limits)? {
            return self.packed_replacement(alloc, rows, den, top, vars, words, ticks);
        }
        let limits = limits_by_terms(alloc, names, p, rows, den, top)?;
        match digits_for(alloc, names, &limits)? {
            Some(words) => self.packed_replacement(alloc, rows, den, top, vars, words, ticks),
            None => {
                let store = roomy_store(alloc, &limits)?;
                self.stored_replacement(alloc, rows, den, top, vars, store, ticks)
            }
        }
    }

    /// The replacement, which fits, over a given store.
    fn stored_replacement<L: Ledger>(
        &self,
        alloc: Global,
        rows: &RowTable,
        den: &Piece,
        top: u32,
        vars: Vars,
        mut store: Monos,
        ticks: &mut Ticks<L>,
    ) -> Result<Poly, NoMemory>
        requires top { top ≡ most_denominators rows.now self.now }
        requires can { CanReplace rows.now den.now top self.now }
        requires rising { IsStrictlySortedBy var_cmp vars }
        requires known { AllVariables (Contains vars) self.now }
        requires rows_known { AllNumerators (Contains vars) rows.now }
        requires den_known { AllVariables (Contains vars) den.now.poly }
        ensures replaced { IfOk result (λ p. p ≡ replaced_by rows.now den.now.poly self.now) }
        ensures ticks { ticks.new ≤ ticks.old
            + replacement_products rows.now den.now self.now }
    {
        let mut arena = Arena::new(alloc)?;
        let chain = self.chained_replacement(
            alloc, rows, den, top, &vars, &mut store, &mut arena, ticks,
        )?;
        Poly::from_chain(alloc, vars, store, arena, chain)
    }

    /// The replacement, which fits, by words that have room for it.
    fn packed_replacement<L: Ledger>(
        &self,
        alloc: Global,
        rows: &RowTable,
        den: &Piece,
        top: u32,
        vars: Vars,
        mut words: Digits,
        ticks: &mut Ticks<L>,
    ) -> Result<Poly, NoMemory>
        requires top { top ≡ most_denominators rows.now self.now }
        requires can { CanReplace rows.now den.now top self.now }
        requires rising { IsStrictlySortedBy var_cmp vars }
        requires known { AllVariables (Contains vars) self.now }
        requires rows_known { AllNumerators (Contains vars) rows.now }
        requires den_known { AllVariables (Contains vars) den.now.poly }
        requires room { HaveRoom vars words
            (λ v. exponent_anywhere v rows.now den.now top self.now) }
        ensures replaced { IfOk result (λ p. p ≡ replaced_by rows.now den.now.poly self.now) }
        ensures ticks { ticks.new ≤ ticks.old
            + replacement_products rows.now den.now self.now }
    {
        let mut arena = Arena::new(alloc)?;
        let names = vars.as_slice();
        let chain = self.keyed_replacement(
            alloc, rows, den, top, names, &mut words, &mut arena, ticks,
        )?;
        Poly::from_words(alloc, vars, words, arena, chain)
    }

    /// The variables of all that the replacement is made of.
    pub(crate) fn replacement_vars(
        &self,
        alloc: Global,
        rows: &[Row],
        den: &Piece,
    ) -> Result<Vars, NoMemory>
        ensures rising { IfOk result (IsStrictlySortedBy var_cmp) }
        ensures known { IfOk result (λ vs. AllVariables (Contains vs) self.now) }
        ensures rows_known { IfOk result (λ vs. AllNumerators (Contains vs) rows.now) }
        ensures den_known { IfOk result (λ vs. AllVariables (Contains vs) den.now.poly) }
    {
        let vars = with_rows(alloc, self.vars(), rows)?;
        with_others(alloc, vars, den.poly.vars().as_slice())
    }

    /// The chain of the replacement, which fits.
    #[tactic(auto, using(crate::proofs::KeysKept::keeps_store))]
    fn chained_replacement<L: Ledger>(
        &self,
        alloc: Global,
        rows: &RowTable,
        den: &Piece,
        top: u32,
        vars: &Vars,
        store: &mut Monos,
        arena: &mut Arena,
        ticks: &mut Ticks<L>,
    ) -> Result<Chain, NoMemory>
        requires top { top ≡ most_denominators rows.now self.now }
        requires can { CanReplace rows.now den.now top self.now }
        requires rising { IsStrictlySortedBy var_cmp vars.now }
        requires known { AllVariables (Contains vars.now) self.now }
        requires rows_known { AllNumerators (Contains vars.now) rows.now }
        requires den_known { AllVariables (Contains vars.now) den.now.poly }
        ensures chain { IfOk result (λ c. StandsFor vars.now store.new arena.new c
            (replaced_by rows.now den.now.poly self.now)) }
        ensures adds { IfOk result (AddsChain arena.old arena.new) }
        ensures err { OnErr result (SameChains arena.old arena.new) }
        ensures kept { Keeps store.old store.new }
        ensures ticks { ticks.new ≤ ticks.old
            + replacement_products rows.now den.now self.now }
    {
        self.keyed_replacement(alloc, rows, den, top, vars.as_slice(), store, arena, ticks)
    }

    /// The chain of the replacement, which fits, under any keys that have room.
    fn keyed_replacement<K: MonomialKeys, L: Ledger>(
        &self,
        alloc: Global,
        rows: &RowTable,
        den: &Piece,
        top: u32,
        vars: &[Var],
        keys: &mut K,
        arena: &mut Arena,
        ticks: &mut Ticks<L>,
    ) -> Result<Chain, NoMemory>
        requires top { top ≡ most_denominators rows.now self.now }
        requires can { CanReplace rows.now den.now top self.now }
        requires rising { IsStrictlySortedBy var_cmp vars.now }
        requires known { AllVariables (Contains vars.now) self.now }
        requires rows_known { AllNumerators (Contains vars.now) rows.now }
        requires den_known { AllVariables (Contains vars.now) den.now.poly }
        requires rows_reach { AreWithinLimits vars.now (K.keys keys.old) rows.now }
        requires den_reach { IsWithinLimits vars.now (K.keys keys.old) den.now.poly }
        requires reach { IsReplacedInReach vars.now (K.keys keys.old) rows.now den.now top
            self.now }
        ensures chain { IfOk result (λ c. StandsUnder vars.now (K.keys keys.new) arena.new c
            (replaced_by rows.now den.now.poly self.now)) }
        ensures adds { IfOk result (AddsChain arena.old arena.new) }
        ensures err { OnErr result (SameChains arena.old arena.new) }
        ensures kept { KeepsKeys (K.keys keys.old) (K.keys keys.new) }
        ensures ticks { ticks.new ≤ ticks.old
            + replacement_products rows.now den.now self.now }
    {
        let nums = stored_rows(alloc, keys, vars, rows.rows())?;
        let list = stored_poly(alloc, keys, vars, &den.poly)?;
        let den = StoredPiece {
            piece: den,
            list: &list,
        };
        self.listed_replacement(alloc, rows, &nums, &den, top, vars, keys, arena, ticks)
    }

    /// The chain of the replacement, which fits, by lists of keys of the pieces.
    fn listed_replacement<'a, K: MonomialKeys, L: Ledger>(
        &self,
        alloc: Global,
        rows: &'a RowTable<'a>,
        nums: &'a [IndexList],
        den: &'a StoredPiece<'a>,
        top: u32,
        vars: &'a [Var],
        keys: &mut K,
        arena: &mut Arena,
        ticks: &mut Ticks<L>,
    ) -> Result<Chain, NoMemory>
        requires top { top ≡ most_denominators rows.now self.now }
        requires can { CanReplace rows.now den.now.piece.now top self.now }
        requires rising { IsStrictlySortedBy var_cmp vars.now }
        requires known { AllVariables (Contains vars.now) self.now }
        requires rows_stored { AreStoredUnder vars.now (K.keys keys.old) rows.now nums.now }
        requires den_stored { IsStoredUnder vars.now (K.keys keys.old) den.now.list.now
            den.now.piece.now.poly }
        requires reach { IsReplacedInReach vars.now (K.keys keys.old) rows.now den.now.piece.now
            top self.now }
        ensures chain { IfOk result (λ c. StandsUnder vars.now (K.keys keys.new) arena.new c
            (replaced_by rows.now den.now.piece.now.poly self.now)) }
        ensures adds { IfOk result (AddsChain arena.old arena.new) }
        ensures err { OnErr result (SameChains arena.old arena.new) }
        ensures kept { KeepsKeys (K.keys keys.old) (K.keys keys.new) }
        ensures ticks { ticks.new ≤ ticks.old
            + replacement_products rows.now den.now.piece.now self.now }
    {
        let p = &self.shared();
        let setting = Setting {
            vars,
            rows,
            nums,
            den: *den,
            top,
        };
        nested_chain(alloc, &setting, keys, arena, p, ticks)
    }
}

/// The variables of the list and those of the numerators, in order and each once.
fn with_rows(alloc: Global, own: &Vars, rows: &[Row]) -> Result<Vars, NoMemory>
    requires { IsStrictlySortedBy var_cmp own.now }
    ensures rising { IfOk result (IsStrictlySortedBy var_cmp) }
    ensures own { IfOk result (λ vs. (v : Var) → Contains own.now v → Contains vs v) }
    ensures rows { IfOk result (λ vs. AllNumerators (Contains vs) rows.now) }
{
    let more = numerator_vars(alloc, rows)?;
    union(alloc, own.as_slice(), more.as_slice())
}

/// The variables of the numerators, in order and each once, by halves of the rows.
fn numerator_vars(alloc: Global, rows: &[Row]) -> Result<Vars, NoMemory>
    ensures rising { IfOk result (IsStrictlySortedBy var_cmp) }
    ensures rows { IfOk result (λ vs. AllNumerators (Contains vs) rows.now) }
{
    match rows {
        [] => Ok(Vars {
            items: Vec::new(alloc),
        }),
        [row] => Ok(Vars {
            items: Vec::from_slice(alloc, row.num.poly.vars().as_slice())?,
        }),
        [row, other] => pair_vars(alloc, row, other),
        _ => {
            let (front, back) = rows.split_at(rows.len() / 2);
            let left = numerator_vars(alloc, front)?;
            let right = numerator_vars(alloc, back)?;
            union(alloc, left.as_slice(), right.as_slice())
        }
    }
}

/// The variables of the numerator.
fn row_vars(row: &Row) -> &[Var]
    ensures rising { IsStrictlySortedBy var_cmp result.now }
    ensures known { AllVariables (Contains result.now) row.now.num.poly }
{
    row.num.poly.vars().as_slice()
}

/// The variables of both numerators, in order and each once.
fn pair_vars(alloc: Global, row: &Row, other: &Row) -> Result<Vars, NoMemory>
    ensures rising { IfOk result (IsStrictlySortedBy var_cmp) }
    ensures row { IfOk result (λ vs. AllVariables (Contains vs) row.now.num.poly) }
    ensures other { IfOk result (λ vs. AllVariables (Contains vs) other.now.num.poly) }
{
    union(alloc, row_vars(row), row_vars(other))
}
