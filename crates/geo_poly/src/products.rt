//! Products of polynomials.

ghost use Rattle.std.specs.Prelude.{◌≡◌, ◌≢◌, ◌↔◌, ◌+◌, ◌*◌, ◌^◌, ◌<◌, ◌≤◌, [], ◌∷◌, pos};
ghost use Rattle.std.specs.Prelude.{Contains, IfOk, IfSome, IsTrue, OnErr, OnOk};
ghost use Rattle.std.specs.List.Sorted.{IsStrictlySortedBy};
ghost use Rattle.mono_store.specs.Stores.{Keeps};
ghost use Rattle.geo_poly.specs.declared.limits.Which.{Which};
ghost use Rattle.geo_poly.specs.Chained.{AddsChain, SameChains, StandsFor};
ghost use Rattle.geo_poly.specs.Inner.Keyed.{AreInReach, IsIndexUnder, KeepsKeys};
ghost use Rattle.geo_poly.specs.Inner.Keyed.{greatest_exponent, terms_under};
ghost use Rattle.geo_poly.specs.Inner.Limits.{HaveRoom};
ghost use Rattle.geo_poly.specs.Inner.Words.{word_keys};
ghost use Rattle.geo_poly.specs.Polynomials.{CanMultiply, IsPolynomial, norm_of, product_of};
ghost use Rattle.geo_poly.specs.Polynomials.{total_degree};
ghost use Rattle.geo_poly.specs.PolynomialVariables.{AllVariables};
ghost use Rattle.geo_poly.specs.Shared.{AreParts, IsIndex, terms_of, told};
ghost use Rattle.sparse_lists.specs.SparseLists.{AllKeys};
ghost use Rattle.geo_poly.specs.Variables.{var_cmp};

use crate::chained::product_chain;
use crate::chained_replacement::is_one;
use crate::dense_products::{dense_product, is_dense};
use crate::exponent_limits::product_digits;
use crate::interning::indexed;
use crate::limits::{MAX, MAX_DEGREE, PolyError, Which};
use crate::monomial_keys::MonomialKeys;
use crate::moving::{keyed, moved};
use crate::multiples::multiples_list;
use crate::poly::Poly;
use crate::polynomial_variables::{has_all, union};
use crate::run_products::run_product;
use crate::shared::{Indexed, Shared};
use crate::ticks::Ticks;
use crate::variables::{Var, Vars};
use geo_points::NoMemory;
use mono_store::{Digits, Monos};
use poly_arena::{Arena, Chain};
use std::alloc::Global;
use std::marker::Brand;
use std::sync::ledger::{Blank, Ledger};

impl Poly {
    /// The product. It is refused by the norms and the degrees of the factors; a product with zero
    /// has a degree that fits. Where a factor is 1, it is a copy of the other.
    pub fn mul(&self, alloc: Global, other: &Poly) -> Result<Poly, PolyError>
        ensures product { IfOk result (λ p. p ≡ product_of self.now other.now) }
        ensures norm { (result ≡ Err (PolyError.TooLarge Which.Norm))
            ↔ (2 ^ 127 ≤ norm_of self.now * norm_of other.now) }
        ensures degree { (result ≡ Err (PolyError.TooLarge Which.Degree))
            ↔ ((norm_of self.now * norm_of other.now < 2 ^ 127)
            × (65535 < total_degree self.now + total_degree other.now)) }
    {
        if let Some(factor) = self.factor_beside_one(other) {
            return Ok(factor.copy(alloc)?);
        }
        self.test_product(other)?;
        Ok(product(alloc, &self.shared(), &other.shared())?)
    }

    /// The chain of the product, in an arena and over a store that are given; the variables have
    /// the places in `vars` as their numbers. It is refused as `mul` is.
    pub fn mul_chain(
        &self,
        alloc: Global,
        other: &Poly,
        vars: &Vars,
        store: &mut Monos,
        arena: &mut Arena,
    ) -> Result<Chain, PolyError>
        requires rising { IsStrictlySortedBy var_cmp vars.now }
        requires left { AllVariables (Contains vars.now) self.now }
        requires right { AllVariables (Contains vars.now) other.now }
        ensures chain { IfOk result (λ c. StandsFor vars.now store.new arena.new c
            (product_of self.now other.now)) }
        ensures adds { IfOk result (AddsChain arena.old arena.new) }
        ensures norm { (result ≡ Err (PolyError.TooLarge Which.Norm))
            ↔ (2 ^ 127 ≤ norm_of self.now * norm_of other.now) }
        ensures degree { (result ≡ Err (PolyError.TooLarge Which.Degree))
            ↔ ((norm_of self.now * norm_of other.now < 2 ^ 127)
            × (65535 < total_degree self.now + total_degree other.now)) }
        ensures refused { (which : Which) → result ≡ Err (PolyError.TooLarge which)
            → (arena.new ≡ arena.old) × (store.new ≡ store.old) }
        ensures err { OnErr result (SameChains arena.old arena.new) }
        ensures kept { Keeps store.old store.new }
    {
        self.test_product(other)?;
        let blank = Blank::new(1);
        Ok(self.chained_product::<Brand>(alloc, other, vars, store, arena, blank)?)
    }

    /// The other factor, where one is 1: that is the product, and it fits.
    fn factor_beside_one<'a>(&'a self, other: &'a Poly) -> Option<&'a Poly>
        ensures product { IfSome result (λ p. p.now ≡ product_of self.now other.now) }
        ensures norm { IfSome result (λ _. norm_of self.now * norm_of other.now < 2 ^ 127) }
        ensures degree { IfSome result
            (λ _. total_degree self.now + total_degree other.now ≤ 65535) }
    {
        match (self.is_one(), other.is_one()) {
            (_, true) => Some(self),
            (true, _) => Some(other),
            _ => None,
        }
    }

    /// Whether this is the polynomial 1. Every polynomial meets the clause `valid`.
    fn is_one(&self) -> bool
        ensures one { IsTrue result → self.now ≡ ([], pos 1) ∷ [] }
        ensures valid { IsPolynomial self.now }
    {
        let p = self.shared();
        // every store says of itself that it is one
        let _one = p.monos.one();
        is_one(p.list)
    }

    /// Whether the product fits.
    fn test_product(&self, other: &Poly) -> Result<(), PolyError>
        ensures ok { OnOk result (CanMultiply self.now other.now) }
        ensures norm { (result ≡ Err (PolyError.TooLarge Which.Norm))
            ↔ (2 ^ 127 ≤ norm_of self.now * norm_of other.now) }
        ensures degree { (result ≡ Err (PolyError.TooLarge Which.Degree))
            ↔ ((norm_of self.now * norm_of other.now < 2 ^ 127)
            × (65535 < total_degree self.now + total_degree other.now)) }
        ensures memory { result ≢ Err PolyError.NoMemory }
    {
        match self.unsigned_norm().checked_mul(other.unsigned_norm()) {
            Some(norm) if norm <= MAX as u128 => {}
            _ => return Err(PolyError::TooLarge(Which::Norm)),
        }
        if self.degree() + other.degree() > MAX_DEGREE {
            return Err(PolyError::TooLarge(Which::Degree));
        }
        Ok(())
    }

    /// The chain of the product, which fits; its products of monomials are counted for nobody.
    #[tactic(auto, using(crate::proofs::KeysKept::keeps_store))]
    fn chained_product<L: Ledger>(
        &self,
        alloc: Global,
        other: &Poly,
        vars: &Vars,
        store: &mut Monos,
        arena: &mut Arena,
        blank: Blank,
    ) -> Result<Chain, NoMemory>
        requires name { blank.name ≡ L.name }
        requires parts { blank.parts ≡ L.parts }
        requires some { 0 < blank.parts }
        requires rising { IsStrictlySortedBy var_cmp vars.now }
        requires left { AllVariables (Contains vars.now) self.now }
        requires right { AllVariables (Contains vars.now) other.now }
        requires fits { CanMultiply self.now other.now }
        ensures chain { IfOk result (λ c. StandsFor vars.now store.new arena.new c
            (product_of self.now other.now)) }
        ensures adds { IfOk result (AddsChain arena.old arena.new) }
        ensures err { OnErr result (SameChains arena.old arena.new) }
        ensures kept { Keeps store.old store.new }
    {
        let vars = vars.as_slice();
        let left = moved(alloc, store, vars, &self.shared())?;
        let right = moved(alloc, store, vars, &other.shared())?;
        let mut ticks = Ticks::<L>::new(blank);
        product_chain(store, arena, vars, &left, &right, &mut ticks)
    }
}

/// The product, which fits: over a copy of the store of one factor, where that has all variables
/// and the other factor has one monomial, or else over a new one.
fn product(alloc: Global, p: &Shared, q: &Shared) -> Result<Poly, NoMemory>
    requires left { AreParts p.now }
    requires right { AreParts q.now }
    requires fits { CanMultiply (told p.now) (told q.now) }
    ensures { IfOk result (λ s. s ≡ product_of (told p.now) (told q.now)) }
{
    if q.list.len() == 1 && has_all(p.vars, q.vars) {
        return product_over(alloc, p, q);
    }
    if p.list.len() == 1 && has_all(q.vars, p.vars) {
        return product_over(alloc, q, p);
    }
    let vars = union(alloc, p.vars, q.vars)?;
    match product_digits(alloc, vars.as_slice(), p, q)? {
        Some(words) => packed_product(alloc, vars, words, p, q),
        None => stored_product(alloc, vars, p, q),
    }
}

/// The product, which fits, over a store.
fn stored_product(alloc: Global, vars: Vars, p: &Shared, q: &Shared) -> Result<Poly, NoMemory>
    requires rising { IsStrictlySortedBy var_cmp vars }
    requires left { AreParts p.now }
    requires right { AreParts q.now }
    requires left_known { AllVariables (Contains vars) (told p.now) }
    requires right_known { AllVariables (Contains vars) (told q.now) }
    requires fits { CanMultiply (told p.now) (told q.now) }
    ensures { IfOk result (λ s. s ≡ product_of (told p.now) (told q.now)) }
{
    let mut monos = Monos::with_capacity(alloc, product_room(p, q))?;
    let list = product_of_moved(alloc, &mut monos, vars.as_slice(), p, q)?;
    Poly::compact(alloc, vars, monos, list)
}

/// The product, which fits, by words that have room for it.
fn packed_product(
    alloc: Global,
    vars: Vars,
    mut words: Digits,
    p: &Shared,
    q: &Shared,
) -> Result<Poly, NoMemory>
    requires rising { IsStrictlySortedBy var_cmp vars }
    requires left { AreParts p.now }
    requires right { AreParts q.now }
    requires left_known { AllVariables (Contains vars) (told p.now) }
    requires right_known { AllVariables (Contains vars) (told q.now) }
    requires fits { CanMultiply (told p.now) (told q.now) }
    requires room { HaveRoom vars words
        (λ v. greatest_exponent v (told p.now) + greatest_exponent v (told q.now)) }
    ensures { IfOk result (λ s. s ≡ product_of (told p.now) (told q.now)) }
{
    let names = vars.as_slice();
    let list = keyed_product(alloc, &mut words, names, p, q)?;
    Poly::of_words(alloc, vars, words, list)
}

/// The list of the product, which fits, by words that have room for it.
fn keyed_product(
    alloc: Global,
    words: &mut Digits,
    vars: &[Var],
    p: &Shared,
    q: &Shared,
) -> Result<Vec<Indexed>, NoMemory>
    requires rising { IsStrictlySortedBy var_cmp vars.now }
    requires left { AreParts p.now }
    requires right { AreParts q.now }
    requires left_known { AllVariables (Contains vars.now) (told p.now) }
    requires right_known { AllVariables (Contains vars.now) (told q.now) }
    requires fits { CanMultiply (told p.now) (told q.now) }
    requires reach { AreInReach vars.now (word_keys words.old) (told p.now) (told q.now) }
    ensures indices { IfOk result
        (λ list. AllKeys (IsIndexUnder vars.now (word_keys words.new)) list.items) }
    ensures product { IfOk result (λ list. terms_under vars.now (word_keys words.new) list.items
        ≡ product_of (told p.now) (told q.now)) }
{
    let left = keyed(alloc, words, vars, p)?;
    let right = keyed(alloc, words, vars, q)?;
    word_product(alloc, words, vars, &left, &right)
}

/// The list of the product, by words: where these are few by a sum for each, or else by runs.
fn word_product(
    alloc: Global,
    words: &mut Digits,
    vars: &[Var],
    left: &[Indexed],
    right: &[Indexed],
) -> Result<Vec<Indexed>, NoMemory>
    requires rising { IsStrictlySortedBy var_cmp vars.now }
    requires left { AllKeys (IsIndexUnder vars.now (word_keys words.old)) left.now }
    requires right { AllKeys (IsIndexUnder vars.now (word_keys words.old)) right.now }
    requires fits { CanMultiply (terms_under vars.now (word_keys words.old) left.now)
        (terms_under vars.now (word_keys words.old) right.now) }
    requires reach { AreInReach vars.now (word_keys words.old)
        (terms_under vars.now (word_keys words.old) left.now)
        (terms_under vars.now (word_keys words.old) right.now) }
    ensures indices { IfOk result
        (λ list. AllKeys (IsIndexUnder vars.now (word_keys words.new)) list.items) }
    ensures product { IfOk result (λ list. terms_under vars.now (word_keys words.new) list.items
        ≡ product_of (terms_under vars.now (word_keys words.old) left.now)
        (terms_under vars.now (word_keys words.old) right.now)) }
{
    if is_dense(words, left, right) {
        dense_product(alloc, words, vars, left, right)
    } else {
        run_product(alloc, words, vars, left, right)
    }
}

/// Room for the links of a product. Nothing rests on it but time.
fn product_room(p: &Shared, q: &Shared) -> u64 {
    let products = p.list.len().saturating_mul(q.list.len());
    (products as u64).min(1 << 20)
}

/// The product, over a copy of the store of the first, which has the variables of both.
fn product_over(alloc: Global, p: &Shared, q: &Shared) -> Result<Poly, NoMemory>
    requires left { AreParts p.now }
    requires right { AreParts q.now }
    requires known { AllVariables (Contains p.now.vars.now) (told q.now) }
    requires fits { CanMultiply (told p.now) (told q.now) }
    ensures { IfOk result (λ s. s ≡ product_of (told p.now) (told q.now)) }
{
    let mut monos = p.monos.copy(alloc)?;
    let right = moved(alloc, &mut monos, p.vars, q)?;
    let list = product_list::<Brand>(alloc, &mut monos, p.vars, p.list, &right, Blank::new(1))?;
    let items = Vec::from_slice(alloc, p.vars)?;
    Poly::compact(alloc, Vars { items }, monos, list)
}

/// The list of the product, in a store.
fn product_of_moved(
    alloc: Global,
    store: &mut Monos,
    vars: &[Var],
    p: &Shared,
    q: &Shared,
) -> Result<Vec<Indexed>, NoMemory>
    requires rising { IsStrictlySortedBy var_cmp vars.now }
    requires left { AreParts p.now }
    requires right { AreParts q.now }
    requires left_known { AllVariables (Contains vars.now) (told p.now) }
    requires right_known { AllVariables (Contains vars.now) (told q.now) }
    requires fits { CanMultiply (told p.now) (told q.now) }
    ensures indices { IfOk result (λ list. AllKeys (IsIndex vars.now store.new) list.items) }
    ensures product { IfOk result
        (λ list. terms_of vars.now store.new list.items ≡ product_of (told p.now) (told q.now)) }
{
    let left = moved(alloc, store, vars, p)?;
    let right = moved(alloc, store, vars, q)?;
    product_list::<Brand>(alloc, store, vars, &left, &right, Blank::new(1))
}

/// The list of the product, in a store: over an arena where there are sums.
#[tactic(auto, using(crate::proofs::KeysKept::keeps_store))]
pub(crate) fn product_list<L: Ledger>(
    alloc: Global,
    store: &mut Monos,
    vars: &[Var],
    left: &[Indexed],
    right: &[Indexed],
    blank: Blank,
) -> Result<Vec<Indexed>, NoMemory>
    requires name { blank.name ≡ L.name }
    requires parts { blank.parts ≡ L.parts }
    requires some { 0 < blank.parts }
    requires rising { IsStrictlySortedBy var_cmp vars.now }
    requires left { AllKeys (IsIndex vars.now store.old) left.now }
    requires right { AllKeys (IsIndex vars.now store.old) right.now }
    requires fits { CanMultiply (terms_of vars.now store.old left.now)
        (terms_of vars.now store.old right.now) }
    ensures indices { IfOk result (λ list. AllKeys (IsIndex vars.now store.new) list.items) }
    ensures product { IfOk result (λ list. terms_of vars.now store.new list.items
        ≡ product_of (terms_of vars.now store.old left.now)
        (terms_of vars.now store.old right.now)) }
    ensures kept { Keeps store.old store.new }
{
    match (left, right) {
        ([t], _) => multiples_list(alloc, store, vars, *t, right),
        (_, [t]) => multiples_list(alloc, store, vars, *t, left),
        _ => merged_product(alloc, store, vars, left, right, &mut Ticks::<L>::new(blank)),
    }
}

/// The list of the product, by chains of an arena.
fn merged_product<K: MonomialKeys, L: Ledger>(
    alloc: Global,
    keys: &mut K,
    vars: &[Var],
    left: &[Indexed],
    right: &[Indexed],
    ticks: &mut Ticks<L>,
) -> Result<Vec<Indexed>, NoMemory>
    requires rising { IsStrictlySortedBy var_cmp vars.now }
    requires left { AllKeys (IsIndexUnder vars.now (K.keys keys.old)) left.now }
    requires right { AllKeys (IsIndexUnder vars.now (K.keys keys.old)) right.now }
    requires fits { CanMultiply (terms_under vars.now (K.keys keys.old) left.now)
        (terms_under vars.now (K.keys keys.old) right.now) }
    requires reach { AreInReach vars.now (K.keys keys.old)
        (terms_under vars.now (K.keys keys.old) left.now)
        (terms_under vars.now (K.keys keys.old) right.now) }
    ensures indices { IfOk result
        (λ list. AllKeys (IsIndexUnder vars.now (K.keys keys.new)) list.items) }
    ensures product { IfOk result (λ list. terms_under vars.now (K.keys keys.new) list.items
        ≡ product_of (terms_under vars.now (K.keys keys.old) left.now)
        (terms_under vars.now (K.keys keys.old) right.now)) }
    ensures kept { KeepsKeys (K.keys keys.old) (K.keys keys.new) }
{
    let mut arena = Arena::new(alloc)?;
    let chain = product_chain(keys, &mut arena, vars, left, right, ticks)?;
    let pairs = arena.into_list(alloc, chain)?;
    indexed(alloc, &pairs)
}
