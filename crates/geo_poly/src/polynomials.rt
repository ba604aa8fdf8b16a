//! Polynomials with whole coefficients: how they are made and read.

ghost use Rattle.std.specs.Prelude.{◌≡◌, ◌≢◌, ◌↔◌, ◌^◌, ◌<◌, [], ◌∷◌, pos, length};
ghost use Rattle.std.specs.Prelude.{unsigned_abs, slice_get, Contains, IfOk, IsTrue};
ghost use Rattle.sparse_lists.specs.SparseLists.{AllKeys};
ghost use Rattle.poly_arena.specs.Chains.{IsLive, pairs_of};
ghost use Rattle.geo_poly.specs.Chained.{IsKey, keyed_terms, keyed_terms_under};
ghost use Rattle.geo_poly.specs.Inner.Keyed.{IsIndexUnder, terms_under};
ghost use Rattle.geo_poly.specs.Inner.Words.{word_keys};
ghost use Rattle.geo_poly.specs.Keys.{IsKeyUnder};
ghost use Rattle.geo_poly.specs.Monomials.{IsMonomial};
ghost use Rattle.geo_poly.specs.PolynomialVariables.{AllVariables};
ghost use Rattle.geo_poly.specs.Polynomials.{IsPolynomial, constant_of, norm_of, term_at};
ghost use Rattle.geo_poly.specs.Polynomials.{total_degree};
ghost use Rattle.geo_poly.specs.Shared.{AreParts, IsIndex, IsShared, powers_at, terms_of, told};
ghost use Rattle.geo_poly.specs.Specialise.{specialised};
ghost use Rattle.geo_poly.specs.Variables.{var_cmp};
ghost use Rattle.mono_store.specs.Stores.{IsStore};
ghost use Rattle.std.specs.List.Sorted.{IsStrictlySortedBy};

use crate::interning::{indexed, stored_terms};
use crate::moving::moved;
use crate::numbering::number_in;
use crate::poly::Poly;
use crate::polynomial_variables::{mark, marked_variables, variables_at, variables_of_terms};
use crate::reading::{count_powers, is_same, norm_at, power_at, terms_at, total_degree_at};
use crate::roomy_stores::{store_for, store_for_terms};
use crate::shared::{Indexed, Shared};
use crate::stored::Stored;
use crate::terms::Term;
use crate::variables::{Var, Vars};
use crate::zeros::keep_lacking;
use geo_points::NoMemory;
use mono_store::{Digits, MonoId, Monos};
use poly_arena::{Arena, Chain};
use std::alloc::Global;
use std::marker::Model;
use std::ops::Deref;

impl Poly {
    /// The zero polynomial.
    pub fn zero(alloc: Global) -> Poly
        ensures { result ≡ [] }
    {
        let stored = Stored {
            vars: Vars {
                items: Vec::new(alloc),
            },
            monos: Monos::new(alloc),
            list: Vec::new(alloc),
        };
        Poly { stored }
    }

    /// The constant polynomial `n`, which is zero where `n` is 0.
    pub fn constant(alloc: Global, n: i128) -> Result<Poly, NoMemory>
        requires { unsigned_abs n < 2 ^ 127 }
        ensures { IfOk result (λ p. p ≡ constant_of n) }
    {
        if n == 0 {
            return Ok(Poly::zero(alloc));
        }
        let monos = Monos::new(alloc);
        let one = monos.one();
        Poly::monomial(alloc, Vec::new(alloc), monos, one, n)
    }

    /// The polynomial that is the one variable.
    pub fn var(alloc: Global, v: Var) -> Result<Poly, NoMemory>
        ensures { IfOk result (λ p. p ≡ ((v, 1) ∷ [], pos 1) ∷ []) }
    {
        let mut vars = Vec::new(alloc);
        vars.push(v)?;
        let mut monos = Monos::with_capacity(alloc, 1)?;
        let one = monos.one();
        let id = monos.mono(0, 1, one)?;
        Poly::monomial(alloc, vars, monos, id, 1)
    }

    /// The polynomial of a monomial with a coefficient.
    fn monomial(
        alloc: Global,
        vars: Vec<Var>,
        monos: Monos,
        id: MonoId,
        coefficient: i128,
    ) -> Result<Poly, NoMemory>
        requires rising { IsStrictlySortedBy var_cmp vars.items }
        requires index { IsIndex vars.items monos id }
        requires monomial { IsMonomial (powers_at vars.items monos id) }
        requires nonzero { unsigned_abs coefficient ≢ 0 }
        requires fits { unsigned_abs coefficient < 2 ^ 127 }
        ensures { IfOk result (λ p. p ≡ (powers_at vars.items monos id, coefficient) ∷ []) }
    {
        let mut list = Vec::new(alloc);
        list.push((id, coefficient))?;
        let vars = Vars { items: vars };
        let stored = Stored { vars, monos, list };
        Ok(Poly { stored })
    }

    /// A polynomial with the same terms.
    pub fn copy(&self, alloc: Global) -> Result<Poly, NoMemory>
        ensures { IfOk result (λ p. p ≡ self.now) }
    {
        let p = self.shared();
        let list = Vec::from_slice(alloc, p.list)?;
        Poly::over(alloc, &p, list)
    }

    /// The polynomial of a list, over copies of the variables and of the store.
    pub(crate) fn over(alloc: Global, p: &Shared, list: Vec<Indexed>) -> Result<Poly, NoMemory>
        requires { IsShared p.now.vars.now p.now.monos.now list.items }
        ensures { IfOk result (λ q. q ≡ terms_of p.now.vars.now p.now.monos.now list.items) }
    {
        let vars = Vars {
            items: Vec::from_slice(alloc, p.vars)?,
        };
        let monos = p.monos.copy(alloc)?;
        let stored = Stored { vars, monos, list };
        Ok(Poly { stored })
    }

    /// The polynomial of a list: over a new store where most of the given one is not in use, or
    /// most of the variables are not.
    pub(crate) fn compact(
        alloc: Global,
        vars: Vars,
        monos: Monos,
        list: Vec<Indexed>,
    ) -> Result<Poly, NoMemory>
        requires { IsShared vars monos list.items }
        ensures { IfOk result (λ q. q ≡ terms_of vars monos list.items) }
    {
        let part = Shared {
            vars: vars.as_slice(),
            monos: &monos,
            list: list.as_slice(),
        };
        if is_sparse(part.monos, list.len()) || is_stale(alloc, &part)? {
            return Poly::carried(alloc, &part);
        }
        let stored = Stored { vars, monos, list };
        Ok(Poly { stored })
    }

    /// The polynomial of a list: over a new store where most of the given one is not in use.
    pub(crate) fn of_part(alloc: Global, p: &Shared, list: Vec<Indexed>) -> Result<Poly, NoMemory>
        requires { IsShared p.now.vars.now p.now.monos.now list.items }
        ensures { IfOk result (λ q. q ≡ terms_of p.now.vars.now p.now.monos.now list.items) }
    {
        if !is_sparse(p.monos, list.len()) {
            return Poly::over(alloc, p, list);
        }
        let part = Shared {
            vars: p.vars,
            monos: p.monos,
            list: list.as_slice(),
        };
        Poly::carried(alloc, &part)
    }

    /// The polynomial of a list, over a new store of its own monomials.
    fn carried(alloc: Global, p: &Shared) -> Result<Poly, NoMemory>
        requires { AreParts p.now }
        ensures { IfOk result (λ q. q ≡ told p.now) }
    {
        let vars = variables_at(alloc, p)?;
        let mut monos = store_for(alloc, &vars, p)?;
        let list = moved(alloc, &mut monos, vars.as_slice(), p)?;
        let stored = Stored { vars, monos, list };
        Ok(Poly { stored })
    }

    /// The polynomial of these terms.
    pub(crate) fn from_terms(alloc: Global, terms: &[Term]) -> Result<Poly, NoMemory>
        requires { IsPolynomial terms.now }
        ensures { IfOk result (λ p. p ≡ terms.now) }
    {
        let vars = variables_of_terms(alloc, terms)?;
        let mut monos = store_for_terms(alloc, &vars, terms)?;
        let list = stored_terms(alloc, &mut monos, vars.as_slice(), terms)?;
        let stored = Stored { vars, monos, list };
        Ok(Poly { stored })
    }

    /// The polynomial that a chain stands for. The chain and its arena are spent.
    pub(crate) fn from_chain(
        alloc: Global,
        vars: Vars,
        monos: Monos,
        arena: Arena,
        chain: Chain,
    ) -> Result<Poly, NoMemory>
        requires rising { IsStrictlySortedBy var_cmp vars }
        requires live { IsLive arena chain }
        requires keys { AllKeys (IsKey vars monos) (pairs_of arena chain) }
        requires polynomial { IsPolynomial (keyed_terms vars monos (pairs_of arena chain)) }
        ensures { IfOk result (λ p. p ≡ keyed_terms vars monos (pairs_of arena chain)) }
    {
        let pairs = arena.into_list(alloc, chain)?;
        let list = indexed(alloc, &pairs)?;
        Poly::compact(alloc, vars, monos, list)
    }

    /// The polynomial that a chain of words stands for, over a store of these words. The chain and its
    /// arena are spent.
    pub(crate) fn from_words(
        alloc: Global,
        vars: Vars,
        words: Digits,
        arena: Arena,
        chain: Chain,
    ) -> Result<Poly, NoMemory>
        requires rising { IsStrictlySortedBy var_cmp vars }
        requires live { IsLive arena chain }
        requires keys { AllKeys (IsKeyUnder vars (word_keys words)) (pairs_of arena chain) }
        requires polynomial { IsPolynomial
            (keyed_terms_under vars (word_keys words) (pairs_of arena chain)) }
        ensures { IfOk result
            (λ p. p ≡ keyed_terms_under vars (word_keys words) (pairs_of arena chain)) }
    {
        let pairs = arena.into_list(alloc, chain)?;
        let list = indexed(alloc, &pairs)?;
        Poly::of_words(alloc, vars, words, list)
    }

    /// The polynomial of a list of words, without the digits that have no room, and without their
    /// variables: the words stay as they are.
    pub(crate) fn of_words(
        alloc: Global,
        vars: Vars,
        words: Digits,
        list: Vec<Indexed>,
    ) -> Result<Poly, NoMemory>
        requires rising { IsStrictlySortedBy var_cmp vars }
        requires indices { AllKeys (IsIndexUnder vars (word_keys words)) list.items }
        requires polynomial { IsPolynomial (terms_under vars (word_keys words) list.items) }
        ensures { IfOk result (λ p. p ≡ terms_under vars (word_keys words) list.items) }
    {
        if words.count() != vars.as_slice().len() {
            return Poly::over_words(alloc, vars, words, list);
        }
        let known = words.with_room(alloc)?;
        let items = marked_variables(alloc, vars.as_slice(), known.as_slice())?;
        let kept = words.without_empty(alloc)?;
        Poly::over_words(alloc, Vars { items }, kept, list)
    }

    /// The polynomial of a list of words, whose store has these words.
    fn over_words(
        alloc: Global,
        vars: Vars,
        words: Digits,
        list: Vec<Indexed>,
    ) -> Result<Poly, NoMemory>
        requires rising { IsStrictlySortedBy var_cmp vars }
        requires indices { AllKeys (IsIndexUnder vars (word_keys words)) list.items }
        requires polynomial { IsPolynomial (terms_under vars (word_keys words) list.items) }
        ensures { IfOk result (λ p. p ≡ terms_under vars (word_keys words) list.items) }
    {
        let monos = Monos::of_words(alloc, words);
        Poly::compact(alloc, vars, monos, list)
    }

    /// Puts 0 for the variable: the terms that lack it stay, over the same store.
    pub fn put_zero(&mut self, v: Var)
        ensures { self.new ≡ specialised v (pos 0) self.old }
    {
        if self.is_number() {
            return;
        }
        let vars = self.stored.vars.as_slice();
        let p = Shared {
            vars,
            monos: &self.stored.monos,
            list: self.stored.list.as_slice(),
        };
        if let Some(number) = number_in(&p, v) {
            keep_lacking(vars, &self.stored.monos, &mut self.stored.list, number);
        }
    }

    /// The terms, with monomials of their own.
    pub(crate) fn to_terms(&self, alloc: Global) -> Result<Vec<Term>, NoMemory>
        ensures terms { IfOk result (λ terms. terms.items ≡ self.now) }
        ensures valid { IsPolynomial self.now }
    {
        terms_at(alloc, &self.shared())
    }

    /// True: every polynomial meets the clause `valid`, which contracts then know. Where it stands in
    /// a `prove!`, it takes no time, as the norm would.
    pub fn is_valid(&self) -> bool
        ensures valid { IsPolynomial self.now }
        ensures always { IsTrue result }
    {
        let _parts = self.shared();
        true
    }

    /// The sum of the absolute coefficients. Every polynomial meets the clause `valid`.
    pub fn norm(&self) -> i128
        ensures norm { result ≡ pos (norm_of self.now) }
        ensures valid { IsPolynomial self.now }
    {
        self.unsigned_norm() as i128
    }

    /// The sum of the absolute coefficients, without a sign.
    pub(crate) fn unsigned_norm(&self) -> u128
        ensures norm { result ≡ norm_of self.now }
        ensures valid { IsPolynomial self.now }
    {
        norm_at(&self.shared())
    }

    /// The greatest degree of a monomial, and 0 for the zero polynomial.
    pub fn degree(&self) -> u32
        ensures { result ≡ total_degree self.now }
    {
        total_degree_at(&self.shared())
    }

    /// The number of monomials.
    pub fn terms(&self) -> u64
        ensures { result ≡ length self.now }
    {
        self.stored.list.len() as u64
    }

    /// The coefficient of the monomial at place i, from 0.
    pub fn coefficient(&self, i: u64) -> i128
        requires { i < length self.now }
        ensures { result ≡ (term_at self.now i).1 }
    {
        self.stored.list[i as usize].1
    }

    /// The number of variables of the monomial at place i, from 0.
    pub fn powers(&self, i: u64) -> u64
        requires { i < length self.now }
        ensures { result ≡ length (term_at self.now i).0 }
    {
        let p = self.shared();
        count_powers(&p, p.list[i as usize].0)
    }

    /// The variable at place j of the monomial at place i, both from 0, with its exponent.
    pub fn power(&self, i: u64, j: u64) -> (Var, u32)
        requires term { i < length self.now }
        requires variable { j < length (term_at self.now i).0 }
        ensures { slice_get (term_at self.now i).0 j ≡ Some result }
    {
        let p = self.shared();
        power_at(&p, p.list[i as usize].0, j)
    }

    /// Whether this is the zero polynomial, which has no monomial.
    pub fn is_zero(&self) -> bool
        ensures { IsTrue result ↔ (self.now ≡ []) }
    {
        self.stored.list.is_empty()
    }

    /// Whether both have the same monomials with the same coefficients.
    pub fn same(&self, other: &Poly) -> bool
        ensures { IsTrue result ↔ (self.now ≡ other.now) }
    {
        is_same(&self.shared(), &other.shared())
    }
}

/// Whether a store has far more links than that many monomials need. Nothing rests on it but time.
pub(crate) fn is_sparse(monos: &Monos, monomials: usize) -> bool {
    monos.links() / 4 > (monomials as u64).saturating_add(16)
}

/// Whether most of the variables occur no more. Nothing rests on it but time.
fn is_stale(alloc: Global, p: &Shared) -> Result<bool, NoMemory> {
    if p.vars.len() <= 16 {
        return Ok(false);
    }
    Ok(used_numbers(alloc, p)? < p.vars.len() / 2)
}

/// How many of the variables have a digit or a link in the store.
fn used_numbers(alloc: Global, p: &Shared) -> Result<usize, NoMemory> {
    let mut used = Vec::new(alloc);
    used.resize(p.vars.len(), false)?;
    let digits = marked_digits(&mut used, p);
    Ok(digits.saturating_add(marked_links(&mut used, p)))
}

/// Marks the variables whose digits have room, and answers how many were not marked.
fn marked_digits(used: &mut Vec<bool>, p: &Shared) -> usize {
    let digits = p.monos.digits();
    let mut count = 0usize;
    for var in 0..p.vars.len() {
        if digits.has_room(var as u64, 1) && !mark(used, var) {
            count = count.saturating_add(1);
        }
    }
    count
}

/// Marks the variables of the links, and answers how many were not marked.
fn marked_links(used: &mut Vec<bool>, p: &Shared) -> usize {
    let words = p.monos.words();
    let mut count = 0usize;
    // every store says of itself that it is one
    let _one = p.monos.one();
    for k in 0..p.monos.links() {
        if let Some(link) = p.monos.link(MonoId(words + k)) {
            if !mark(used, link.var as usize) {
                count = count.saturating_add(1);
            }
        }
    }
    count
}
