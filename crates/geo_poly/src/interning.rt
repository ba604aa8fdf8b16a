//! Monomials put into a store, whose variables are numbered by their places in a list.

ghost use Rattle.std.specs.Prelude.{◌≡◌, ◌<◌, Contains, IfOk, length, map};
ghost use Rattle.std.specs.List.Sorted.{IsStrictlySortedBy};
ghost use Rattle.sparse_lists.specs.SparseLists.{AllKeys};
ghost use Rattle.mono_store.specs.Stores.{Keeps};
ghost use Rattle.geo_poly.specs.Chained.{indexed_pair};
ghost use Rattle.geo_poly.specs.Monomials.{IsMonomial};
ghost use Rattle.geo_poly.specs.PolynomialVariables.{AllVariables};
ghost use Rattle.geo_poly.specs.Shared.{IsIndex, powers_at, terms_of, var_at};
ghost use Rattle.geo_poly.specs.Variables.{var_cmp};

use crate::shared::Indexed;
use crate::terms::Term;
use crate::variable_places::find_place;
use crate::variables::Var;
use geo_points::NoMemory;
use mono_store::{MonoId, Monos};
use std::alloc::Global;

/// The place of a variable that the list has. It is looked for first where it is supposed to stand.
pub(crate) fn place_near(vars: &[Var], v: Var, guess: u64) -> u64
    requires rising { IsStrictlySortedBy var_cmp vars.now }
    requires known { Contains vars.now v }
    ensures within { result < length vars.now }
    ensures variable { var_at vars.now result ≡ v }
{
    match find_place(vars, v, guess) {
        Some(place) => place,
        None => unreachable!(),
    }
}

/// The number at a place, and 0 past the end.
pub(crate) fn number_at(numbers: &[u64], i: usize) -> u64 {
    match numbers.get(i) {
        Some(number) => *number,
        None => 0,
    }
}

/// The index of the monomial with these powers. The places of its variables are put down as guesses
/// for the next monomial, which has mostly the same.
pub(crate) fn stored(
    store: &mut Monos,
    vars: &[Var],
    powers: &[(Var, u32)],
    guesses: &mut Vec<u64>,
) -> Result<MonoId, NoMemory>
    requires rising { IsStrictlySortedBy var_cmp vars.now }
    requires monomial { IsMonomial powers.now }
    requires known { AllKeys (Contains vars.now) powers.now }
    ensures index { IfOk result (IsIndex vars.now store.new) }
    ensures powers { IfOk result (λ id. powers_at vars.now store.new id ≡ powers.now) }
    ensures kept { Keeps store.old store.new }
{
    guesses.resize(powers.len(), 0)?;
    let mut id = store.one();
    let mut i = powers.len();
    while i > 0 {
        i -= 1;
        let (v, exponent) = powers[i];
        let place = place_near(vars, v, number_at(guesses, i));
        if i < guesses.len() {
            guesses[i] = place;
        }
        id = store.mono(place, exponent, id)?;
    }
    Ok(id)
}

/// The indices of the monomials of these terms, with their coefficients.
pub(crate) fn stored_terms(
    alloc: Global,
    store: &mut Monos,
    vars: &[Var],
    terms: &[Term],
) -> Result<Vec<Indexed>, NoMemory>
    requires rising { IsStrictlySortedBy var_cmp vars.now }
    requires monomials { AllKeys IsMonomial terms.now }
    requires known { AllVariables (Contains vars.now) terms.now }
    ensures indices { IfOk result (λ list. AllKeys (IsIndex vars.now store.new) list.items) }
    ensures terms { IfOk result (λ list. terms_of vars.now store.new list.items ≡ terms.now) }
    ensures kept { Keeps store.old store.new }
{
    let mut list = Vec::with_capacity(alloc, terms.len())?;
    let mut guesses = Vec::new(alloc);
    for term in terms {
        let id = stored(store, vars, term.0.powers(), &mut guesses)?;
        list.push((id, term.1))?;
    }
    Ok(list)
}

/// The keys of a chain as indices.
pub(crate) fn indexed(alloc: Global, pairs: &[(u64, i128)]) -> Result<Vec<Indexed>, NoMemory>
    ensures { IfOk result (λ list. list.items ≡ map indexed_pair pairs.now) }
{
    let mut list = Vec::with_capacity(alloc, pairs.len())?;
    for (key, coefficient) in pairs {
        list.push((MonoId(*key), *coefficient))?;
    }
    Ok(list)
}
