//! Words in which products and replacements have room, by bounds of the exponents that are known before
//! anything is multiplied out.

ghost use Rattle.std.specs.Prelude.{◌≡◌, ◌≢◌, ◌∷◌, [], ◌+◌, ◌*◌, ◌^◌, ◌<◌, ◌≤◌, max, min, ℕ, ◌-◌};
ghost use Rattle.std.specs.Prelude.{IfOk, IfSome, IsFalse, OnOk, length, slice_index_or};
ghost use Rattle.std.specs.List.Sorted.{IsStrictlySortedBy};
ghost use Rattle.geo_poly.specs.declared.variables.Var.{Var};
ghost use Rattle.geo_poly.specs.Inner.Keyed.{greatest_exponent};
ghost use Rattle.geo_poly.specs.Inner.Limits.{AreBounds, AreGreatest, AreLimits, IsBelow};
ghost use Rattle.geo_poly.specs.Inner.Limits.{HaveRoom, exponent_anywhere, exponents_of_rows};
ghost use Rattle.geo_poly.specs.Monomials.{IsMonomial, exponent};
ghost use Rattle.geo_poly.specs.Replace.{others};
ghost use Rattle.geo_poly.specs.Shared.{AreParts, IsIndexOf, told, told_powers};
ghost use Rattle.geo_poly.specs.Variables.{var_cmp};

use crate::row_table::RowTable;
use crate::rows::{Piece, Row};
use crate::shared::Shared;
use crate::variable_places::find_place;
use crate::variables::Var;
use geo_points::NoMemory;
use mono_store::{Digits, MonoId};
use std::alloc::Global;

/// Words in which the product has room, where there are such.
pub(crate) fn product_digits(
    alloc: Global,
    vars: &[Var],
    p: &Shared,
    q: &Shared,
) -> Result<Option<Digits>, NoMemory>
    requires rising { IsStrictlySortedBy var_cmp vars.now }
    requires left { AreParts p.now }
    requires right { AreParts q.now }
    ensures { IfOk result (λ found. IfSome found (λ f. HaveRoom vars.now f
        (λ v. greatest_exponent v (told p.now) + greatest_exponent v (told q.now)))) }
{
    let mut limits = no_limits(alloc, vars)?;
    add_polynomial(alloc, &mut limits, vars, p, 1)?;
    add_polynomial(alloc, &mut limits, vars, q, 1)?;
    digits_for(alloc, vars, &limits)
}

/// Limits of the exponents that the pieces and the replacement have.
pub(crate) fn replacement_limits(
    alloc: Global,
    vars: &[Var],
    p: &Shared,
    rows: &RowTable,
    den: &Piece,
    top: u32,
) -> Result<Vec<u32>, NoMemory>
    requires rising { IsStrictlySortedBy var_cmp vars.now }
    requires parts { AreParts p.now }
    ensures { IfOk result (λ limits. AreLimits vars.now
        (λ v. exponent_anywhere v rows.now den.now top (told p.now)) limits.items) }
{
    let mut limits = no_limits(alloc, vars)?;
    let own = exponent_bounds(alloc, p)?;
    add_others(&mut limits, vars, rows, &own);
    let mut numbers = Vec::new(alloc);
    add_bounds(
        alloc,
        &mut limits,
        vars,
        &den.poly.shared(),
        top.max(1),
        &mut numbers,
    )?;
    add_rows(alloc, &mut limits, vars, rows.rows(), &own, &mut numbers)?;
    Ok(limits)
}

/// Words in which exponents up to these limits have room, where there are such. A limit that is the
/// greatest number says nothing.
pub(crate) fn digits_for(
    alloc: Global,
    vars: &[Var],
    limits: &[u32],
) -> Result<Option<Digits>, NoMemory>
    ensures { (bound : Var → ℕ) → AreLimits vars.now bound limits.now
        → IfOk result (λ found. IfSome found (λ f. HaveRoom vars.now f bound)) }
{
    let _ = vars;
    if is_saturated(limits) {
        return Ok(None);
    }
    Ok(Digits::new(alloc, limits)?)
}

/// Whether some number is the greatest one.
fn is_saturated(numbers: &[u32]) -> bool
    ensures { IsFalse result → (i : ℕ) → i < length numbers.now
        → slice_index_or numbers.now i 0 < 2 ^ 32 - 1 }
{
    for number in numbers {
        if *number == u32::MAX {
            return true;
        }
    }
    false
}

/// Limits of 0 for all variables.
pub(crate) fn no_limits(alloc: Global, vars: &[Var]) -> Result<Vec<u32>, NoMemory>
    ensures { IfOk result (λ limits. AreLimits vars.now (λ _. 0) limits.items) }
{
    let mut limits = Vec::new(alloc);
    limits.resize(vars.len(), 0)?;
    Ok(limits)
}

/// Bounds of the exponents of a polynomial, each with its variable.
fn exponent_bounds(alloc: Global, p: &Shared) -> Result<Vec<(Var, u32)>, NoMemory>
    requires { AreParts p.now }
    ensures { IfOk result (λ bounds. AreBounds (told p.now) bounds.items) }
{
    let numbered = numbered_bounds(alloc, p)?;
    with_names(alloc, p, &numbered)
}

/// Bounds of the exponents of a polynomial, each with its variable, from those by number.
fn with_names(alloc: Global, p: &Shared, numbered: &[u32]) -> Result<Vec<(Var, u32)>, NoMemory>
    requires parts { AreParts p.now }
    requires whole { length numbered.now ≡ length p.now.vars.now }
    requires greatest { AreGreatest p.now.vars.now numbered.now (told p.now) }
    ensures { IfOk result (λ bounds. AreBounds (told p.now) bounds.items) }
{
    let mut bounds = Vec::with_capacity(alloc, p.vars.len())?;
    for i in 0..p.vars.len() {
        bounds.push((p.vars[i], numbered[i]))?;
    }
    Ok(bounds)
}

/// Bounds of the exponents of a polynomial, by the numbers of the variables.
fn numbered_bounds(alloc: Global, p: &Shared) -> Result<Vec<u32>, NoMemory>
    requires { AreParts p.now }
    ensures whole { IfOk result (λ numbers. length numbers.items ≡ length p.now.vars.now) }
    ensures greatest { IfOk result
        (λ numbers. AreGreatest p.now.vars.now numbers.items (told p.now)) }
{
    let mut numbers = Vec::new(alloc);
    set_bounds(alloc, &mut numbers, p)?;
    Ok(numbers)
}

/// Makes the numbers bounds of the exponents of a polynomial: the limits of its words, where there are no links, so
/// that no term is looked at.
fn set_bounds(alloc: Global, numbers: &mut Vec<u32>, p: &Shared) -> Result<(), NoMemory>
    requires { AreParts p.now }
    ensures whole { OnOk result (length numbers.new.items ≡ length p.now.vars.now) }
    ensures greatest { OnOk result (AreGreatest p.now.vars.now numbers.new.items (told p.now)) }
{
    let digits = p.monos.digits();
    if p.monos.links() > 0 || digits.count() != p.vars.len() {
        return set_exponents(numbers, p);
    }
    *numbers = digits.limits(alloc)?;
    Ok(())
}

/// The greatest exponents of a polynomial, by the numbers of the variables.
pub(crate) fn numbered_exponents(alloc: Global, p: &Shared) -> Result<Vec<u32>, NoMemory>
    requires { AreParts p.now }
    ensures whole { IfOk result (λ numbers. length numbers.items ≡ length p.now.vars.now) }
    ensures greatest { IfOk result
        (λ numbers. AreGreatest p.now.vars.now numbers.items (told p.now)) }
{
    let mut numbers = Vec::new(alloc);
    set_exponents(&mut numbers, p)?;
    Ok(numbers)
}

/// Makes the numbers the greatest exponents of a polynomial.
fn set_exponents(numbers: &mut Vec<u32>, p: &Shared) -> Result<(), NoMemory>
    requires { AreParts p.now }
    ensures whole { OnOk result (length numbers.new.items ≡ length p.now.vars.now) }
    ensures greatest { OnOk result (AreGreatest p.now.vars.now numbers.new.items (told p.now)) }
{
    numbers.clear();
    numbers.resize(p.vars.len(), 0)?;
    for (id, _) in p.list {
        raise_by(numbers, p, *id);
    }
    Ok(())
}

/// Makes the numbers of the variables of a monomial no less than its exponents.
fn raise_by(numbers: &mut Vec<u32>, p: &Shared, id: MonoId)
    requires rising { IsStrictlySortedBy var_cmp p.now.vars.now }
    requires index { IsIndexOf p.now id }
    requires monomial { IsMonomial (told_powers p.now id) }
    requires whole { length numbers.old.items ≡ length p.now.vars.now }
    ensures whole { length numbers.new.items ≡ length p.now.vars.now }
    ensures seen { IsBelow p.now.vars.now numbers.new.items (told_powers p.now id) }
    ensures kept { (i : ℕ)
        → slice_index_or numbers.old.items i 0 ≤ slice_index_or numbers.new.items i 0 }
{
    let mut rest = id;
    while let Some(first) = p.first_power(rest) {
        raise(numbers, first.number, first.exponent);
        rest = first.rest;
    }
}

/// Makes the number at a place no less than that.
pub(crate) fn raise(numbers: &mut Vec<u32>, place: u64, least: u32)
    ensures whole { length numbers.new.items ≡ length numbers.old.items }
    ensures place { place < length numbers.old.items
        → least ≤ slice_index_or numbers.new.items place 0 }
    ensures kept { (i : ℕ)
        → slice_index_or numbers.old.items i 0 ≤ slice_index_or numbers.new.items i 0 }
{
    if place < numbers.len() as u64 && numbers[place as usize] < least {
        numbers[place as usize] = least;
    }
}

/// Adds the exponents of the variables with no row to the limits.
fn add_others(limits: &mut Vec<u32>, vars: &[Var], rows: &RowTable, exponents: &[(Var, u32)])
    requires rising { IsStrictlySortedBy var_cmp vars.now }
    ensures { (bound : Var → ℕ) → AreLimits vars.now bound limits.old.items
        → AreLimits vars.now (λ v. bound v + exponent v (others rows.now exponents.now) * 1) limits.new.items }
{
    let mut guess = 0;
    for i in 0..exponents.len() {
        let power = exponents[i];
        match rows.find_row(power.0, i as u64) {
            Some(_) => {}
            None => guess = add_exponent(limits, vars, power, 1, guess),
        }
    }
}

/// Adds bounds of the exponents of a polynomial, which are given by the numbers of its variables, to the limits, each
/// so many times.
fn add_numbered(limits: &mut Vec<u32>, vars: &[Var], p: &Shared, numbers: &[u32], times: u32)
    requires rising { IsStrictlySortedBy var_cmp vars.now }
    requires parts { AreParts p.now }
    requires whole { length numbers.now ≡ length p.now.vars.now }
    requires greatest { AreGreatest p.now.vars.now numbers.now (told p.now) }
    ensures { (bound : Var → ℕ) → AreLimits vars.now bound limits.old.items
        → AreLimits vars.now (λ v. bound v + greatest_exponent v (told p.now) * times) limits.new.items }
{
    let mut guess = 0;
    for i in 0..p.vars.len() {
        guess = add_exponent(limits, vars, (p.vars[i], numbers[i]), times, guess);
    }
}

/// Adds an exponent to the limit of its variable, so many times, and answers where the next variable
/// may stand.
pub(crate) fn add_exponent(
    limits: &mut Vec<u32>,
    vars: &[Var],
    power: (Var, u32),
    times: u32,
    guess: u64,
) -> u64
    requires rising { IsStrictlySortedBy var_cmp vars.now }
    ensures { (bound : Var → ℕ) → AreLimits vars.now bound limits.old.items
        → AreLimits vars.now (λ v. bound v + exponent v (power ∷ []) * times) limits.new.items }
{
    match find_place(vars, power.0, guess) {
        Some(place) => {
            add_at(limits, place, power.1.saturating_mul(times));
            place.saturating_add(1)
        }
        None => guess,
    }
}

/// Adds to the number at a place, up to the greatest number.
pub(crate) fn add_at(numbers: &mut Vec<u32>, place: u64, more: u32)
    ensures whole { length numbers.new.items ≡ length numbers.old.items }
    ensures place { place < length numbers.old.items → slice_index_or numbers.new.items place 0
        ≡ min (slice_index_or numbers.old.items place 0 + more) (2 ^ 32 - 1) }
    ensures others { (i : ℕ) → i ≢ place
        → slice_index_or numbers.new.items i 0 ≡ slice_index_or numbers.old.items i 0 }
{
    if place < numbers.len() as u64 {
        let number = &mut numbers[place as usize];
        *number = number.saturating_add(more);
    }
}

/// Adds the greatest exponents of a polynomial to the limits, each so many times.
pub(crate) fn add_polynomial(
    alloc: Global,
    limits: &mut Vec<u32>,
    vars: &[Var],
    p: &Shared,
    times: u32,
) -> Result<(), NoMemory>
    requires rising { IsStrictlySortedBy var_cmp vars.now }
    requires parts { AreParts p.now }
    ensures { OnOk result ((bound : Var → ℕ) → AreLimits vars.now bound limits.old.items
        → AreLimits vars.now (λ v. bound v + greatest_exponent v (told p.now) * times) limits.new.items) }
{
    let numbers = numbered_exponents(alloc, p)?;
    add_numbered(limits, vars, p, &numbers, times);
    Ok(())
}

/// Adds bounds of the exponents of a polynomial to the limits, each so many times. The bounds stand in a list that is
/// handed along.
fn add_bounds(
    alloc: Global,
    limits: &mut Vec<u32>,
    vars: &[Var],
    p: &Shared,
    times: u32,
    numbers: &mut Vec<u32>,
) -> Result<(), NoMemory>
    requires rising { IsStrictlySortedBy var_cmp vars.now }
    requires parts { AreParts p.now }
    ensures { OnOk result ((bound : Var → ℕ) → AreLimits vars.now bound limits.old.items
        → AreLimits vars.now (λ v. bound v + greatest_exponent v (told p.now) * times) limits.new.items) }
{
    set_bounds(alloc, numbers, p)?;
    add_numbered(limits, vars, p, numbers.as_slice(), times);
    Ok(())
}

/// Adds bounds of the exponents of the numerators to the limits, each as often as the exponent of its
/// row's variable says.
fn add_rows(
    alloc: Global,
    limits: &mut Vec<u32>,
    vars: &[Var],
    rows: &[Row],
    own: &[(Var, u32)],
    numbers: &mut Vec<u32>,
) -> Result<(), NoMemory>
    requires rising { IsStrictlySortedBy var_cmp vars.now }
    ensures { OnOk result ((bound : Var → ℕ) → AreLimits vars.now bound limits.old.items
        → AreLimits vars.now (λ v. bound v + exponents_of_rows v rows.now own.now) limits.new.items) }
{
    for row in rows {
        let times = exponent_in(own, row.var);
        add_bounds(
            alloc,
            limits,
            vars,
            &row.num.poly.shared(),
            times.max(1),
            numbers,
        )?;
    }
    Ok(())
}

/// The exponent of a variable, or the greatest number where it passes that.
fn exponent_in(exponents: &[(Var, u32)], v: Var) -> u32
    ensures { result ≡ min (exponent v exponents.now) (2 ^ 32 - 1) }
{
    let mut total = 0u32;
    for (w, exponent) in exponents {
        if *w == v {
            total = total.saturating_add(*exponent);
        }
    }
    total
}
