//! Limits of the exponents of a replacement, term by term: they pass what occurs only where terms
//! cancel.

ghost use Rattle.std.specs.Prelude.{◌≡◌, ◌≢◌, ◌+◌, ◌-◌, ◌*◌, ◌^◌, ◌<◌, ◌≤◌, ◌∷◌, [], max, min};
ghost use Rattle.std.specs.Prelude.{IfOk, List, Some, length, slice_get, slice_index_or, ℕ, ℤ};
ghost use Rattle.std.specs.List.Sorted.{IsStrictlySortedBy};
ghost use Rattle.geo_poly.specs.declared.rows.Piece.{Piece};
ghost use Rattle.geo_poly.specs.declared.rows.Row.{Row};
ghost use Rattle.geo_poly.specs.declared.variables.Var.{Var};
ghost use Rattle.geo_poly.specs.Inner.Keyed.{greatest_exponent, greatest_of_rows};
ghost use Rattle.geo_poly.specs.Inner.Limits.{AreLimits, AreLimitsOfRows, exponent_anywhere};
ghost use Rattle.geo_poly.specs.Inner.ReplacedExponents.{exponent_bound, exponent_in_row};
ghost use Rattle.geo_poly.specs.Inner.ReplacedExponents.{exponent_in_rows, term_exponent};
ghost use Rattle.geo_poly.specs.Inner.Roles.{AreRoles, IsRole};
ghost use Rattle.geo_poly.specs.Monomials.{exponent};
ghost use Rattle.geo_poly.specs.Replace.{denominators, most_denominators};
ghost use Rattle.geo_poly.specs.Replace.{others, power_in, row_of};
ghost use Rattle.geo_poly.specs.Shared.{AreParts, IsIndexOf, told, told_powers};
ghost use Rattle.geo_poly.specs.Variables.{var_cmp};

use crate::exponent_limits::{add_polynomial, no_limits};
use crate::roles::{Role, role_at, roles_of};
use crate::row_table::RowTable;
use crate::rows::{Piece, Row};
use crate::shared::Shared;
use crate::variables::Var;
use geo_points::NoMemory;
use mono_store::MonoId;
use std::alloc::Global;

/// Limits of the exponents of a polynomial, by the places of the variables.
pub(crate) struct ExponentLimits {
    /// One for each variable.
    pub items: Vec<u32>,
}

/// By hand, so that a caller's proof sees one call where they are let go.
impl Drop for ExponentLimits {
    fn drop(self) {
        let ExponentLimits { items: _ } = self;
    }
}

/// Limits of the exponents that the pieces and the replacement have.
pub(crate) fn limits_by_terms(
    alloc: Global,
    vars: &[Var],
    p: &Shared,
    rows: &RowTable,
    den: &Piece,
    top: u32,
) -> Result<Vec<u32>, NoMemory>
    requires rising { IsStrictlySortedBy var_cmp vars.now }
    requires parts { AreParts p.now }
    requires top { most_denominators rows.now (told p.now) ≤ top }
    ensures { IfOk result (λ limits. AreLimits vars.now
        (λ v. exponent_anywhere v rows.now den.now top (told p.now)) limits.items) }
{
    let of_den = limits_of(alloc, vars, &den.poly.shared())?;
    let nums = limits_of_rows(alloc, vars, rows.rows())?;
    let roles = roles_of(alloc, rows, p.vars, vars)?;
    let mut sum = no_limits(alloc, vars)?;
    let mut limits = Vec::from_slice(alloc, &of_den)?;
    raise_by_terms(
        &mut limits,
        &mut sum,
        vars,
        p,
        rows,
        top,
        &of_den,
        &nums,
        &roles,
    );
    Ok(limits)
}

/// Limits of the exponents of a polynomial.
fn limits_of(alloc: Global, vars: &[Var], p: &Shared) -> Result<Vec<u32>, NoMemory>
    requires rising { IsStrictlySortedBy var_cmp vars.now }
    requires parts { AreParts p.now }
    ensures { IfOk result
        (λ limits. AreLimits vars.now (λ v. greatest_exponent v (told p.now)) limits.items) }
{
    let mut limits = no_limits(alloc, vars)?;
    add_polynomial(alloc, &mut limits, vars, p, 1)?;
    Ok(limits)
}

/// Limits of the exponents of each numerator.
fn limits_of_rows(
    alloc: Global,
    vars: &[Var],
    rows: &[Row],
) -> Result<Vec<ExponentLimits>, NoMemory>
    requires { IsStrictlySortedBy var_cmp vars.now }
    ensures { IfOk result (λ nums. AreLimitsOfRows vars.now rows.now nums.items) }
{
    let mut nums = Vec::with_capacity(alloc, rows.len())?;
    for row in rows {
        let items = limits_of(alloc, vars, &row.num.poly.shared())?;
        nums.push(ExponentLimits { items })?;
    }
    Ok(nums)
}

/// Makes the limits no less than those of the numerators.
fn raise_by_rows(limits: &mut [u32], nums: &[ExponentLimits])
    ensures whole { length limits.new ≡ length limits.old }
    ensures limits { (vars : List Var) (rows : List Row) (bound : Var → ℕ)
        → AreLimitsOfRows vars rows nums.now → AreLimits vars bound limits.old
        → AreLimits vars (λ v. max (greatest_of_rows v rows) (bound v)) limits.new }
{
    for num in nums {
        raise_all(limits, &num.items);
    }
}

/// Makes the limits no less than those of the numerators, and those of what becomes of the terms, each
/// of which is summed up in `sum`.
fn raise_by_terms(
    limits: &mut [u32],
    sum: &mut [u32],
    vars: &[Var],
    p: &Shared,
    rows: &RowTable,
    top: u32,
    of_den: &[u32],
    nums: &[ExponentLimits],
    roles: &[Role],
)
    requires rising { IsStrictlySortedBy var_cmp vars.now }
    requires parts { AreParts p.now }
    requires top { most_denominators rows.now (told p.now) ≤ top }
    requires nums { AreLimitsOfRows vars.now rows.now nums.now }
    requires roles { AreRoles rows.now vars.now p.now.vars.now roles.now }
    requires whole { length sum.old ≡ length vars.now }
    ensures whole { length limits.new ≡ length limits.old }
    ensures limits { (den : Piece) (bound : Var → ℕ)
        → AreLimits vars.now (λ v. greatest_exponent v den.poly) of_den.now
        → AreLimits vars.now bound limits.old
        → AreLimits vars.now (λ v. max (exponent_bound v rows.now den top (told p.now))
        (max (greatest_of_rows v rows.now) (bound v))) limits.new }
{
    raise_by_rows(limits, nums);
    for (id, _) in p.list {
        sum_up_term(sum, vars, p, *id, rows, top, of_den, nums, roles);
        raise_all(limits, sum);
    }
}

/// Makes of `sum` limits of the exponents of what becomes of a term.
fn sum_up_term(
    sum: &mut [u32],
    vars: &[Var],
    p: &Shared,
    id: MonoId,
    rows: &RowTable,
    top: u32,
    of_den: &[u32],
    nums: &[ExponentLimits],
    roles: &[Role],
)
    requires rising { IsStrictlySortedBy var_cmp vars.now }
    requires index { IsIndexOf p.now id }
    requires top { denominators rows.now (told_powers p.now id) ≤ top }
    requires nums { AreLimitsOfRows vars.now rows.now nums.now }
    requires roles { AreRoles rows.now vars.now p.now.vars.now roles.now }
    requires whole { length sum.old ≡ length vars.now }
    ensures whole { length sum.new ≡ length vars.now }
    ensures limits { (den : Piece) (k : ℤ)
        → AreLimits vars.now (λ v. greatest_exponent v den.poly) of_den.now
        → AreLimits vars.now
        (λ v. term_exponent v rows.now den top (told_powers p.now id, k)) sum.new }
{
    clear(sum);
    let lacking = add_powers(sum, vars, p, id, rows, top, nums, roles);
    add_times(sum, of_den, lacking);
}

/// Adds what becomes of the powers of a monomial to the limits, and answers how many of so many
/// denominators it lacks.
fn add_powers(
    limits: &mut [u32],
    vars: &[Var],
    p: &Shared,
    id: MonoId,
    rows: &RowTable,
    top: u32,
    nums: &[ExponentLimits],
    roles: &[Role],
) -> u32
    requires rising { IsStrictlySortedBy var_cmp vars.now }
    requires index { IsIndexOf p.now id }
    requires top { denominators rows.now (told_powers p.now id) ≤ top }
    requires nums { AreLimitsOfRows vars.now rows.now nums.now }
    requires roles { AreRoles rows.now vars.now p.now.vars.now roles.now }
    requires whole { length limits.old ≡ length vars.now }
    ensures whole { length limits.new ≡ length vars.now }
    ensures limits { (bound : Var → ℕ) → AreLimits vars.now bound limits.old
        → AreLimits vars.now (λ v. exponent_in_rows v rows.now (told_powers p.now id)
        (bound v + exponent v (others rows.now (told_powers p.now id)))) limits.new }
    ensures lacking { result ≡ top - denominators rows.now (told_powers p.now id) }
{
    let mut missing = top;
    let mut rest = id;
    while let Some(first) = p.first_power(rest) {
        let role = role_at(roles, first.number);
        let called = add_power(limits, vars, rows, first.var, first.exponent, role, nums);
        missing -= called;
        rest = first.rest;
    }
    missing
}

/// Adds what becomes of a power to the limits, and answers how many denominators it calls for.
fn add_power(
    limits: &mut [u32],
    vars: &[Var],
    rows: &RowTable,
    v: Var,
    times: u32,
    role: Role,
    nums: &[ExponentLimits],
) -> u32
    requires rising { IsStrictlySortedBy var_cmp vars.now }
    requires nums { AreLimitsOfRows vars.now rows.now nums.now }
    requires role { IsRole rows.now vars.now v role }
    requires few { power_in (row_of rows.now v) * times < 2 ^ 32 }
    requires whole { length limits.old ≡ length vars.now }
    ensures whole { length limits.new ≡ length vars.now }
    ensures limits { (bound : Var → ℕ) → AreLimits vars.now bound limits.old
        → AreLimits vars.now (λ w. exponent_in_row w (row_of rows.now v) times
        (bound w + exponent w (others rows.now ((v, times) ∷ [])))) limits.new }
    ensures denominators { result ≡ power_in (row_of rows.now v) * times }
{
    match role {
        Role::Replaced(i) => {
            add_times(limits, &limits_at(nums, i).items, times);
            rows.row(i).power * times
        }
        Role::Kept(place) => {
            add_at(limits, place as usize, times);
            0
        }
        Role::Absent => 0,
    }
}

/// The limits at a place.
fn limits_at(nums: &[ExponentLimits], i: usize) -> &ExponentLimits
    requires { i < length nums.now }
    ensures { slice_get nums.now i ≡ Some result.now }
{
    &nums[i]
}

/// Makes all numbers 0.
fn clear(numbers: &mut [u32])
    ensures { length numbers.new ≡ length numbers.old }
{
    for i in 0..numbers.len() {
        numbers[i] = 0;
    }
}

/// Adds other limits, so many times.
fn add_times(limits: &mut [u32], others: &[u32], times: u32)
    ensures whole { length limits.new ≡ length limits.old }
    ensures limits { (vars : List Var) (bound more : Var → ℕ) → AreLimits vars bound limits.old
        → AreLimits vars more others.now
        → AreLimits vars (λ v. bound v + more v * times) limits.new }
{
    if times == 0 {
        return;
    }
    if times == 1 {
        return add_all(limits, others);
    }
    add_multiples(limits, others, times);
}

/// Adds other limits.
fn add_all(limits: &mut [u32], others: &[u32])
    ensures whole { length limits.new ≡ length limits.old }
    ensures limits { (vars : List Var) (bound more : Var → ℕ) → AreLimits vars bound limits.old
        → AreLimits vars more others.now
        → AreLimits vars (λ v. bound v + more v * 1) limits.new }
{
    let count = limits.len().min(others.len());
    for i in 0..count {
        add_at(limits, i, others[i]);
    }
}

/// Adds other limits, so many times.
fn add_multiples(limits: &mut [u32], others: &[u32], times: u32)
    ensures whole { length limits.new ≡ length limits.old }
    ensures limits { (vars : List Var) (bound more : Var → ℕ) → AreLimits vars bound limits.old
        → AreLimits vars more others.now
        → AreLimits vars (λ v. bound v + more v * times) limits.new }
{
    let count = limits.len().min(others.len());
    for i in 0..count {
        add_at(limits, i, others[i].saturating_mul(times));
    }
}

/// Adds to the number at a place, up to the greatest number.
fn add_at(numbers: &mut [u32], place: usize, more: u32)
    requires { place < length numbers.old }
    ensures whole { length numbers.new ≡ length numbers.old }
    ensures place { slice_index_or numbers.new place 0
        ≡ min (slice_index_or numbers.old place 0 + more) (2 ^ 32 - 1) }
    ensures others { (i : ℕ) → i ≢ place
        → slice_index_or numbers.new i 0 ≡ slice_index_or numbers.old i 0 }
{
    numbers[place] = numbers[place].saturating_add(more);
}

/// Makes the limits no less than others.
fn raise_all(limits: &mut [u32], others: &[u32])
    ensures whole { length limits.new ≡ length limits.old }
    ensures limits { (vars : List Var) (bound more : Var → ℕ) → AreLimits vars bound limits.old
        → AreLimits vars more others.now
        → AreLimits vars (λ v. max (more v) (bound v)) limits.new }
{
    let count = limits.len().min(others.len());
    for i in 0..count {
        raise_at(limits, i, others[i]);
    }
}

/// Makes the number at a place no less than that.
fn raise_at(numbers: &mut [u32], place: usize, least: u32)
    requires { place < length numbers.old }
    ensures whole { length numbers.new ≡ length numbers.old }
    ensures place { least ≤ slice_index_or numbers.new place 0 }
    ensures kept { (i : ℕ)
        → slice_index_or numbers.old i 0 ≤ slice_index_or numbers.new i 0 }
{
    numbers[place] = numbers[place].max(least);
}
