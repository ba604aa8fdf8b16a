//! The test of given values.

ghost use Rattle.std.specs.Prelude.{◌≡◌, ◌≢◌, ◌⊎◌, ◌↔◌, ◌+◌, ◌^◌, ◌<◌, ◌≤◌, [], ◌∷◌, length, sum_by};
ghost use Rattle.std.specs.Prelude.{All, Any, IfOk, IfErr, IsErrOf, IsTrue, OnErr, OnOk};
ghost use Rattle.geo_poly.specs.Specialise.{NoneZero, specialised_weight};
ghost use Rattle.geo_sample.specs.Tries.{AreMade, EndIn, all_specialised, single_tries};
ghost use Rattle.geo_sample.specs.Samples.{specialised_by};

use crate::charges::{affordable, affordable_at_first};
use crate::errors::SampleError;
use crate::lists::{are_specialisations, are_valid, none_left_zero, none_zero, specialisations};
use crate::numbers::put_other;
use crate::specialisations::Specialisation;
use crate::zeros::put_zero;
use geo_base::Budget;
use geo_poly::lists::{Polys, Values};
use geo_poly::{Poly, Ticks, Var, Which};
use std::alloc::Global;
use std::sync::ledger::Ledger;

/// Whether none of the polynomials is zero at the values, which are put in one after another: one
/// try for each value, also after a polynomial has become zero. Each monomial into which a value is
/// put ticks.
pub fn values_hold<L: Ledger>(
    alloc: Global,
    polys: &Polys,
    values: &Values,
    budget: &mut Budget,
    ticks: &mut Ticks<L>,
) -> Result<bool, SampleError>
    ensures hold { IfOk result (λ b. IsTrue b ↔ NoneZero (specialised_by values.now polys.now)) }
    ensures made { IfOk result
        (λ b. AreMade budget.old.left (single_tries values.now polys.now) budget.new.left) }
    ensures stopped { IfErr result
        (λ e. EndIn e budget.old.left (single_tries values.now polys.now) budget.new.left) }
    ensures ticks { ticks.new ≤ ticks.old + budget.old.left }
    ensures counted { OnOk result
        (ticks.new + budget.new.left ≤ ticks.old + budget.old.left) }
    ensures unworked { (e : SampleError) → IsErrOf result e → e ≢ SampleError.NoMemory
        → ticks.new + budget.new.left ≤ ticks.old + budget.old.left }
{
    numbers_hold(alloc, &polys.items, &values.items, budget, ticks)
}

/// The same of lists.
fn numbers_hold<L: Ledger>(
    alloc: Global,
    polys: &[Poly],
    values: &[(Var, i128)],
    budget: &mut Budget,
    ticks: &mut Ticks<L>,
) -> Result<bool, SampleError>
    ensures hold { IfOk result (λ b. IsTrue b ↔ NoneZero (specialised_by values.now polys.now)) }
    ensures made { IfOk result
        (λ b. AreMade budget.old.left (single_tries values.now polys.now) budget.new.left) }
    ensures stopped { IfErr result
        (λ e. EndIn e budget.old.left (single_tries values.now polys.now) budget.new.left) }
    ensures ticks { ticks.new ≤ ticks.old + budget.old.left }
    ensures counted { OnOk result
        (ticks.new + budget.new.left ≤ ticks.old + budget.old.left) }
    ensures unworked { (e : SampleError) → IsErrOf result e → e ≢ SampleError.NoMemory
        → ticks.new + budget.new.left ≤ ticks.old + budget.old.left }
{
    prove!(are_valid(polys));
    if values.is_empty() {
        return Ok(none_zero(polys));
    }
    affordable_at_first(polys, budget)?;
    let mut current = specialisations(alloc, polys, budget)?;
    for value in values {
        put_value(alloc, &mut current, value, budget, ticks)?;
    }
    Ok(none_left_zero(&current))
}

/// A try of a value, which is put in also where a polynomial becomes zero.
fn put_value<L: Ledger>(
    alloc: Global,
    polys: &mut Vec<Specialisation>,
    value: &(Var, i128),
    budget: &mut Budget,
    ticks: &mut Ticks<L>,
) -> Result<(), SampleError>
    ensures put { IfOk result
        (λ u. polys.new.items ≡ all_specialised value.now.0 value.now.1 polys.old.items) }
    ensures made { IfOk result (λ u. AreMade budget.old.left
        (record { variable = value.now.0; number = value.now.1; polys = polys.old.items } ∷ [])
        budget.new.left) }
    ensures stopped { IfErr result (λ e. EndIn e budget.old.left
        (record { variable = value.now.0; number = value.now.1; polys = polys.old.items } ∷ [])
        budget.new.left) }
    ensures ticks { ticks.new ≤ ticks.old + sum_by length polys.old.items }
    ensures afforded { ticks.new ≤ ticks.old + budget.old.left }
    ensures counted { OnOk result
        (ticks.new + budget.new.left ≤ ticks.old + budget.old.left) }
    ensures unworked { (e : SampleError) → IsErrOf result e → e ≢ SampleError.NoMemory
        → ticks.new ≡ ticks.old }
    ensures unpaid { OnErr result (budget.new ≡ budget.old) }
{
    let charge = affordable(polys, budget)?;
    put_number(alloc, polys, value.0, value.1, budget, ticks)?;
    budget.left -= charge;
    Ok(())
}

/// Puts the number for the variable.
fn put_number<L: Ledger>(
    alloc: Global,
    polys: &mut Vec<Specialisation>,
    v: Var,
    number: i128,
    budget: &Budget,
    ticks: &mut Ticks<L>,
) -> Result<(), SampleError>
    requires paid { sum_by length polys.old.items ≤ budget.now.left }
    ensures put { IfOk result (λ u. polys.new.items ≡ all_specialised v number polys.old.items) }
    ensures fit { IfOk result
        (λ u. All (λ p. specialised_weight v number p < 2 ^ 127) polys.old.items) }
    ensures stopped { IfErr result (λ e. (e ≡ SampleError.NoMemory)
        ⊎ ((e ≡ SampleError.TooLarge Which.Norm)
        × Any (λ p. 2 ^ 127 ≤ specialised_weight v number p) polys.old.items)) }
    ensures ticks { ticks.new ≤ ticks.old + sum_by length polys.old.items }
    ensures unworked { (e : SampleError) → IsErrOf result e → e ≢ SampleError.NoMemory
        → ticks.new ≡ ticks.old }
{
    prove!(are_specialisations(polys));
    if number == 0 {
        put_zero(polys, v, budget, ticks);
        return Ok(());
    }
    put_other(alloc, polys, v, number, budget, ticks)
}
