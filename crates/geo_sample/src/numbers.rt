//! What polynomials become with a number other than 0.

ghost use Rattle.std.specs.Prelude.{◌≡◌, ◌≢◌, ◌⊎◌, ◌↔◌, ◌+◌, ◌^◌, ◌<◌, ◌≤◌, length, sum_by};
ghost use Rattle.std.specs.Prelude.{true, false, unsigned_abs, All, Any, IfOk, IfErr, IsErrOf};
ghost use Rattle.std.specs.Prelude.{IsTrue};
ghost use Rattle.geo_poly.specs.Specialise.{NoneZero, specialised_weight};
ghost use Rattle.geo_sample.specs.Tries.{all_specialised};

use crate::errors::SampleError;
use crate::lists::are_specialisations;
use crate::putting::{nonzero_changes, put_changes};
use crate::specialisations::Specialisation;
use geo_base::Budget;
use geo_points::NoMemory;
use geo_poly::{Ticks, Var, Which};
use std::alloc::Global;
use std::sync::ledger::Ledger;

/// Puts the number for the variable where none of the polynomials is zero then, and answers whether
/// it did. The budget has the charge.
pub fn keep_other<L: Ledger>(
    alloc: Global,
    polys: &mut Vec<Specialisation>,
    v: Var,
    number: i128,
    budget: &Budget,
    ticks: &mut Ticks<L>,
) -> Result<bool, SampleError>
    requires nonzero { NoneZero polys.old.items }
    requires number { unsigned_abs number ≢ 0 }
    requires paid { sum_by length polys.old.items ≤ budget.now.left }
    ensures keeps { IfOk result
        (λ b. IsTrue b ↔ NoneZero (all_specialised v number polys.old.items)) }
    ensures put { IfOk result
        (λ b. b ≡ true → polys.new.items ≡ all_specialised v number polys.old.items) }
    ensures kept { IfOk result (λ b. b ≡ false → polys.new.items ≡ polys.old.items) }
    ensures fit { IfOk result
        (λ b. All (λ p. specialised_weight v number p < 2 ^ 127) polys.old.items) }
    ensures stopped { IfErr result (λ e. (e ≡ SampleError.NoMemory)
        ⊎ ((e ≡ SampleError.TooLarge Which.Norm)
        × Any (λ p. 2 ^ 127 ≤ specialised_weight v number p) polys.old.items)) }
    ensures ticks { ticks.new ≤ ticks.old + sum_by length polys.old.items }
    ensures unworked { (e : SampleError) → IsErrOf result e → e ≢ SampleError.NoMemory
        → ticks.new ≡ ticks.old }
{
    let _ = budget;
    test_weights(polys, v, number)?;
    match nonzero_changes(alloc, polys, v, number, ticks)? {
        Some(changes) => {
            put_changes(alloc, polys, changes, v, number, ticks)?;
            Ok(true)
        }
        None => Ok(false),
    }
}

/// Puts the number for the variable. The budget has the charge.
pub fn put_other<L: Ledger>(
    alloc: Global,
    polys: &mut Vec<Specialisation>,
    v: Var,
    number: i128,
    budget: &Budget,
    ticks: &mut Ticks<L>,
) -> Result<(), SampleError>
    requires paid { sum_by length polys.old.items ≤ budget.now.left }
    ensures put { IfOk result (λ u. polys.new.items ≡ all_specialised v number polys.old.items) }
    ensures fit { IfOk result
        (λ u. All (λ p. specialised_weight v number p < 2 ^ 127) polys.old.items) }
    ensures stopped { IfErr result (λ e. (e ≡ SampleError.NoMemory)
        ⊎ ((e ≡ SampleError.TooLarge Which.Norm)
        × Any (λ p. 2 ^ 127 ≤ specialised_weight v number p) polys.old.items)) }
    ensures ticks { ticks.new ≤ ticks.old + sum_by length polys.old.items }
    ensures unworked { (e : SampleError) → IsErrOf result e → e ≢ SampleError.NoMemory
        → ticks.new ≡ ticks.old }
{
    let _ = budget;
    test_weights(polys, v, number)?;
    put_each(alloc, polys, v, number, ticks)?;
    Ok(())
}

/// Refuses the number where the weight of a polynomial passes the bound of a norm. With 1 and -1 none does.
fn test_weights(polys: &[Specialisation], v: Var, number: i128) -> Result<(), SampleError>
    ensures fit { IfOk result (λ u. All (λ p. specialised_weight v number p < 2 ^ 127) polys.now) }
    ensures stopped { IfErr result (λ e. (e ≡ SampleError.TooLarge Which.Norm)
        × Any (λ p. 2 ^ 127 ≤ specialised_weight v number p) polys.now) }
{
    prove!(are_specialisations(polys));
    if number.unsigned_abs() <= 1 {
        return Ok(());
    }
    for poly in polys {
        if poly.is_too_heavy(v, number) {
            return Err(SampleError::TooLarge(Which::Norm));
        }
    }
    Ok(())
}

/// Puts the number for the variable of each.
fn put_each<L: Ledger>(
    alloc: Global,
    polys: &mut Vec<Specialisation>,
    v: Var,
    number: i128,
    ticks: &mut Ticks<L>,
) -> Result<(), NoMemory>
    requires { All (λ p. specialised_weight v number p < 2 ^ 127) polys.old.items }
    ensures put { IfOk result (λ u. polys.new.items ≡ all_specialised v number polys.old.items) }
    ensures ticks { ticks.new ≤ ticks.old + sum_by length polys.old.items }
{
    for place in 0..polys.len() {
        polys[place].put_number(alloc, v, number, ticks)?;
    }
    Ok(())
}
