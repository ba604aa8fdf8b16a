//! One try: a number put for a variable of all polynomials, for a charge. What works takes the budget
//! and requires that it has the charge, so no work is done before it can be paid.

ghost use Rattle.std.specs.Prelude.{pos, ◌≡◌, ◌≢◌, ◌⊎◌, ◌↔◌, ◌+◌, ◌^◌, ◌<◌, ◌≤◌, [], ◌∷◌, length};
ghost use Rattle.std.specs.Prelude.{true, false, sum_by, All, Any, IfOk, IfErr, IsErrOf, IsTrue};
ghost use Rattle.std.specs.Prelude.{OnErr, OnOk};
ghost use Rattle.geo_poly.specs.Specialise.{NoneZero, specialised_weight};
ghost use Rattle.geo_sample.specs.Tries.{AreMade, EndIn, all_specialised};

use crate::charges::affordable;
use crate::errors::SampleError;
use crate::lists::are_specialisations;
use crate::numbers::keep_other;
use crate::specialisations::Specialisation;
use crate::zeros::keep_zero;
use geo_base::Budget;
use geo_poly::{Ticks, Var, Which};
use std::alloc::Global;
use std::sync::ledger::Ledger;

/// A try, for as many charges as the polynomials have monomials: whether none of them is zero with
/// the number for the variable. Then it is put in; else the polynomials are what they were. Each
/// monomial into which the number is put ticks.
pub fn try_number<L: Ledger>(
    alloc: Global,
    polys: &mut Vec<Specialisation>,
    v: Var,
    number: i128,
    budget: &mut Budget,
    ticks: &mut Ticks<L>,
) -> Result<bool, SampleError>
    requires { NoneZero polys.old.items }
    ensures keeps { IfOk result
        (λ b. IsTrue b ↔ NoneZero (all_specialised v number polys.old.items)) }
    ensures put { IfOk result
        (λ b. b ≡ true → polys.new.items ≡ all_specialised v number polys.old.items) }
    ensures kept { IfOk result (λ b. b ≡ false → polys.new.items ≡ polys.old.items) }
    ensures made { IfOk result (λ b. AreMade budget.old.left
        (record { variable = v; number = number; polys = polys.old.items } ∷ [])
        budget.new.left) }
    ensures stopped { IfErr result (λ e. EndIn e budget.old.left
        (record { variable = v; number = number; polys = polys.old.items } ∷ [])
        budget.new.left) }
    ensures ticks { ticks.new ≤ ticks.old + sum_by length polys.old.items }
    ensures afforded { ticks.new ≤ ticks.old + budget.old.left }
    ensures counted { OnOk result
        (ticks.new + budget.new.left ≤ ticks.old + budget.old.left) }
    ensures unworked { (e : SampleError) → IsErrOf result e → e ≢ SampleError.NoMemory
        → ticks.new ≡ ticks.old }
    ensures unpaid { OnErr result (budget.new ≡ budget.old) }
{
    let charge = affordable(polys, budget)?;
    let keeps = keep_number(alloc, polys, v, number, budget, ticks)?;
    budget.left -= charge;
    Ok(keeps)
}

/// A try of a natural number.
pub fn try_natural<L: Ledger>(
    alloc: Global,
    polys: &mut Vec<Specialisation>,
    v: Var,
    k: u128,
    budget: &mut Budget,
    ticks: &mut Ticks<L>,
) -> Result<bool, SampleError>
    requires nonzero { NoneZero polys.old.items }
    requires fits { k < 2 ^ 127 }
    ensures keeps { IfOk result
        (λ b. IsTrue b ↔ NoneZero (all_specialised v (pos k) polys.old.items)) }
    ensures put { IfOk result
        (λ b. b ≡ true → polys.new.items ≡ all_specialised v (pos k) polys.old.items) }
    ensures kept { IfOk result (λ b. b ≡ false → polys.new.items ≡ polys.old.items) }
    ensures made { IfOk result (λ b. AreMade budget.old.left
        (record { variable = v; number = pos k; polys = polys.old.items } ∷ [])
        budget.new.left) }
    ensures stopped { IfErr result (λ e. EndIn e budget.old.left
        (record { variable = v; number = pos k; polys = polys.old.items } ∷ [])
        budget.new.left) }
    ensures ticks { ticks.new ≤ ticks.old + sum_by length polys.old.items }
    ensures afforded { ticks.new ≤ ticks.old + budget.old.left }
    ensures counted { OnOk result
        (ticks.new + budget.new.left ≤ ticks.old + budget.old.left) }
    ensures unworked { (e : SampleError) → IsErrOf result e → e ≢ SampleError.NoMemory
        → ticks.new ≡ ticks.old }
    ensures unpaid { OnErr result (budget.new ≡ budget.old) }
{
    try_number(alloc, polys, v, k as i128, budget, ticks)
}

/// Puts the number for the variable where none of the polynomials is zero then, and answers whether
/// it did.
fn keep_number<L: Ledger>(
    alloc: Global,
    polys: &mut Vec<Specialisation>,
    v: Var,
    number: i128,
    budget: &Budget,
    ticks: &mut Ticks<L>,
) -> Result<bool, SampleError>
    requires nonzero { NoneZero polys.old.items }
    requires paid { sum_by length polys.old.items ≤ budget.now.left }
    ensures keeps { IfOk result
        (λ b. IsTrue b ↔ NoneZero (all_specialised v number polys.old.items)) }
    ensures put { IfOk result
        (λ b. b ≡ true → polys.new.items ≡ all_specialised v number polys.old.items) }
    ensures kept { IfOk result (λ b. b ≡ false → polys.new.items ≡ polys.old.items) }
    ensures fit { IfOk result
        (λ b. All (λ p. specialised_weight v number p < 2 ^ 127) polys.old.items) }
    ensures stopped { IfErr result (λ e. (e ≡ SampleError.NoMemory)
        ⊎ ((e ≡ SampleError.TooLarge Which.Norm)
        × Any (λ p. 2 ^ 127 ≤ specialised_weight v number p) polys.old.items)) }
    ensures ticks { ticks.new ≤ ticks.old + sum_by length polys.old.items }
    ensures unworked { (e : SampleError) → IsErrOf result e → e ≢ SampleError.NoMemory
        → ticks.new ≡ ticks.old }
{
    prove!(are_specialisations(polys));
    if number == 0 {
        return Ok(keep_zero(polys, v, budget, ticks));
    }
    keep_other(alloc, polys, v, number, budget, ticks)
}
