//! The search for the least sample.

ghost use Rattle.std.specs.Prelude.{◌≡◌, ◌≢◌, ◌+◌, ◌*◌, ◌^◌, ◌<◌, ◌≤◌, ℕ, suc, pos, length, All};
ghost use Rattle.std.specs.Prelude.{IfErr, IfOk, IsErrOf, OnOk, sum_by, unsigned_abs};
ghost use Rattle.geo_poly.specs.Specialise.{IsCollected, NoneZero, degree_in};
ghost use Rattle.geo_sample.specs.Tries.{AreMade, EndIn, all_specialised, search_tries};
ghost use Rattle.geo_sample.specs.Tries.{tries_below};
ghost use Rattle.geo_sample.specs.Samples.{IsLeastSample, IsLeastValue, SearchEndsIn};

use crate::charges::affordable_at_first;
use crate::errors::SampleError;
use crate::lists::{are_valid, specialisations};
use crate::specialisations::Specialisation;
use crate::trying::try_natural;
use geo_base::Budget;
use geo_poly::lists::{Polys, Values, Vars};
use geo_poly::{Poly, Ticks, Var};
use std::alloc::Global;
use std::sync::ledger::Ledger;

/// For each variable in order the least whole number from 0 at which, with the values before it put
/// in, none of the polynomials is zero. The tries are made in order, each for its charge. Each
/// monomial into which a number is put ticks.
pub fn least_sample<L: Ledger>(
    alloc: Global,
    polys: &Polys,
    vars: &Vars,
    budget: &mut Budget,
    ticks: &mut Ticks<L>,
) -> Result<Values, SampleError>
    requires { NoneZero polys.now }
    ensures least { IfOk result (λ xs. IsLeastSample vars.now polys.now xs) }
    ensures fits { IfOk result (λ xs. All (λ x. unsigned_abs x.1 < 2 ^ 127) xs) }
    ensures made { IfOk result
        (λ xs. AreMade budget.old.left (search_tries xs polys.now) budget.new.left) }
    ensures stopped { IfErr result
        (λ e. SearchEndsIn e vars.now polys.now budget.old.left budget.new.left) }
    ensures ticks { ticks.new ≤ ticks.old + budget.old.left }
    ensures counted { OnOk result
        (ticks.new + budget.new.left ≤ ticks.old + budget.old.left) }
    ensures unworked { (e : SampleError) → IsErrOf result e → e ≢ SampleError.NoMemory
        → ticks.new + budget.new.left ≤ ticks.old + budget.old.left }
{
    let items = least_values(alloc, &polys.items, &vars.items, budget, ticks)?;
    Ok(Values { items })
}

/// The same of lists.
fn least_values<L: Ledger>(
    alloc: Global,
    polys: &[Poly],
    vars: &[Var],
    budget: &mut Budget,
    ticks: &mut Ticks<L>,
) -> Result<Vec<(Var, i128)>, SampleError>
    requires { NoneZero polys.now }
    ensures least { IfOk result (λ xs. IsLeastSample vars.now polys.now xs.items) }
    ensures fits { IfOk result (λ xs. All (λ x. unsigned_abs x.1 < 2 ^ 127) xs.items) }
    ensures made { IfOk result
        (λ xs. AreMade budget.old.left (search_tries xs.items polys.now) budget.new.left) }
    ensures stopped { IfErr result
        (λ e. SearchEndsIn e vars.now polys.now budget.old.left budget.new.left) }
    ensures ticks { ticks.new ≤ ticks.old + budget.old.left }
    ensures counted { OnOk result
        (ticks.new + budget.new.left ≤ ticks.old + budget.old.left) }
    ensures unworked { (e : SampleError) → IsErrOf result e → e ≢ SampleError.NoMemory
        → ticks.new + budget.new.left ≤ ticks.old + budget.old.left }
{
    prove!(are_valid(polys));
    let mut values = Vec::new(alloc);
    if vars.is_empty() {
        return Ok(values);
    }
    affordable_at_first(polys, budget)?;
    let mut current = specialisations(alloc, polys, budget)?;
    for v in vars {
        let value = put_least_value(alloc, &mut current, *v, budget, ticks)?;
        values.push(pair(*v, value))?;
    }
    Ok(values)
}

/// A variable with a natural number.
fn pair(v: Var, k: u128) -> (Var, i128)
    requires { k < 2 ^ 127 }
    ensures { result ≡ (v, pos k) }
{
    (v, k as i128)
}

/// Puts the least number for the variable at which none of the polynomials is zero, and answers it.
fn put_least_value<L: Ledger>(
    alloc: Global,
    polys: &mut Vec<Specialisation>,
    v: Var,
    budget: &mut Budget,
    ticks: &mut Ticks<L>,
) -> Result<u128, SampleError>
    requires collected { All IsCollected polys.old.items }
    requires nonzero { NoneZero polys.old.items }
    requires few { length polys.old.items < 2 ^ 64 }
    requires low { sum_by (degree_in v) polys.old.items ≤ 65535 * length polys.old.items }
    ensures least { IfOk result (λ k. IsLeastValue v polys.old.items (pos k)) }
    ensures fits { IfOk result (λ k. k < 2 ^ 127) }
    ensures put { IfOk result (λ k. polys.new.items ≡ all_specialised v (pos k) polys.old.items) }
    ensures made { IfOk result
        (λ k. AreMade budget.old.left (tries_below (suc k) v polys.old.items) budget.new.left) }
    ensures stopped { IfErr result (λ e. (k : ℕ) × IsLeastValue v polys.old.items (pos k)
        × EndIn e budget.old.left (tries_below (suc k) v polys.old.items) budget.new.left) }
    ensures ticks { ticks.new ≤ ticks.old + budget.old.left }
    ensures counted { OnOk result
        (ticks.new + budget.new.left ≤ ticks.old + budget.old.left) }
    ensures unworked { (e : SampleError) → IsErrOf result e → e ≢ SampleError.NoMemory
        → ticks.new + budget.new.left ≤ ticks.old + budget.old.left }
{
    let mut k = 0u128;
    loop {
        let keeps = try_natural(alloc, polys, v, k, budget, ticks)?;
        if keeps {
            return Ok(k);
        }
        k += 1;
    }
}
