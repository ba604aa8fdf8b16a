//! What a try costs.

ghost use Rattle.std.specs.Prelude.{min, ◌≡◌, ◌-◌, ◌^◌, ◌<◌, ◌≤◌, length, sum_by, IfOk, IfErr};

use crate::errors::SampleError;
use crate::specialisations::Specialisation;
use geo_base::Budget;
use geo_poly::Poly;

/// The charge of a try, where it does not pass what is left.
pub fn affordable(polys: &[Specialisation], budget: &Budget) -> Result<u64, SampleError>
    ensures charge { IfOk result (λ n. n ≡ sum_by length polys.now) }
    ensures paid { IfOk result (λ n. n ≤ budget.now.left) }
    ensures spent { IfErr result
        (λ e. (e ≡ SampleError.Spent) × (budget.now.left < sum_by length polys.now)) }
{
    within(count_of_monomials(polys), budget)
}

/// The same of the first try, before any number is put in.
pub fn affordable_at_first(polys: &[Poly], budget: &Budget) -> Result<u64, SampleError>
    ensures charge { IfOk result (λ n. n ≡ sum_by length polys.now) }
    ensures paid { IfOk result (λ n. n ≤ budget.now.left) }
    ensures spent { IfErr result
        (λ e. (e ≡ SampleError.Spent) × (budget.now.left < sum_by length polys.now)) }
{
    within(count_at_first(polys), budget)
}

/// The charge as a number, where it does not pass what is left.
fn within(charge: u128, budget: &Budget) -> Result<u64, SampleError>
    ensures charge { IfOk result (λ n. n ≡ charge) }
    ensures paid { IfOk result (λ n. n ≤ budget.now.left) }
    ensures spent { IfErr result (λ e. (e ≡ SampleError.Spent) × (budget.now.left < charge)) }
{
    if charge > budget.left as u128 {
        return Err(SampleError::Spent);
    }
    Ok(charge as u64)
}

/// How many monomials the polynomials have, or the greatest number where they have more.
fn count_of_monomials(polys: &[Specialisation]) -> u128
    ensures { result ≡ min (sum_by length polys.now) (2 ^ 128 - 1) }
{
    let mut count = 0u128;
    for poly in polys {
        count = count.saturating_add(poly.terms() as u128);
    }
    count
}

/// The same before any number is put in.
fn count_at_first(polys: &[Poly]) -> u128
    ensures { result ≡ min (sum_by length polys.now) (2 ^ 128 - 1) }
{
    let mut count = 0u128;
    for poly in polys {
        count = count.saturating_add(poly.terms() as u128);
    }
    count
}
