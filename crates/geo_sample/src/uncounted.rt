//! The search and the test for callers that want no count of the work.

ghost use Rattle.std.specs.Prelude.{◌≡◌, ◌↔◌, ◌^◌, ◌<◌, All, IfErr, IfOk, IsTrue, unsigned_abs};
ghost use Rattle.geo_poly.specs.Specialise.{NoneZero};
ghost use Rattle.geo_sample.specs.Samples.{IsLeastSample, SearchEndsIn, specialised_by};
ghost use Rattle.geo_sample.specs.Tries.{AreMade, EndIn, search_tries, single_tries};

use crate::errors::SampleError;
use crate::holding::values_hold;
use crate::sample::least_sample;
use geo_base::Budget;
use geo_poly::Ticks;
use geo_poly::lists::{Polys, Values, Vars};
use std::alloc::Global;
use std::marker::Brand;
use std::sync::ledger::{Blank, Ledger};

/// What `least_sample` answers.
pub fn least_sample_uncounted(
    alloc: Global,
    polys: &Polys,
    vars: &Vars,
    budget: &mut Budget,
) -> Result<Values, SampleError>
    requires { NoneZero polys.now }
    ensures least { IfOk result (λ xs. IsLeastSample vars.now polys.now xs) }
    ensures fits { IfOk result (λ xs. All (λ x. unsigned_abs x.1 < 2 ^ 127) xs) }
    ensures made { IfOk result
        (λ xs. AreMade budget.old.left (search_tries xs polys.now) budget.new.left) }
    ensures stopped { IfErr result
        (λ e. SearchEndsIn e vars.now polys.now budget.old.left budget.new.left) }
{
    least_sample_in::<Brand>(alloc, polys, vars, budget, Blank::new(1))
}

/// The same with a counter of its own.
fn least_sample_in<L: Ledger>(
    alloc: Global,
    polys: &Polys,
    vars: &Vars,
    budget: &mut Budget,
    blank: Blank,
) -> Result<Values, SampleError>
    requires name { blank.name ≡ L.name }
    requires parts { blank.parts ≡ L.parts }
    requires some { 0 < blank.parts }
    requires nonzero { NoneZero polys.now }
    ensures least { IfOk result (λ xs. IsLeastSample vars.now polys.now xs) }
    ensures fits { IfOk result (λ xs. All (λ x. unsigned_abs x.1 < 2 ^ 127) xs) }
    ensures made { IfOk result
        (λ xs. AreMade budget.old.left (search_tries xs polys.now) budget.new.left) }
    ensures stopped { IfErr result
        (λ e. SearchEndsIn e vars.now polys.now budget.old.left budget.new.left) }
{
    let mut ticks = Ticks::<L>::new(blank);
    least_sample(alloc, polys, vars, budget, &mut ticks)
}

/// What `values_hold` answers.
pub fn values_hold_uncounted(
    alloc: Global,
    polys: &Polys,
    values: &Values,
    budget: &mut Budget,
) -> Result<bool, SampleError>
    ensures hold { IfOk result (λ b. IsTrue b ↔ NoneZero (specialised_by values.now polys.now)) }
    ensures made { IfOk result
        (λ b. AreMade budget.old.left (single_tries values.now polys.now) budget.new.left) }
    ensures stopped { IfErr result
        (λ e. EndIn e budget.old.left (single_tries values.now polys.now) budget.new.left) }
{
    values_hold_in::<Brand>(alloc, polys, values, budget, Blank::new(1))
}

/// The same with a counter of its own.
fn values_hold_in<L: Ledger>(
    alloc: Global,
    polys: &Polys,
    values: &Values,
    budget: &mut Budget,
    blank: Blank,
) -> Result<bool, SampleError>
    requires name { blank.name ≡ L.name }
    requires parts { blank.parts ≡ L.parts }
    requires some { 0 < blank.parts }
    ensures hold { IfOk result (λ b. IsTrue b ↔ NoneZero (specialised_by values.now polys.now)) }
    ensures made { IfOk result
        (λ b. AreMade budget.old.left (single_tries values.now polys.now) budget.new.left) }
    ensures stopped { IfErr result
        (λ e. EndIn e budget.old.left (single_tries values.now polys.now) budget.new.left) }
{
    let mut ticks = Ticks::<L>::new(blank);
    values_hold(alloc, polys, values, budget, &mut ticks)
}
