//! The sample of a log.

ghost use Rattle.std.specs.Prelude.{◌≡◌, ◌↔◌, ◌<◌, ◌++◌, ◌∷◌, [], IfErr, IfOk, IsTrue, OnOk, Some};
ghost use Rattle.std.specs.Prelude.{length, map, slice_get};
ghost use Rattle.geo_logs.specs.Judging.{IsSampleRefused};
ghost use Rattle.geo_logs.specs.Samples.{IsAcceptedSample, coordinates_from, sample_variables};
ghost use Rattle.log_checker.specs.Inner.Lines.{Tells};
ghost use Rattle.proof_log.specs.Writable.{CanWriteValues};

use crate::reasons::Reason;
use crate::stops::Stop;
use geo_base::Budget;
use geo_points::{NoMemory, ParamId, PointId};
use geo_poly::Var;
use geo_poly::lists::{Polys, Values};
use geo_sample::values_hold_uncounted;
use geo_terms::{Step, Steps};
use std::alloc::Global;

/// Tests a sample: its variables, and that no listed polynomial is zero at its values.
pub(crate) fn test_sample(
    alloc: Global,
    steps: &Steps,
    values: &Values,
    listed: &Polys,
    budget: &mut Budget,
) -> Result<(), Stop>
    requires { CanWriteValues values.now }
    ensures accepted { OnOk result
        (IsAcceptedSample steps.now listed.now budget.old.left values.now budget.new.left) }
    ensures refused { IfErr result (Tells
        (IsSampleRefused steps.now listed.now budget.old.left values.now)) }
{
    let variables = sample_variables(alloc, steps)?;
    if !are_variables_of(&values.items, &variables) {
        return Err(Stop::Rejected(Reason::WrongSample));
    }
    if !values_hold_uncounted(alloc, listed, values, budget)? {
        return Err(Stop::Rejected(Reason::WrongSample));
    }
    Ok(())
}

/// The variables of a sample: x and y of each free point in order, and then all parameters.
fn sample_variables(alloc: Global, steps: &Steps) -> Result<Vec<Var>, NoMemory>
    ensures { IfOk result (λ vs. vs.items ≡ sample_variables steps.now) }
{
    let mut variables = coordinates(alloc, steps)?;
    for t in 0..steps.params() {
        variables.push(Var::T(ParamId(t)))?;
    }
    Ok(variables)
}

/// x and y of each free point in order.
fn coordinates(alloc: Global, steps: &Steps) -> Result<Vec<Var>, NoMemory>
    ensures { IfOk result (λ vs. vs.items ≡ coordinates_from 0 steps.now.steps) }
{
    let mut variables = Vec::new(alloc);
    for k in 0..steps.count() {
        push_coordinates(&mut variables, PointId(k), steps.step(PointId(k)))?;
    }
    Ok(variables)
}

/// Adds x and y of the point, where its step makes it free.
fn push_coordinates(variables: &mut Vec<Var>, point: PointId, step: Step) -> Result<(), NoMemory>
    ensures { OnOk result
        (variables.new.items ≡ variables.old.items ++ coordinates_from point.0 (step ∷ [])) }
{
    if let Step::Point = step {
        variables.push(Var::X(point))?;
        variables.push(Var::Y(point))?;
    }
    Ok(())
}

/// Whether these are the variables of the values, in order.
fn are_variables_of(values: &[(Var, i128)], variables: &[Var]) -> bool
    ensures { IsTrue result ↔ (map (λ v. v.0) values.now ≡ variables.now) }
{
    if variables.len() != values.len() {
        return false;
    }
    for i in 0..values.len() {
        let v = name_at(values, i);
        let w = variable_at(variables, i);
        if !is_same(v, w) {
            return false;
        }
    }
    true
}

/// The variable of the value at a place.
fn name_at(values: &[(Var, i128)], i: usize) -> Var
    requires { i < length values.now }
    ensures { slice_get (map (λ v. v.0) values.now) i ≡ Some result }
{
    values[i].0
}

/// The variable at a place.
fn variable_at(variables: &[Var], i: usize) -> Var
    requires { i < length variables.now }
    ensures { slice_get variables.now i ≡ Some result }
{
    variables[i]
}

/// Whether both are the same variable.
fn is_same(v: Var, w: Var) -> bool
    ensures { IsTrue result ↔ (v ≡ w) }
{
    v == w
}
