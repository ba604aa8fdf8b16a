//! The variables of a sample.

ghost use Rattle.std.specs.Prelude.{◌≡◌, ◌++◌, IfOk, OnOk, filter};
ghost use Rattle.geo_logs.specs.Samples.{coordinates_from, parameters_from, sample_variables};
ghost use Rattle.geo_chain.specs.InFrame.{is_in_frame, variables_in};

use crate::frame::Frame;
use geo_points::{NoMemory, ParamId, PointId};
use geo_poly::Var;
use geo_poly::lists::Vars;
use geo_terms::{Step, Steps};
use std::alloc::Global;

/// The coordinates of the free points, and then the parameters, each in order, without those that
/// have their values by the frame.
pub fn variables_of_sample(alloc: Global, frame: Frame, steps: &Steps) -> Result<Vars, NoMemory>
    ensures { IfOk result (λ vs. vs ≡ variables_in frame steps.now) }
{
    let all = all_variables(alloc, steps)?;
    match frame {
        Frame::Full => Ok(Vars { items: all }),
        Frame::Fixed => Ok(Vars {
            items: open_variables(alloc, frame, &all)?,
        }),
    }
}

/// The coordinates of the free points, and then the parameters, each in order.
fn all_variables(alloc: Global, steps: &Steps) -> Result<Vec<Var>, NoMemory>
    ensures { IfOk result (λ vs. vs.items ≡ sample_variables steps.now) }
{
    let mut items = Vec::new(alloc);
    push_coordinates(&mut items, steps)?;
    push_parameters(&mut items, steps.params())?;
    Ok(items)
}

/// Those of the variables that have no value yet in the frame.
fn open_variables(alloc: Global, frame: Frame, vars: &[Var]) -> Result<Vec<Var>, NoMemory>
    ensures { IfOk result (λ vs. vs.items ≡ filter (is_in_frame frame) vars.now) }
{
    let mut items = Vec::new(alloc);
    for v in vars {
        if frame.leaves_open(*v) {
            items.push(*v)?;
        }
    }
    Ok(items)
}

/// Appends x and y of each free point.
fn push_coordinates(items: &mut Vec<Var>, steps: &Steps) -> Result<(), NoMemory>
    ensures { OnOk result
        (items.new.items ≡ items.old.items ++ coordinates_from 0 steps.now.steps) }
{
    for k in 0..steps.count() {
        if let Step::Point = steps.step(PointId(k)) {
            items.push(Var::X(PointId(k)))?;
            items.push(Var::Y(PointId(k)))?;
        }
    }
    Ok(())
}

/// Appends so many parameters.
fn push_parameters(items: &mut Vec<Var>, count: u32) -> Result<(), NoMemory>
    ensures { OnOk result (items.new.items ≡ items.old.items ++ parameters_from 0 count) }
{
    for k in 0..count {
        items.push(Var::T(ParamId(k)))?;
    }
    Ok(())
}
