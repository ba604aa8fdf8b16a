//! Steps that are pushed together.

ghost use Rattle.std.specs.Prelude.{◌≡◌, ◌≤◌, ◌+◌, OnOk, length, map};
ghost use Rattle.geo_lowering.specs.Inner.Growing.{HasMore};
ghost use Rattle.geo_lowering.specs.StepForms.{step_form};
ghost use Rattle.geo_lowering.specs.Inner.StepLists.{AreStepsFrom};

use geo_points::NoMemory;
use geo_terms::{Step, Steps};

/// All steps of the list, one after another.
pub fn push_steps(steps: &mut Steps, list: &[Step]) -> Result<(), NoMemory>
    requires steps { AreStepsFrom steps.old.nodes (length steps.old.steps) steps.old.params
        list.now }
    requires room { length steps.old.steps + length list.now ≤ 512 }
    ensures { OnOk result (HasMore steps.old steps.new (map (step_form steps.old.nodes) list.now)) }
{
    for step in list {
        steps.push(*step)?;
    }
    Ok(())
}
