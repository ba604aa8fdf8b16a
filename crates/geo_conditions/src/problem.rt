//! What is to be proved of a program: its lowered steps with its conditions and its goals.

ghost use Rattle.std.specs.Prelude.{IfOk};
ghost use Rattle.geo_program.specs.Programs.{source_of};
ghost use Rattle.geo_lowering.specs.Lowering.{IsLowered};
ghost use Rattle.geo_lowering.specs.Parts.{form_of};
ghost use Rattle.geo_conditions.specs.Problems.{form_of_problem};
ghost use Rattle.geo_conditions.specs.Lists.{IsProblem};

use crate::items::{Conditions, Goals};
use crate::program_items::list_items;
use geo_lowering::{After, Lines, Lowered, Params, Points, Version};
use geo_points::NoMemory;
use geo_program::Program;
use geo_terms::Steps;
use std::alloc::Global;

/// A lowered program with its conditions and its goals, whose terms stand in the store of the
/// steps.
pub struct Problem {
    /// The steps, hidden points among them.
    pub steps: Steps,
    /// The numbers of the named points among all points.
    pub points: Points,
    /// The two points of each line.
    pub lines: Lines,
    /// The numbers of the parameters among all numbers.
    pub params: Params,
    /// How many points there are after each command.
    pub after: After,
    /// The conditions that the commands and the statement give.
    pub conditions: Conditions,
    /// The goals: those of the statement's ratios, and then the statement.
    pub goals: Goals,
}

/// By hand, so that a caller's proof sees one call where a problem is let go.
impl Drop for Problem {
    fn drop(self) {
        let Problem {
            steps: _,
            points: _,
            lines: _,
            params: _,
            after: _,
            conditions: _,
            goals: _,
        } = self;
    }
}

/// The conditions and goals of a program beside its lowered form, by either version, which is taken
/// over. After want of memory the lowered form is gone.
pub fn list(alloc: Global, program: &Program, lowered: Lowered) -> Result<Problem, NoMemory>
    ensures { (version : Version)
        → IsLowered version (source_of program.now) (form_of lowered)
        → IfOk result (λ q.
        IsProblem version (source_of program.now) (form_of_problem q) q.conditions q.goals) }
{
    let Lowered {
        mut steps,
        points,
        lines,
        params,
        after,
    } = lowered;
    let (conditions, goals) = list_items(alloc, program, &mut steps, &points, &lines, &params)?;
    // `count` also says that the steps are a construction.
    let _ = steps.count();
    Ok(Problem {
        steps,
        points,
        lines,
        params,
        after,
        conditions,
        goals,
    })
}
