//! The version of a log: its number, and what it makes of a program.

ghost use Rattle.std.specs.Prelude.{◌≡◌, IfOk};
ghost use Rattle.geo_conditions.specs.Lists.{IsProblem};
ghost use Rattle.geo_conditions.specs.Problems.{form_of_problem};
ghost use Rattle.geo_lowering.specs.Lowering.{IsLowered};
ghost use Rattle.geo_lowering.specs.Parts.{form_of};
ghost use Rattle.geo_program.specs.Programs.{source_of};
ghost use Rattle.log_checker.specs.Subjects.{version_number};
ghost use Rattle.proof_log.specs.Writable.{IsVersion};

use geo_conditions::{Problem, list};
use geo_lowering::{Lowered, Version, lower, lower_old};
use geo_points::NoMemory;
use geo_program::Program;
use std::alloc::Global;

/// The version with this number.
pub fn version_of(number: u32) -> Version
    requires { IsVersion number }
    ensures { version_number result ≡ number }
{
    if number == 1 {
        Version::One
    } else {
        Version::Two
    }
}

/// The number of a version, as the header of a log has it.
pub fn number_of(version: Version) -> u32
    ensures { result ≡ version_number version }
{
    match version {
        Version::One => 1,
        Version::Two => 2,
    }
}

/// The lowered form of a program by a version.
pub fn lower_by(alloc: Global, version: Version, program: &Program) -> Result<Lowered, NoMemory>
    ensures { IfOk result (λ l. IsLowered version (source_of program.now) (form_of l)) }
{
    match version {
        Version::One => lower_old(alloc, program),
        Version::Two => lower(alloc, program),
    }
}

/// What is to be proved of a program by a version: its lowered form, its conditions and its goals.
pub fn problem_by(alloc: Global, version: Version, program: &Program) -> Result<Problem, NoMemory>
    ensures { IfOk result (λ q.
        IsProblem version (source_of program.now) (form_of_problem q) q.conditions q.goals) }
{
    let lowered = lower_by(alloc, version, program)?;
    list(alloc, program, lowered)
}
