//! A program at values.

ghost use Rattle.std.specs.Prelude.{◌≡◌, ◌<◌, ◌^◌, All, IfOk, length, unsigned_abs};
ghost use Rattle.geo_program.specs.Programs.{source_of};
ghost use Rattle.geo_conditions.specs.Truth.{ProgramValues, free_points as numbers_of_free_points, integers_of};
ghost use Rattle.geo_place.specs.Placing.{AnswersValues, IsDrawable};
ghost use Rattle.geo_place.specs.Placing.{values_wanted};

use crate::errors::PlaceError;
use crate::evaluation::evaluate;
use crate::naming::{lines_of_points, named_points};
use crate::placed::{Ints, Placed};
use geo_conditions::list;
use geo_lowering::lower;
use geo_program::Program;
use std::alloc::Global;

/// The points of a program at given values, and whether its statement holds in them. The values
/// are x and y of each free point in order, and then the numbers of `param`, `online` and
/// `oncircle`, in order.
pub fn place(alloc: Global, program: &Program, values: &Ints) -> Result<Placed, PlaceError>
    requires wanted { length values.now ≡ values_wanted (source_of program.now) }
    requires short { All (λ z. unsigned_abs z < 2 ^ 127) values.now }
    ensures answer { (v : ProgramValues)
        → length v.coordinates ≡ length (numbers_of_free_points 0 program.now.commands)
        → integers_of v ≡ values.now → AnswersValues (source_of program.now) v result }
    ensures drawable { IfOk result (λ answer. All IsDrawable answer.points) }
{
    let lowered = lower(alloc, program)?;
    let problem = list(alloc, program, lowered)?;
    let evaluated = evaluate(alloc, program, &problem, &values.items)?;
    let lines = lines_of_points(alloc, program.commands.as_slice())?;
    let points = named_points(alloc, program.names.as_slice(), &lines, &evaluated.triples)?;
    Ok(Placed {
        points,
        holds: evaluated.holds,
    })
}
