//! The values of a program.

ghost use Rattle.std.specs.Prelude.{◌≡◌, length};
ghost use Rattle.geo_program.specs.Programs.{source_of};
ghost use Rattle.std.specs.List.{filter};
ghost use Rattle.geo_lowering.specs.Counting.{has_number};
ghost use Rattle.geo_conditions.specs.Truth.{is_free};
ghost use Rattle.geo_place.specs.Placing.{values_wanted};

use geo_program::{Command, Program};

/// How many free points the commands make.
pub fn free_points(commands: &[Command]) -> usize
    ensures { result ≡ length (filter is_free commands.now) }
{
    commands
        .iter()
        .filter(|c| matches!(c, Command::Point))
        .count()
}

/// How many of the commands have a number.
fn numbers(commands: &[Command]) -> usize
    ensures { result ≡ length (filter has_number commands.now) }
{
    commands
        .iter()
        .filter(|c| {
            matches!(
                c,
                Command::Param | Command::Online { .. } | Command::Oncircle { .. }
            )
        })
        .count()
}

/// How many whole numbers are the values of a program: two for each free point, and one for each
/// command that has a number.
pub fn wanted(program: &Program) -> u64
    ensures { result ≡ values_wanted (source_of program.now) }
{
    let commands = program.commands.as_slice();
    2 * free_points(commands) as u64 + numbers(commands) as u64
}
