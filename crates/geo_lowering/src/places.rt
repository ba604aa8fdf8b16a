//! Where what has a name stands in the lowered form. The places depend on the commands alone, so
//! they are known before any step is made.

ghost use Rattle.std.specs.Prelude.{◌≡◌, ◌+◌, ◌-◌, ◌<◌, ◌≤◌, length, map, slice_index_or, IfOk};
ghost use Rattle.geo_program.specs.declared.names.NameKind.TheVariants as kind;
ghost use Rattle.geo_lowering.specs.Counting.{further, has_number, hidden, is_made, named};
ghost use Rattle.geo_lowering.specs.Counting.{next_point, param_places, points_past};
ghost use Rattle.geo_lowering.specs.Counting.{weights_points};
ghost use Rattle.geo_lowering.specs.Lowering.{line_places, pair_numbers, pair_of, point_places};
ghost use Rattle.geo_lowering.specs.Lowering.{points_after};

use crate::lists::{After, Lines, Params, Points};
use crate::version::Version;
use geo_points::{NoMemory, ParamId, PointId};
use geo_program::{Command, NameKind};
use std::alloc::Global;

// How many hidden points a command makes, before the point that it names.
fn hidden_points(version: Version, command: &Command) -> u32
    ensures hidden { result ≡ hidden version command.now }
    ensures few { result ≤ 4 }
{
    match command {
        Command::Parallel { .. }
        | Command::Reflect { .. }
        | Command::Centroid { .. }
        | Command::Second { .. }
        | Command::Cc { .. } => 1,
        Command::Perp { .. }
        | Command::Med { .. }
        | Command::Orthocenter { .. }
        | Command::Oncircle { .. } => 2,
        Command::Circumcenter { .. } => 4,
        Command::Weights { .. } => hidden_weights(version),
        _ => 0,
    }
}

// How many hidden points `weights` makes.
fn hidden_weights(version: Version) -> u32
    ensures hidden { result ≡ weights_points version - 1 }
    ensures few { result ≤ 4 }
{
    match version {
        Version::One => 1,
        Version::Two => 0,
    }
}

// Whether the command names a point.
fn names_point(command: &Command) -> bool
    ensures { result ≡ is_made kind.Point (named command.now) }
{
    matches!(command.makes(), Some(NameKind::Point))
}

// The number of points after a command, where there are n before it.
fn points_after_command(version: Version, n: u32, command: &Command) -> u32
    requires { n ≤ 4294967000 }
    ensures { result ≡ next_point version n command.now }
{
    let last = n + hidden_points(version, command);
    if names_point(command) { last + 1 } else { last }
}

/// The numbers of the named points among all points.
pub fn place_points(
    alloc: Global,
    version: Version,
    commands: &[Command],
) -> Result<Points, NoMemory>
    requires { points_past version 0 commands.now ≤ 512 }
    ensures { IfOk result (λ points.
        map (λ a. a.0) points ≡ point_places version 0 commands.now) }
{
    let mut items = Vec::new(alloc);
    let mut n = 0;
    for command in commands {
        if names_point(command) {
            items.push(PointId(n + hidden_points(version, command)))?;
        }
        n = points_after_command(version, n, command);
    }
    Ok(Points { items })
}

/// The number of points after each command.
pub fn count_points(
    alloc: Global,
    version: Version,
    commands: &[Command],
) -> Result<After, NoMemory>
    requires { points_past version 0 commands.now ≤ 512 }
    ensures { IfOk result (λ after. after ≡ points_after version 0 commands.now) }
{
    let mut items = Vec::new(alloc);
    let mut n = 0;
    for command in commands {
        n = points_after_command(version, n, command);
        items.push(n)?;
    }
    Ok(After { items })
}

// Whether the command names a parameter.
fn names_param(command: &Command) -> bool
    ensures { result ≡ is_made kind.Param (named command.now) }
{
    matches!(command.makes(), Some(NameKind::Param))
}

// Whether the command has a number of its own.
fn has_own_number(command: &Command) -> bool
    ensures { result ≡ has_number command.now }
{
    matches!(
        command,
        Command::Param | Command::Online { .. } | Command::Oncircle { .. }
    )
}

/// The numbers of the parameters among all numbers.
pub fn place_params(alloc: Global, commands: &[Command]) -> Result<Params, NoMemory>
    requires { length commands.now < 4294967295 }
    ensures { IfOk result (λ params. map (λ t. t.0) params ≡ param_places 0 commands.now) }
{
    let mut items = Vec::new(alloc);
    let mut m: u32 = 0;
    for command in commands {
        if names_param(command) {
            items.push(ParamId(m))?;
        }
        if has_own_number(command) {
            m += 1;
        }
    }
    Ok(Params { items })
}

// Whether the command names a line.
fn names_line(command: &Command) -> bool
    ensures { result ≡ is_made kind.Line (named command.now) }
{
    matches!(command.makes(), Some(NameKind::Line))
}

/// The number of a named point among all points; past the end 0.
pub fn point_at(points: &[PointId], a: PointId) -> PointId
    ensures { result.0 ≡ slice_index_or (map (λ p. p.0) points.now) a.0 0 }
{
    match points.get(a.0 as usize) {
        Some(place) => *place,
        None => PointId(0),
    }
}

// The points of the line that a command names, whose own points begin at n.
fn pair_at(points: &[PointId], n: u32, command: &Command) -> (PointId, PointId)
    requires { n ≤ 4294967000 }
    ensures { pair_numbers result
        ≡ pair_of (λ a. slice_index_or (map (λ p. p.0) points.now) a 0) n command.now }
{
    match *command {
        Command::Line { a, b } => (point_at(points, a), point_at(points, b)),
        Command::Parallel { p, .. } => (point_at(points, p), PointId(n)),
        Command::Perp { p, .. } => (point_at(points, p), PointId(n + 1)),
        _ => (PointId(n), PointId(n + 1)),
    }
}

/// The two points of each line.
pub fn place_lines(
    alloc: Global,
    version: Version,
    commands: &[Command],
    points: &[PointId],
) -> Result<Lines, NoMemory>
    requires { points_past version 0 commands.now ≤ 512 }
    ensures { IfOk result (λ lines.
        map pair_numbers lines
        ≡ line_places version (λ a. slice_index_or (map (λ p. p.0) points.now) a 0) 0
        commands.now) }
{
    let mut items = Vec::new(alloc);
    let mut n = 0;
    for command in commands {
        if names_line(command) {
            items.push(pair_at(points, n, command))?;
        }
        n = points_after_command(version, n, command);
    }
    Ok(Lines { items })
}
