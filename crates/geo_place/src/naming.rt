//! The placed points with their names and lines.

ghost use Rattle.std.specs.Prelude.{◌≡◌, IfOk, length, map};
ghost use Rattle.geo_program.specs.Names.{names_of};
ghost use Rattle.geo_program.specs.declared.names.NameKind.TheVariants as kind;
ghost use Rattle.geo_lowering.specs.Counting.{is_made, named};
ghost use Rattle.geo_place.specs.Inner.{triple_at};
ghost use Rattle.geo_place.specs.Placing.{point_lines};

use crate::placed::{At, Points};
use crate::triples::Triple;
use geo_base::Text;
use geo_points::NoMemory;
use geo_program::{Command, Name, NameKind};
use std::alloc::Global;

/// A point with its name and line.
fn at(alloc: Global, name: &Name, line: u64, triple: Triple) -> Result<At, NoMemory>
    ensures name { IfOk result (λ a. a.name ≡ name.now.text) }
    ensures line { IfOk result (λ a. a.line ≡ line) }
    ensures triple { IfOk result (λ a. triple_at a ≡ triple) }
{
    let mut bytes = Vec::new(alloc);
    bytes.extend_from_slice(name.bytes())?;
    Ok(At {
        name: Text { bytes },
        line,
        x: triple.x,
        y: triple.y,
        w: triple.w,
    })
}

/// Whether the command names a point.
pub fn names_point(command: &Command) -> bool
    ensures { result ≡ is_made kind.Point (named command.now) }
{
    matches!(command.makes(), Some(NameKind::Point))
}

/// The lines of the commands that name points, counted from 1. An assumption has a line and no name.
pub fn lines_of_points(alloc: Global, commands: &[Command]) -> Result<Vec<u64>, NoMemory>
    ensures { IfOk result (λ lines. lines.items ≡ point_lines 1 commands.now) }
{
    let mut lines = Vec::new(alloc);
    for (k, command) in commands.iter().enumerate() {
        if names_point(command) {
            lines.push(k as u64 + 1)?;
        }
    }
    Ok(lines)
}

/// The named points on these lines at these triples.
pub fn named_points(
    alloc: Global,
    names: &[Name],
    lines: &[u64],
    triples: &[Triple],
) -> Result<Points, NoMemory>
    requires lines { length lines.now ≡ length (names_of kind.Point names.now) }
    requires triples { length triples.now ≡ length (names_of kind.Point names.now) }
    ensures names { IfOk result (λ points.
        map (λ a. a.name) points ≡ names_of kind.Point names.now) }
    ensures lines { IfOk result (λ points. map (λ a. a.line) points ≡ lines.now) }
    ensures triples { IfOk result (λ points. map triple_at points ≡ triples.now) }
{
    let mut items = Vec::new(alloc);
    for name in names {
        if name.kind == NameKind::Point {
            let k = items.len();
            items.push(at(alloc, name, lines[k], triples[k])?)?;
        }
    }
    Ok(Points { items })
}
