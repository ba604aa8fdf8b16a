//! A program that is made for any number: quadrangles in one another.

ghost use Rattle.std.specs.Prelude.{◌≡◌, ◌+◌, ◌*◌, ◌<◌, ◌≤◌, [], ◌∷◌, ◌++◌, IfOk, OnOk};
ghost use Rattle.geo_program.specs.Programs.{source_of};
ghost use Rattle.geo_prover.specs.Bench.{IsBench, bench_commands, bench_names, corner};
ghost use Rattle.geo_prover.specs.Bench.{corner_names, middles, numbered_name};

use geo_base::Text;
use geo_points::{NoMemory, PointId};
use geo_program::{Command, Commands, Name, NameKind, Names, Program, Statement};
use geo_terms::{Node, Terms};
use std::alloc::Global;

/// The program of the workload of this number: a quadrangle, as often as the number says the
/// quadrangle of the middles of the sides, and the middles of two diagonals, which are the same.
pub fn bench_program(alloc: Global, number: u32) -> Result<Program, NoMemory>
    requires first { 1 ≤ number }
    requires last { number ≤ 60 }
    ensures { IfOk result (λ p. IsBench number (source_of p)) }
{
    let names = names_of_bench(alloc, number)?;
    let commands = commands_of_bench(alloc, number)?;
    let mut terms = Terms::new(alloc)?;
    let e = terms.intern(area_with(corner(0, number + 1)))?;
    let f = terms.intern(area_with(corner(1, number + 1)))?;
    Ok(Program {
        names,
        terms,
        commands,
        statement: Statement::Equal { e, f },
    })
}

/// The corner of this place, from 0, of the quadrangle of this number.
fn corner(place: u32, number: u32) -> PointId
    requires place { place < 4 }
    requires number { number ≤ 61 }
    ensures { result ≡ corner place number }
{
    PointId(4 * number + place)
}

/// The area of the triangle of a point over the first side of the first quadrangle.
fn area_with(point: PointId) -> Node
    ensures { result ≡ Node.S (corner 0 0) point (corner 1 0) }
{
    Node::S(PointId(0), point, PointId(1))
}

/// The names: those of the corners, and then `X` and `Y`.
fn names_of_bench(alloc: Global, number: u32) -> Result<Names, NoMemory>
    requires { number ≤ 60 }
    ensures { IfOk result (λ names. names ≡ bench_names number) }
{
    let mut names = Vec::new(alloc);
    push_corner_names(alloc, &mut names, 0)?;
    for j in 0..number {
        push_corner_names(alloc, &mut names, j + 1)?;
    }
    push_name(alloc, &mut names, b"X")?;
    push_name(alloc, &mut names, b"Y")?;
    Ok(Names { items: names })
}

/// Adds the names of the corners of a quadrangle.
fn push_corner_names(alloc: Global, names: &mut Vec<Name>, k: u32) -> Result<(), NoMemory>
    ensures { OnOk result (names.new.items ≡ names.old.items ++ corner_names k) }
{
    push_numbered_name(alloc, names, b'A', k)?;
    push_numbered_name(alloc, names, b'B', k)?;
    push_numbered_name(alloc, names, b'C', k)?;
    push_numbered_name(alloc, names, b'D', k)
}

/// Adds the name of a letter and a number.
fn push_numbered_name(
    alloc: Global,
    names: &mut Vec<Name>,
    letter: u8,
    k: u32,
) -> Result<(), NoMemory>
    ensures { OnOk result (names.new.items ≡ names.old.items ++ numbered_name letter k ∷ []) }
{
    let mut bytes = Vec::new(alloc);
    bytes.push(letter)?;
    geo_base::push_decimal(alloc, &mut bytes, k as i128).map_err(|_| NoMemory)?;
    names.push(Name {
        text: Text { bytes },
        kind: NameKind::Point,
    })?;
    Ok(())
}

/// Adds a name.
fn push_name(alloc: Global, names: &mut Vec<Name>, text: &[u8]) -> Result<(), NoMemory>
    ensures { OnOk result (names.new.items
        ≡ names.old.items ++ record { text = text.now; kind = NameKind.Point } ∷ []) }
{
    let bytes = Vec::from_slice(alloc, text)?;
    names.push(Name {
        text: Text { bytes },
        kind: NameKind::Point,
    })?;
    Ok(())
}

/// The commands: four free points, the middles of the sides, and the middles of two diagonals.
fn commands_of_bench(alloc: Global, number: u32) -> Result<Commands, NoMemory>
    requires { number ≤ 60 }
    ensures { IfOk result (λ commands. commands ≡ bench_commands number) }
{
    let mut commands = Vec::new(alloc);
    commands.extend_from_slice(&[Command::Point; 4])?;
    for j in 0..number {
        push_middles(&mut commands, j)?;
    }
    push_middle(&mut commands, corner(0, number), corner(2, number))?;
    push_middle(&mut commands, corner(0, 1), corner(2, 1))?;
    Ok(Commands { items: commands })
}

/// Adds the middles of the sides of a quadrangle.
fn push_middles(commands: &mut Vec<Command>, j: u32) -> Result<(), NoMemory>
    requires { j ≤ 60 }
    ensures { OnOk result (commands.new.items ≡ commands.old.items ++ middles j) }
{
    let [a, b, c, d] = [corner(0, j), corner(1, j), corner(2, j), corner(3, j)];
    push_middle(commands, a, b)?;
    push_middle(commands, b, c)?;
    push_middle(commands, c, d)?;
    push_middle(commands, d, a)
}

/// Adds the middle of two points.
fn push_middle(commands: &mut Vec<Command>, a: PointId, b: PointId) -> Result<(), NoMemory>
    ensures { OnOk result (commands.new.items
        ≡ commands.old.items ++ Command.Midpoint a b ∷ []) }
{
    commands.push(Command::Midpoint { a, b })?;
    Ok(())
}
