//! The lowered form of a program.

ghost use Rattle.std.specs.Prelude.{◌≡◌, ◌<◌, ◌≤◌, [], IfOk, OnOk, length, map};
ghost use Rattle.geo_program.specs.Programs.{source_of};
ghost use Rattle.geo_terms.specs.Constructions.{IsConstruction};
ghost use Rattle.geo_lowering.specs.Counting.{numbers_had, points_past};
ghost use Rattle.geo_lowering.specs.Lowering.{IsLowered, layout_of, steps_of};
ghost use Rattle.geo_lowering.specs.Parts.{form_of, layout_at};
ghost use Rattle.geo_lowering.specs.Inner.Renaming.{AreRenamed};
ghost use Rattle.geo_lowering.specs.StepForms.{step_form};
ghost use Rattle.geo_lowering.specs.Inner.StepNumbers.{AreFractions};

use crate::layouts::Places;
use crate::lists::{After, Lines, Params, Points};
use crate::places::count_points;
use crate::pushing::push_steps;
use crate::renaming::rename_terms;
use crate::step_lists::StepLists;
use crate::step_numbers::{Fractions, intern_fractions, number_of, second_number};
use crate::version::Version;
use geo_points::{NoMemory, TermId};
use geo_program::Program;
use geo_terms::Steps;
use std::alloc::Global;

/// A program as the steps of a construction, and where what has a name in the program stands in it.
#[derive(Drop)]
pub struct Lowered {
    /// The steps, hidden points among them.
    pub steps: Steps,
    /// The numbers of the named points among all points.
    pub points: Points,
    /// The two points of each line.
    pub lines: Lines,
    /// The numbers of the parameters among all numbers.
    pub params: Params,
    /// How many points there are after each command.
    pub after: After,
}

// The steps of all commands, where there are none yet.
fn push_commands(
    alloc: Global,
    version: Version,
    steps: &mut Steps,
    program: &Program,
    places: &Places,
    terms: &[TermId],
    fractions: Fractions,
) -> Result<(), NoMemory>
    requires places { layout_at places.now ≡ layout_of version program.now.commands }
    requires empty { steps.old.steps ≡ [] }
    requires params { steps.old.params ≡ 0 }
    requires terms { AreRenamed (layout_at places.now) program.now.terms steps.old.nodes terms.now }
    requires count { length terms.now ≡ length program.now.terms }
    requires fractions { AreFractions steps.old.nodes fractions }
    ensures steps { OnOk result
        (map (step_form steps.new.nodes) steps.new.steps ≡ steps_of version (source_of program.now)) }
    ensures params { OnOk result (steps.new.params ≡ numbers_had program.now.commands) }
{
    for command in program.commands.as_slice() {
        let next = steps.count();
        let number = number_of(steps, places, terms, fractions.one, command)?;
        let second = second_number(terms, fractions.one, command);
        let lists = StepLists {
            version,
            places,
            fractions,
            number,
            second,
            next,
        };
        let list = lists.list(alloc, command)?;
        push_steps(steps, &list)?;
    }
    Ok(())
}

/// The lowered form of a program: each command makes its hidden points and then the point that it
/// names. Terms are interned once; a store with no room for them left is answered by NoMemory.
pub fn lower(alloc: Global, program: &Program) -> Result<Lowered, NoMemory>
    ensures { IfOk result (λ l. IsLowered Version.Two (source_of program.now) (form_of l)) }
{
    lower_by(alloc, Version::Two, program)
}

/// The lowered form of a program for logs of version 1, in which `weights` makes a hidden point.
pub fn lower_old(alloc: Global, program: &Program) -> Result<Lowered, NoMemory>
    ensures { IfOk result (λ l. IsLowered Version.One (source_of program.now) (form_of l)) }
{
    lower_by(alloc, Version::One, program)
}

// The lowered form of a program by this version.
fn lower_by(alloc: Global, version: Version, program: &Program) -> Result<Lowered, NoMemory>
    ensures { IfOk result (λ l. IsLowered version (source_of program.now) (form_of l)) }
{
    let commands = program.commands.as_slice();
    let places = Places::new(alloc, version, commands)?;
    let after = count_points(alloc, version, commands)?;
    let mut steps = Steps::new(alloc)?;
    let terms = rename_terms(alloc, &mut steps, &program.terms, &places)?;
    let fractions = intern_fractions(&mut steps)?;
    push_commands(
        alloc, version, &mut steps, program, &places, &terms, fractions,
    )?;
    // From here on it is known that the steps are a construction.
    prove!(steps.count() <= 512);
    let Places {
        points,
        lines,
        params,
    } = places;
    Ok(Lowered {
        steps,
        points,
        lines,
        params,
        after,
    })
}
