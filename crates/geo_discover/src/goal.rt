//! The goal of one candidate.

ghost use Rattle.std.specs.Prelude.{◌≡◌, ◌<◌, ◌∷◌, [], All, IfOk, length, map};
ghost use Rattle.geo_conditions.specs.Lists.{goal_item, item_form};
ghost use Rattle.geo_lowering.specs.Lowering.{point_places};
ghost use Rattle.geo_lowering.specs.declared.version.Version.TheVariants.{Two};
ghost use Rattle.geo_program.specs.Programs.{source_of};
ghost use Rattle.geo_discover.specs.FoundTexts.{candidate_text};
ghost use Rattle.geo_discover.specs.Inner.Searching.{IsCandidate};

use geo_conditions::{Goals, relation_item};
use geo_lowering::Points;
use geo_points::NoMemory;
use geo_program::{Printer, Program, Statement};
use geo_terms::Steps;
use std::alloc::Global;

/// The goal of a candidate, with its term in a store of its own.
#[derive(Drop)]
pub(crate) struct Goal {
    /// The store of the term. It has no steps.
    pub terms: Steps,
    /// The goal alone.
    pub goals: Goals,
    /// How many bytes its text has.
    pub bytes: u64,
}

/// The goal of a candidate of the program. The points are those of its lowered form.
pub(crate) fn goal_of(
    alloc: Global,
    program: &Program,
    printer: &Printer,
    points: &Points,
    statement: Statement,
) -> Result<Goal, NoMemory>
    requires candidate { IsCandidate (source_of program.now) statement }
    requires names { printer.now.names ≡ program.now.names }
    requires terms { printer.now.terms.now ≡ program.now.terms }
    requires points { map (λ a. a.0) points.now ≡ point_places Two 0 program.now.commands }
    ensures stored { IfOk result (λ goal.
        All (λ item. item.term.0 < length goal.terms.nodes) goal.goals) }
    ensures item { IfOk result (λ goal. map (item_form goal.terms.nodes) goal.goals
        ≡ goal_item Two (source_of program.now) statement ∷ []) }
    ensures bytes { IfOk result (λ goal.
        goal.bytes ≡ length (candidate_text (source_of program.now) statement)) }
{
    // `len` also says that the store is valid.
    let _ = program.terms.len();
    let line = program.commands.as_slice().len() as u64 + 1;
    let mut terms = Steps::new(alloc)?;
    let item = relation_item(alloc, printer, points, &mut terms, statement, line)?;
    let bytes = item.text.bytes.len() as u64;
    let mut items = Vec::new(alloc);
    items.push(item)?;
    Ok(Goal {
        terms,
        goals: Goals { items },
        bytes,
    })
}
