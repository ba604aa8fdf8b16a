//! The conditions and goals of a lowered program, with their texts, terms and lines.

ghost use Rattle.std.specs.Prelude.{IfOk, map};
ghost use Rattle.std.specs.List.{AllByRecursion};
ghost use Rattle.geo_program.specs.Programs.{source_of};
ghost use Rattle.geo_terms.specs.Stores.{IsStore};
ghost use Rattle.geo_conditions.specs.Inner.ItemForms.{AreItems, ArePlaced, HasPlaces};
ghost use Rattle.geo_conditions.specs.Inner.ItemForms.{IsPrintableCondition, IsPrintableGoal};
ghost use Rattle.geo_conditions.specs.Inner.ItemForms.{condition_item_form, goal_item_form};
ghost use Rattle.geo_conditions.specs.Inner.ItemForms.{places_layout};
ghost use Rattle.geo_conditions.specs.Inner.ItemTerms.{Keeps};
ghost use Rattle.geo_conditions.specs.Lists.{AreStoredConditions, AreStoredGoals};

use crate::condition_items::condition_items;
use crate::conditions::ListedCondition;
use crate::goal_items::goal_items;
use crate::goal_list::list_goals;
use crate::item_terms::Places;
use crate::items::{Conditions, Goals};
use crate::program_conditions::list_program;
use crate::renaming::rename_terms;
use geo_lowering::{Lines, Params, Points, Version};
use geo_points::NoMemory;
use geo_program::{Printer, Program, Statement};
use geo_terms::Steps;
use std::alloc::Global;

// The items of listed conditions and goals. All goals have this line.
fn make_items(
    alloc: Global,
    printer: &Printer,
    steps: &mut Steps,
    places: &Places,
    rows: &[ListedCondition],
    ratios: &[Statement],
    line: u64,
) -> Result<(Conditions, Goals), NoMemory>
    requires store { IsStore printer.now.terms.now }
    requires rows { AllByRecursion (λ i.
        IsPrintableCondition printer.now.names printer.now.terms.now i.condition) rows.now }
    requires ratios { AllByRecursion (IsPrintableGoal printer.now.names printer.now.terms.now)
        ratios.now }
    requires placed { ArePlaced printer.now.terms.now steps.old.nodes places.now }
    ensures keeps { Keeps steps.old steps.new }
    ensures conditions { IfOk result (λ both. AreItems steps.new.nodes both.0
        (map (condition_item_form printer.now.names printer.now.terms.now
        (places_layout places.now)) rows.now)) }
    ensures goals { IfOk result (λ both. AreItems steps.new.nodes both.1 (map (goal_item_form
        printer.now.names printer.now.terms.now (places_layout places.now) line) ratios.now)) }
{
    let conditions = condition_items(alloc, printer, steps, places, rows)?;
    let goals = goal_items(alloc, printer, steps, places, ratios, line)?;
    Ok((conditions, goals))
}

/// The conditions and the goals of a program, their terms in the store of its lowered steps, which
/// get terms and nothing else. The lists say where what has a name stands among the steps.
pub fn list_items(
    alloc: Global,
    program: &Program,
    steps: &mut Steps,
    points: &Points,
    lines: &Lines,
    params: &Params,
) -> Result<(Conditions, Goals), NoMemory>
    ensures keeps { Keeps steps.old steps.new }
    ensures conditions { (version : Version)
        → HasPlaces version program.now.commands points.now lines.now params.now
        → IfOk result (λ both.
        AreStoredConditions version (source_of program.now) steps.new.nodes both.0) }
    ensures goals { (version : Version)
        → HasPlaces version program.now.commands points.now lines.now params.now
        → IfOk result (λ both.
        AreStoredGoals version (source_of program.now) steps.new.nodes both.1) }
{
    // `len` also says that the store is valid.
    let _ = program.terms.len();
    let commands = program.commands.as_slice();
    let line = commands.len() as u64 + 1;
    let printer = Printer::new(alloc, program)?;
    let listed = list_program(alloc, &program.terms, commands, program.statement)?;
    let rows = listed.items.as_slice();
    let wanted = list_goals(alloc, &program.terms, program.statement)?;
    let ratios = wanted.goals.as_slice();
    let points = points.items.as_slice();
    let lines = lines.items.as_slice();
    let params = params.items.as_slice();
    let renamed = rename_terms(alloc, steps, &program.terms, points, params)?;
    let terms = renamed.as_slice();
    let places = Places {
        points,
        lines,
        params,
        terms,
    };
    make_items(alloc, &printer, steps, &places, rows, ratios, line)
}
