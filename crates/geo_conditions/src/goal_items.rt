//! The items of listed goals.

ghost use Rattle.std.specs.Prelude.{IfOk, map};
ghost use Rattle.std.specs.List.{AllByRecursion};
ghost use Rattle.geo_terms.specs.Stores.{IsStore};
ghost use Rattle.geo_conditions.specs.Inner.ItemForms.{AreItems, ArePlaced, HasItem};
ghost use Rattle.geo_conditions.specs.Inner.ItemForms.{IsPrintableGoal, goal_item_form};
ghost use Rattle.geo_conditions.specs.Inner.ItemForms.{places_layout};
ghost use Rattle.geo_conditions.specs.Inner.ItemTerms.{Keeps};

use crate::interning::intern_item;
use crate::item_terms::{Places, goal_term};
use crate::items::{Goals, Item};
use geo_points::NoMemory;
use geo_program::{Printer, Statement};
use geo_terms::Steps;
use std::alloc::Global;

// The item of a goal.
fn goal_item(
    alloc: Global,
    printer: &Printer,
    steps: &mut Steps,
    places: &Places,
    goal: Statement,
    line: u64,
) -> Result<Item, NoMemory>
    requires store { IsStore printer.now.terms.now }
    requires printable { IsPrintableGoal printer.now.names printer.now.terms.now goal }
    requires placed { ArePlaced printer.now.terms.now steps.old.nodes places.now }
    ensures keeps { Keeps steps.old steps.new }
    ensures item { IfOk result (λ item. HasItem steps.old steps.new item (goal_item_form
        printer.now.names printer.now.terms.now (places_layout places.now) line goal)) }
{
    let text = printer.statement_text(alloc, goal)?;
    let term = goal_term(places.points, places.terms, goal);
    let id = intern_item(steps, term)?;
    Ok(Item {
        text,
        term: id,
        line,
    })
}

/// The items of the listed goals, in order, their terms in the store of the steps. All have this
/// line.
pub fn goal_items(
    alloc: Global,
    printer: &Printer,
    steps: &mut Steps,
    places: &Places,
    listed: &[Statement],
    line: u64,
) -> Result<Goals, NoMemory>
    requires store { IsStore printer.now.terms.now }
    requires printable { AllByRecursion (IsPrintableGoal printer.now.names printer.now.terms.now)
        listed.now }
    requires placed { ArePlaced printer.now.terms.now steps.old.nodes places.now }
    ensures keeps { Keeps steps.old steps.new }
    ensures items { IfOk result (λ goals. AreItems steps.new.nodes goals (map (goal_item_form
        printer.now.names printer.now.terms.now (places_layout places.now) line) listed.now)) }
{
    let mut items = Vec::new(alloc);
    for goal in listed {
        items.push(goal_item(alloc, printer, steps, places, *goal, line)?)?;
    }
    Ok(Goals { items })
}
