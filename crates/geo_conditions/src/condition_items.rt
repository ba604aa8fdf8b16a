//! The items of listed conditions.

ghost use Rattle.std.specs.Prelude.{◌≡◌, IfOk, map};
ghost use Rattle.std.specs.List.{AllByRecursion};
ghost use Rattle.geo_program.specs.FormTexts.{form_text};
ghost use Rattle.geo_conditions.specs.Inner.ConditionLists.{condition_of};
ghost use Rattle.geo_conditions.specs.Inner.ItemForms.{AreItems, ArePlaced, HasItem};
ghost use Rattle.geo_conditions.specs.Inner.ItemForms.{IsPrintableCondition, condition_item_form};
ghost use Rattle.geo_conditions.specs.Inner.ItemForms.{places_layout};
ghost use Rattle.geo_conditions.specs.Inner.ItemTerms.{Keeps};
ghost use Rattle.geo_conditions.specs.Lists.{condition_form};

use crate::conditions::{Condition, ListedCondition};
use crate::interning::intern_item;
use crate::item_terms::{Places, condition_term};
use crate::items::{Conditions, Item};
use geo_base::Text;
use geo_points::NoMemory;
use geo_program::Printer;
use geo_terms::Steps;
use std::alloc::Global;

/// The text of a condition.
pub fn condition_text(
    alloc: Global,
    printer: &Printer,
    condition: Condition,
) -> Result<Text, NoMemory>
    requires { IsPrintableCondition printer.now.names printer.now.terms.now condition }
    ensures { IfOk result (λ text. text ≡ form_text printer.now.names
        (condition_form (condition_of printer.now.terms.now condition))) }
{
    match condition {
        Condition::Different { a, b } => printer.points_text(alloc, b"different", &[a, b]),
        Condition::NotCollinear { a, b, c } => {
            printer.points_text(alloc, b"not_collinear", &[a, b, c])
        }
        Condition::NotParallel { a, b, c, d } => {
            printer.points_text(alloc, b"not_parallel", &[a, b, c, d])
        }
        Condition::Crossing { a, b } => printer.lines_text(alloc, b"crossing", a, b),
        Condition::Nonzero(e) => printer.side_text(alloc, b"nonzero", e),
    }
}

// The item of a condition.
fn condition_item(
    alloc: Global,
    printer: &Printer,
    steps: &mut Steps,
    places: &Places,
    listed: ListedCondition,
) -> Result<Item, NoMemory>
    requires printable { IsPrintableCondition printer.now.names printer.now.terms.now
        listed.condition }
    requires placed { ArePlaced printer.now.terms.now steps.old.nodes places.now }
    ensures keeps { Keeps steps.old steps.new }
    ensures item { IfOk result (λ item. HasItem steps.old steps.new item (condition_item_form
        printer.now.names printer.now.terms.now (places_layout places.now) listed)) }
{
    let text = condition_text(alloc, printer, listed.condition)?;
    let term = condition_term(places.points, places.lines, places.terms, listed.condition);
    let id = intern_item(steps, term)?;
    Ok(Item {
        text,
        term: id,
        line: listed.line,
    })
}

/// The items of the listed conditions, in order, their terms in the store of the steps.
pub fn condition_items(
    alloc: Global,
    printer: &Printer,
    steps: &mut Steps,
    places: &Places,
    listed: &[ListedCondition],
) -> Result<Conditions, NoMemory>
    requires printable { AllByRecursion (λ i.
        IsPrintableCondition printer.now.names printer.now.terms.now i.condition) listed.now }
    requires placed { ArePlaced printer.now.terms.now steps.old.nodes places.now }
    ensures keeps { Keeps steps.old steps.new }
    ensures items { IfOk result (λ conditions. AreItems steps.new.nodes conditions
        (map (condition_item_form printer.now.names printer.now.terms.now
        (places_layout places.now)) listed.now)) }
{
    let mut items = Vec::new(alloc);
    for condition in listed {
        items.push(condition_item(alloc, printer, steps, places, *condition)?)?;
    }
    Ok(Conditions { items })
}
