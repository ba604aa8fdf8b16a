//! The goal of a relation that takes the place of a program's statement.

ghost use Rattle.std.specs.Prelude.{◌≡◌, ◌+◌, ◌<◌, IfOk, length, map};
ghost use Rattle.geo_program.specs.Relations.{IsRelation};
ghost use Rattle.geo_program.specs.WellFormed.{Source};
ghost use Rattle.geo_lowering.specs.Lowering.{point_places};
ghost use Rattle.geo_lowering.specs.declared.version.Version.{Version};
ghost use Rattle.geo_terms.specs.Stores.{IsStore};
ghost use Rattle.geo_conditions.specs.Inner.ItemForms.{IsPrintableGoal};
ghost use Rattle.geo_conditions.specs.Inner.ItemTerms.{Keeps};
ghost use Rattle.geo_conditions.specs.Lists.{goal_item, item_form};

use crate::interning::intern_item;
use crate::item_terms::goal_term;
use crate::items::Item;
use geo_lowering::Points;
use geo_points::NoMemory;
use geo_program::{Printer, Statement};
use geo_terms::Steps;
use std::alloc::Global;

/// The goal of a relation, which has this line, its term in the store of `terms`. The lists say
/// where what has a name stands in the lowered form; the points alone are looked at.
pub fn relation_item(
    alloc: Global,
    printer: &Printer,
    points: &Points,
    terms: &mut Steps,
    statement: Statement,
    line: u64,
) -> Result<Item, NoMemory>
    requires relation { IsRelation statement }
    requires store { IsStore printer.now.terms.now }
    requires printable { IsPrintableGoal printer.now.names printer.now.terms.now statement }
    ensures keeps { Keeps terms.old terms.new }
    ensures stored { IfOk result (λ item. item.term.0 < length terms.new.nodes) }
    ensures item { (version : Version) (p : Source)
        → p.names ≡ printer.now.names → p.nodes ≡ printer.now.terms.now
        → line ≡ length p.commands + 1
        → map (λ a. a.0) points.now ≡ point_places version 0 p.commands
        → IfOk result (λ item.
        item_form terms.new.nodes item ≡ goal_item version p statement) }
{
    let text = printer.statement_text(alloc, statement)?;
    let wanted = goal_term(points.items.as_slice(), &[], statement);
    let term = intern_item(terms, wanted)?;
    Ok(Item { text, term, line })
}
