//! The conditions that the lines of the cited program ask.

ghost use Rattle.std.specs.Prelude.{◌≡◌, Contains, IfOk, MatchBool, map};
ghost use Rattle.std.specs.List.{AllByRecursion};
ghost use Rattle.geo_conditions.specs.Inner.ItemForms.{IsPrintableCondition};
ghost use Rattle.geo_library.specs.Inner.Listing.{IsFirstMissing, asked_text};

use geo_conditions::{Item, ListedCondition, condition_text};
use geo_points::NoMemory;
use geo_program::Printer;
use std::alloc::Global;

/// The line of the first condition whose text, as the printer has it, is none of the listed ones.
pub fn missing_condition(
    alloc: Global,
    printer: &Printer,
    conditions: &[ListedCondition],
    listed: &[Item],
) -> Result<Option<u64>, NoMemory>
    requires { AllByRecursion (λ i. IsPrintableCondition printer.now.names printer.now.terms.now
        i.condition) conditions.now }
    ensures { IfOk result (IsFirstMissing (map (λ i. i.text) listed.now)
        (asked_text printer.now.names printer.now.terms.now) conditions.now) }
{
    for asked in conditions {
        let text = condition_text(alloc, printer, asked.condition)?;
        if !is_listed(listed, &text.bytes) {
            return Ok(Some(asked.line));
        }
    }
    Ok(None)
}

/// Whether a condition of the list has the text.
fn is_listed(listed: &[Item], text: &[u8]) -> bool
    ensures { MatchBool result (Contains (map (λ i. i.text) listed.now) text.now)
        (Contains (map (λ i. i.text) listed.now) text.now → ⊥) }
{
    for item in listed {
        if item.text.bytes.as_slice() == text {
            return true;
        }
    }
    false
}
