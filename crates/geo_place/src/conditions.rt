//! The conditions and the goals of a program, tested at the points that are placed so far.

ghost use Rattle.std.specs.Prelude.{◌≡◌, ◌≢◌, ◌<◌, ◌≤◌, ◌+◌, ◌^◌, ◌⊎◌, ℕ, All, IfErr, IfOk};
ghost use Rattle.std.specs.Prelude.{IsErrOf, OnOk, Some, length, pos, slice_get};
ghost use Rattle.std.specs.List.{AllByRecursion};
ghost use Rattle.std.specs.Bool.{MatchBool};
ghost use Rattle.geo_place.specs.Inner.{FailsItem, FirstFails, GoalsCome, IsItemMet, IsItemNull};
ghost use Rattle.geo_place.specs.Inner.{item_reckoned};
ghost use Rattle.geo_place.specs.Reckonings.{Overflows};

use crate::errors::PlaceError;
use crate::sketch::Sketch;
use frac_laws::Frac;
use geo_conditions::Item;
use geo_terms::Terms;

/// The error of a condition, by its number, counted from 0. A number that does not fit is answered
/// by NoMemory.
fn unmet(number: usize) -> PlaceError
    ensures told { result ≡ PlaceError.NoMemory ⊎ (result ≡ PlaceError.Unmet (number + 1)) }
    ensures few { number < 4294967295 → result ≢ PlaceError.NoMemory }
{
    if number < u32::MAX as usize {
        PlaceError::Unmet(number as u32 + 1)
    } else {
        PlaceError::NoMemory
    }
}

/// Whether the number is 0.
fn is_zero(value: &Frac) -> bool
    ensures { MatchBool result (value.now.num ≡ pos 0) (value.now.num ≢ pos 0) }
{
    value.num == 0
}

/// Tests the condition of this number, counted from 0.
fn test_condition(
    sketch: &Sketch,
    terms: &Terms,
    item: &Item,
    number: usize,
) -> Result<(), PlaceError>
    requires { item.now.term.0 < length terms.now }
    ensures met { OnOk result (IsItemMet sketch.now terms.now item.now) }
    ensures fails { IfErr result (FailsItem sketch.now terms.now item.now (number + 1)) }
    ensures few { number < 4294967295 → ¬ IsErrOf result PlaceError.NoMemory }
{
    match sketch.term(terms, item.term) {
        Ok(value) => {
            if is_zero(&value) {
                return Err(unmet(number));
            }
            Ok(())
        }
        Err(_) => Err(PlaceError::TooLarge { line: item.line }),
    }
}

/// Tests conditions in order, where so many stand before them.
pub fn test_conditions(
    sketch: &Sketch,
    terms: &Terms,
    items: &[Item],
    earlier: usize,
) -> Result<(), PlaceError>
    requires stored { All (λ i. i.term.0 < length terms.now) items.now }
    requires few { earlier + length items.now < 2 ^ 63 }
    ensures met { OnOk result (AllByRecursion (IsItemMet sketch.now terms.now) items.now) }
    ensures fails { IfErr result (FirstFails sketch.now terms.now items.now earlier) }
    ensures few { earlier + length items.now ≤ 4294967295 → ¬ IsErrOf result PlaceError.NoMemory }
{
    for (k, item) in items.iter().enumerate() {
        test_condition(sketch, terms, item, earlier + k)?;
    }
    Ok(())
}

/// How many of the conditions are those of the lines up to this one, where so many are of the lines
/// before it.
pub fn conditions_through(conditions: &[Item], before: usize, line: u64) -> usize
    requires { before ≤ length conditions.now }
    ensures low { before ≤ result }
    ensures high { result ≤ length conditions.now }
    ensures these { (k : ℕ) (item : Item) → slice_get conditions.now k ≡ Some item → before ≤ k → k < result → item.line ≡ line }
    ensures next { (item : Item) → slice_get conditions.now result ≡ Some item → item.line ≢ line }
{
    let mut end = before;
    while end < conditions.len() && conditions[end].line == line {
        end += 1;
    }
    end
}

/// Whether the goal is 0.
fn is_null(sketch: &Sketch, terms: &Terms, goal: &Item) -> Result<bool, PlaceError>
    requires { goal.now.term.0 < length terms.now }
    ensures null { IfOk result (λ b. MatchBool b (IsItemNull sketch.now terms.now goal.now)
        (IsItemMet sketch.now terms.now goal.now)) }
    ensures refused { IfErr result (λ e. (e ≡ PlaceError.TooLarge goal.now.line)
        × Overflows (item_reckoned sketch.now terms.now goal.now)) }
{
    match sketch.term(terms, goal.term) {
        Ok(value) => Ok(is_zero(&value)),
        Err(_) => Err(PlaceError::TooLarge { line: goal.line }),
    }
}

/// Whether all goals are 0. They are reckoned in order, up to the first that is not.
pub fn all_hold(sketch: &Sketch, terms: &Terms, goals: &[Item]) -> Result<bool, PlaceError>
    requires stored { All (λ i. i.term.0 < length terms.now) goals.now }
    ensures { GoalsCome sketch.now terms.now goals.now result }
{
    for item in goals {
        if !is_null(sketch, terms, item)? {
            return Ok(false);
        }
    }
    Ok(true)
}
