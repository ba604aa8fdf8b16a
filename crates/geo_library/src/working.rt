//! The goals that the cited program asks, worked one after another.

ghost use Rattle.std.specs.Prelude.{◌≡◌, ◌<◌, ℕ, None, Some, IfErr, IfOk, MatchBool, OnOk, [], length, map};
ghost use Rattle.std.specs.List.{AllByRecursion};
ghost use Rattle.elim_apply.specs.Kept.{AreKnownRows};
ghost use Rattle.geo_library.specs.declared.errors.CiteError.TheVariants.{NotInstance};
ghost use Rattle.geo_library.specs.Inner.Asking.{asked_form};
ghost use Rattle.geo_library.specs.Inner.Counting.{IsChainWorked};
ghost use Rattle.geo_library.specs.Inner.GoalsWorked.{AreGoalsZero, IsBefore, IsFirstGoalMiss};
ghost use Rattle.geo_library.specs.Inner.GoalsWorked.{IsGoalMissed, TellsMiss};
ghost use Rattle.geo_terms.specs.Stores.{tree_of};
ghost use Rattle.geo_terms.specs.TermBounds.{IsTermBelow};

use crate::asking::AskedGoal;
use crate::chains::{Progress, work_chain};
use crate::errors::CiteError;
use elim_apply::KnownRows;
use geo_poly::lists::Vars;
use geo_terms::Steps;
use std::alloc::Global;

/// Works the chains of the goals, up to the line at which a condition is missing.
pub fn work_goals(
    alloc: Global,
    steps: &Steps,
    known: &Vars,
    goals: &[AskedGoal],
    missing: Option<u64>,
    now: Progress,
) -> Result<(), CiteError>
    requires stored { AllByRecursion (λ g. g.term.0 < length steps.now.nodes) goals.now }
    requires inside { AllByRecursion (λ g. IsTermBelow (length steps.now.steps) steps.now.params
        (tree_of steps.now.nodes g.term)) goals.now }
    ensures given { OnOk result (missing ≡ None) }
    ensures zero { OnOk result (AreGoalsZero steps.now known.now now.lines now.budget.left
        (map (asked_form steps.now.nodes) goals.now)) }
    ensures missed { IfErr result (TellsMiss (IsFirstGoalMiss steps.now known.now missing now.lines
        now.budget.left (map (asked_form steps.now.nodes) goals.now))) }
{
    let mut numbers = KnownRows::new(alloc)?;
    let mut now = now;
    for goal in goals {
        if !is_before(missing, goal.line) {
            return none_missing(missing);
        }
        work_goal(alloc, steps, known, &mut numbers, *goal, &mut now)?;
    }
    none_missing(missing)
}

/// Works the chain of a goal, which ends in 0.
fn work_goal(
    alloc: Global,
    steps: &Steps,
    known: &Vars,
    numbers: &mut KnownRows,
    goal: AskedGoal,
    now: &mut Progress,
) -> Result<(), CiteError>
    requires stored { goal.term.0 < length steps.now.nodes }
    requires inside { IsTermBelow (length steps.now.steps) steps.now.params
        (tree_of steps.now.nodes goal.term) }
    requires numbers { AreKnownRows steps.now numbers.old }
    ensures zero { OnOk result (IsChainWorked steps.now known.now now.old.lines
        now.old.budget.left (tree_of steps.now.nodes goal.term) now.new.lines now.new.budget.left []) }
    ensures missed { IfErr result (TellsMiss (IsGoalMissed steps.now known.now now.old.lines
        now.old.budget.left (asked_form steps.now.nodes goal))) }
    ensures numbers { AreKnownRows steps.now numbers.new }
{
    let end = work_chain(alloc, steps, known, numbers, goal.term, now)?;
    if end.is_zero() {
        Ok(())
    } else {
        Err(CiteError::NotInstance { line: goal.line })
    }
}

/// Whether the line comes before the one at which a condition is missing, if there is one.
fn is_before(missing: Option<u64>, line: u64) -> bool
    ensures { MatchBool result (IsBefore missing line) (IsBefore missing line → ⊥) }
{
    match missing {
        Some(first) => line < first,
        None => true,
    }
}

/// The refusal at the line at which a condition is missing, if there is one.
fn none_missing(missing: Option<u64>) -> Result<(), CiteError>
    ensures given { OnOk result (missing ≡ None) }
    ensures missing { IfErr result (λ e. (line : ℕ) × (missing ≡ Some line) × (e ≡ NotInstance line)) }
{
    match missing {
        Some(line) => Err(CiteError::NotInstance { line }),
        None => Ok(()),
    }
}
