//! The goals that the lines of the cited program ask.

ghost use Rattle.std.specs.Prelude.{◌≤◌, IfOk, IfSome, OnOk, length, map};
ghost use Rattle.std.specs.List.{AllByRecursion};
ghost use Rattle.std.specs.Option.{option_to_list};
ghost use Rattle.geo_conditions.specs.Inner.ItemTerms.{Keeps, terms_layout};
ghost use Rattle.geo_lowering.specs.Counting.{points_named};
ghost use Rattle.geo_program.specs.Forms.{IsStored};
ghost use Rattle.geo_library.specs.Inner.Asking.{AreAsked, ArePlaced, Asks, goal_forms};
ghost use Rattle.geo_library.specs.Inner.Asking.{goals_from, layout_at};
ghost use Rattle.geo_library.specs.Inner.Goals.{IsGoalWithin, goal_tree};

use crate::goal_terms::intern_goal;
use crate::goals::{Goal, command_goals};
use crate::places::Places;
use crate::renaming::Images;
use geo_conditions::{next_point, rename_terms};
use geo_points::{NoMemory, PointId, TermId};
use geo_program::Command;
use geo_terms::{Steps, Terms};
use std::alloc::Global;

/// A term of the citing program that a line of the cited one asks to be 0.
#[derive(Clone, Copy, Debug, PartialEq, Eq)]
pub struct AskedGoal {
    /// The line, from 1.
    pub line: u64,
    /// The term, in the store of the steps.
    pub term: TermId,
}

/// The goals of the commands, whose lines are counted from 1, over these images of their points and
/// parameters; the terms of the commands are those of the store `terms`.
pub fn image_goals(
    alloc: Global,
    steps: &mut Steps,
    terms: &Terms,
    commands: &[Command],
    images: &Images,
) -> Result<Vec<AskedGoal>, NoMemory>
    requires stored { AllByRecursion (IsStored terms.now) commands.now }
    requires few { points_named commands.now ≤ 512 }
    ensures keeps { OnOk result (Keeps steps.old steps.new) }
    ensures goals { IfOk result (λ asked. AreAsked steps.new.nodes asked.items (goals_from terms.now
        (terms_layout images.now.points.items images.now.params.items) 0 1 commands.now)) }
{
    let renamed = rename_terms(alloc, steps, terms, &images.points, &images.params)?;
    let places = Places {
        points: &images.points,
        params: &images.params,
        terms: &renamed,
    };
    asked_goals(alloc, steps, &places, terms, commands)
}

/// The goals of the commands, whose lines are counted from 1, over the places; the terms of the
/// commands are those of the store `terms`.
pub fn asked_goals(
    alloc: Global,
    steps: &mut Steps,
    places: &Places,
    terms: &Terms,
    commands: &[Command],
) -> Result<Vec<AskedGoal>, NoMemory>
    requires stored { AllByRecursion (IsStored terms.now) commands.now }
    requires few { points_named commands.now ≤ 512 }
    requires placed { ArePlaced terms.now steps.old.nodes places.now }
    ensures keeps { OnOk result (Keeps steps.old steps.new) }
    ensures goals { IfOk result (λ asked. AreAsked steps.new.nodes asked.items
        (goals_from terms.now (layout_at places.now) 0 1 commands.now)) }
{
    let mut asked = Vec::new(alloc);
    let mut x = 0;
    for (k, command) in commands.iter().enumerate() {
        let line = k as u64 + 1;
        let (first, second) = command_goals(PointId(x), *command);
        ask(steps, places, terms, &mut asked, line, first)?;
        ask(steps, places, terms, &mut asked, line, second)?;
        x = next_point(x, *command);
    }
    Ok(asked)
}

/// Asks a goal, if there is one.
fn ask(
    steps: &mut Steps,
    places: &Places,
    terms: &Terms,
    asked: &mut Vec<AskedGoal>,
    line: u64,
    goal: Option<Goal>,
) -> Result<(), NoMemory>
    requires within { IfSome goal (IsGoalWithin (length terms.now)) }
    requires placed { ArePlaced terms.now steps.old.nodes places.now }
    ensures { OnOk result (Asks steps.old steps.new asked.old.items asked.new.items
        (goal_forms (layout_at places.now) line (map (goal_tree terms.now) (option_to_list goal)))) }
{
    match goal {
        Some(goal) => ask_goal(steps, places, terms, asked, line, goal),
        None => Ok(()),
    }
}

/// Asks a goal.
fn ask_goal(
    steps: &mut Steps,
    places: &Places,
    terms: &Terms,
    asked: &mut Vec<AskedGoal>,
    line: u64,
    goal: Goal,
) -> Result<(), NoMemory>
    requires within { IsGoalWithin (length terms.now) goal }
    requires placed { ArePlaced terms.now steps.old.nodes places.now }
    ensures { OnOk result (Asks steps.old steps.new asked.old.items asked.new.items
        (goal_forms (layout_at places.now) line (map (goal_tree terms.now) (option_to_list (Some goal))))) }
{
    let term = intern_goal(steps, places.goal(goal))?;
    asked.push(AskedGoal { line, term })?;
    Ok(())
}
