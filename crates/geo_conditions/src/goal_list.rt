//! Goals, each listed once: those of the ratios of a statement, and then the statement itself.

ghost use Rattle.std.specs.Prelude.{◌≡◌, ◌∷◌, ◌++◌, [], List, IfOk, OnOk};
ghost use Rattle.geo_program.specs.declared.commands.Command.{Command};
ghost use Rattle.geo_program.specs.declared.names.Name.{Name};
ghost use Rattle.geo_terms.specs.Stores.{IsStore, Store, tree_of};
ghost use Rattle.geo_conditions.specs.Inner.ConditionLists.{AreSidesBraced, HasBraces};
ghost use Rattle.geo_conditions.specs.Inner.GoalLists.{IsGoalList, IsGoalSourceKept, ListsGoals};
ghost use Rattle.geo_conditions.specs.Inner.GoalLists.{goals_given};
ghost use Rattle.geo_conditions.specs.Lists.{AreGoals};
ghost use Rattle.geo_conditions.specs.Statements.{pair_goals, ratio_goals};

use crate::term_set::TermSet;
use first_seen::FirstSeen;
use geo_points::{NoMemory, PointId, TermId};
use geo_program::Statement;
use geo_terms::{Node, Terms};
use std::alloc::Global;

/// The goals that are listed so far, in order, and the terms whose goals are all among them.
#[derive(Drop)]
pub struct GoalList {
    /// The goals.
    pub goals: FirstSeen<Statement>,
    /// The terms that were walked.
    pub walked: TermSet,
}

// What gives goals for pairs of points.
#[derive(Clone, Copy, Debug, PartialEq, Eq)]
enum GoalSource {
    // Nothing: there is no such goal.
    Nothing,
    // The statement itself gives this one.
    One(Statement),
    // An expression gives those of its ratios.
    Expression(TermId),
}

// That AB and CD are parallel.
fn parallel(a: PointId, b: PointId, c: PointId, d: PointId) -> GoalSource
    ensures { result ≡ GoalSource.One (Statement.Parallel a b c d) }
{
    GoalSource::One(Statement::Parallel { a, b, c, d })
}

// What gives the goals of the ratios of a statement, one after the other.
fn goal_sources(statement: Statement) -> (GoalSource, GoalSource)
    ensures goals { (nodes : Store) → pair_goals nodes statement
        ≡ goals_given nodes result.0 ++ goals_given nodes result.1 }
    ensures first { (nodes : Store) →
        AreSidesBraced nodes statement → IsGoalSourceKept nodes result.0 }
    ensures second { (nodes : Store) →
        AreSidesBraced nodes statement → IsGoalSourceKept nodes result.1 }
{
    match statement {
        Statement::Equal { e, f } => (GoalSource::Expression(e), GoalSource::Expression(f)),
        Statement::Harmonic { a, b, c, d } => (parallel(a, c, c, b), parallel(a, d, b, d)),
        _ => (GoalSource::Nothing, GoalSource::Nothing),
    }
}

impl GoalList {
    // No goals.
    fn new(alloc: Global) -> GoalList
        ensures goals { result.goals ≡ [] }
        ensures walked { result.walked ≡ [] }
    {
        GoalList {
            goals: FirstSeen::new(alloc),
            walked: TermSet::new(alloc),
        }
    }

    // Lists a goal, where it is not listed yet.
    fn add(&mut self, terms: &Terms, goal: Statement) -> Result<(), NoMemory>
        requires list { IsGoalList terms.now self.old }
        ensures { OnOk result (ListsGoals terms.now self.old self.new (goal ∷ [])) }
    {
        self.goals.insert(goal)?;
        Ok(())
    }

    // Lists the goals of the ratios of an expression, from left to right. A term that was walked
    // before gives no more. The calls stand at most as deep as braces do.
    #[cycle(ratios)]
    fn list_ratios(&mut self, terms: &Terms, e: TermId) -> Result<(), NoMemory>
        requires list { IsGoalList terms.now self.old }
        requires braces { HasBraces terms.now e }
        ensures { OnOk result
            (ListsGoals terms.now self.old self.new (ratio_goals (tree_of terms.now e))) }
    {
        if self.walked.contains(e) {
            return Ok(());
        }
        self.list_parts(terms, e)?;
        self.walked.insert(e)?;
        Ok(())
    }

    // Lists the goals of the ratios of an expression that is not marked as walked.
    #[cycle(ratios)]
    fn list_parts(&mut self, terms: &Terms, e: TermId) -> Result<(), NoMemory>
        requires list { IsGoalList terms.now self.old }
        requires braces { HasBraces terms.now e }
        ensures { OnOk result
            (ListsGoals terms.now self.old self.new (ratio_goals (tree_of terms.now e))) }
    {
        match terms.node(e) {
            Node::R(a, b, c, d) => self.add(terms, Statement::Parallel { a, b, c, d }),
            Node::Neg(f) => self.list_ratios(terms, f),
            Node::Add(f, g) => self.list_both(terms, f, g),
            Node::Sub(f, g) => self.list_both(terms, f, g),
            Node::Mul(f, g) => self.list_both(terms, f, g),
            Node::Div(f, g) => self.list_both(terms, f, g),
            _ => Ok(()),
        }
    }

    // Lists the goals of the ratios of two expressions.
    #[cycle(ratios)]
    fn list_both(&mut self, terms: &Terms, e: TermId, f: TermId) -> Result<(), NoMemory>
        requires list { IsGoalList terms.now self.old }
        requires first { HasBraces terms.now e }
        requires second { HasBraces terms.now f }
        ensures { OnOk result (ListsGoals terms.now self.old self.new
            (ratio_goals (tree_of terms.now e) ++ ratio_goals (tree_of terms.now f))) }
    {
        self.list_ratios(terms, e)?;
        self.list_ratios(terms, f)
    }

    // Lists what a source gives.
    fn list_source(&mut self, terms: &Terms, source: GoalSource) -> Result<(), NoMemory>
        requires list { IsGoalList terms.now self.old }
        requires kept { IsGoalSourceKept terms.now source }
        ensures { OnOk result
            (ListsGoals terms.now self.old self.new (goals_given terms.now source)) }
    {
        match source {
            GoalSource::Nothing => Ok(()),
            GoalSource::One(goal) => self.add(terms, goal),
            GoalSource::Expression(e) => self.list_ratios(terms, e),
        }
    }
}

/// The list of goals of a program with this statement.
pub fn list_goals(alloc: Global, terms: &Terms, statement: Statement) -> Result<GoalList, NoMemory>
    requires store { IsStore terms.now }
    requires sides { AreSidesBraced terms.now statement }
    ensures { IfOk result (λ list. (names : List Name) (commands : List Command) → AreGoals
        (record { names = names; nodes = terms.now; commands = commands; statement = statement })
        list.goals) }
{
    let mut list = GoalList::new(alloc);
    let (first, second) = goal_sources(statement);
    list.list_source(terms, first)?;
    list.list_source(terms, second)?;
    list.add(terms, statement)?;
    Ok(list)
}
