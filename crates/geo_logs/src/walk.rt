//! Where a log stands behind the lines of its program, and where it stands behind a line more.

ghost use Rattle.std.specs.Prelude.{◌≡◌, ◌-◌, [], IfOk, IfSome, None, OnOk, Option};
ghost use Rattle.geo_logs.specs.Behind.{behind, behind_chain, behind_start};
ghost use Rattle.geo_logs.specs.Behind.{condition_due, goal_due};
ghost use Rattle.geo_logs.specs.declared.walk.Task.{Task};
ghost use Rattle.geo_logs.specs.declared.walk.Walk.{Walk};
ghost use Rattle.geo_poly.specs.Polynomials.{Summands};
ghost use Rattle.geo_poly.specs.declared.variables.Var.{Var};
ghost use Rattle.proof_log.specs.Steps.{polynomial_on};
ghost use Rattle.proof_log.specs.declared.log.Line.{Line};

use crate::known_variable::only_variable;
use geo_base::Budget;
use geo_points::NoMemory;
use geo_poly::lists::{Polys, Vars};
use geo_poly::{Poly, Var};
use proof_log::{Line, Verdict};
use std::alloc::Global;
use std::mem;

/// A chain, by the number of its condition or goal, from 1.
#[derive(Clone, Copy, Debug, PartialEq, Eq)]
pub enum Task {
    /// That of a condition.
    Condition(u32),
    /// That of a goal.
    Goal(u32),
}

/// The line that is due next.
#[derive(Drop)]
pub enum DueLine {
    /// The header of a chain.
    Header(Task),
    /// The start of a chain.
    Start(Task),
    /// A step or the end of a chain, after this polynomial.
    Step {
        task: Task,
        /// The variable that the start of the chain is a multiple of, where there is one.
        own: Option<Var>,
        poly: Poly,
    },
    /// A sample, before this verdict.
    Sample(Verdict),
    /// This verdict.
    Verdict(Verdict),
    /// None: this verdict was the last line.
    Nothing(Verdict),
}

/// Where a log stands behind the lines of its program. Of the program it knows how many conditions
/// and goals there are; who judges a line, or makes one, knows the rest.
#[derive(Drop)]
pub struct Walk {
    /// How many conditions there are.
    pub conditions: u32,
    /// How many goals there are.
    pub goals: u32,
    /// The variables that conditions make known.
    pub known: Vars,
    /// The ends of chains that are not zero.
    pub ends: Polys,
    /// The steps that are left.
    pub budget: Budget,
    /// The line that is due.
    pub due: DueLine,
}

impl Walk {
    /// The place before the first chain.
    pub fn new(alloc: Global, conditions: u32, goals: u32, steps: u64) -> Walk
        ensures conditions { result.conditions ≡ conditions }
        ensures goals { result.goals ≡ goals }
        ensures known { result.known ≡ [] }
        ensures ends { result.ends ≡ [] }
        ensures left { result.budget.left ≡ steps }
        ensures due { result.due ≡ condition_due goals 0 conditions }
    {
        Walk {
            conditions,
            goals,
            known: Vars {
                items: Vec::new(alloc),
            },
            ends: Polys {
                items: Vec::new(alloc),
            },
            budget: Budget { left: steps },
            due: condition_due(conditions, goals, 0),
        }
    }

    /// The verdict, where it was the last line.
    pub fn verdict(&self) -> Option<Verdict>
        ensures { IfSome result (λ verdict. self.now.due ≡ DueLine.Nothing verdict) }
    {
        match &self.due {
            DueLine::Nothing(verdict) => Some(*verdict),
            _ => None,
        }
    }

    /// Goes on behind a line that may stand here and whose charge is paid. It judges nothing, and
    /// makes nothing.
    pub fn enter(&mut self, line: Line) -> Result<(), NoMemory>
        ensures { OnOk result (self.new ≡ behind self.old line) }
    {
        match &mut self.due {
            DueLine::Step { poly, .. } => match line.into_polynomial() {
                Some(next) => {
                    *poly = next;
                    Ok(())
                }
                None => self.leave(),
            },
            DueLine::Header(task) => {
                self.due = DueLine::Start(*task);
                Ok(())
            }
            DueLine::Start(task) => {
                self.due = start_entered(*task, line);
                Ok(())
            }
            DueLine::Sample(verdict) => {
                self.due = DueLine::Verdict(*verdict);
                Ok(())
            }
            DueLine::Verdict(verdict) => {
                self.due = DueLine::Nothing(*verdict);
                Ok(())
            }
            DueLine::Nothing(_) => Ok(()),
        }
    }

    /// Goes on behind the end of a chain.
    fn leave(&mut self) -> Result<(), NoMemory>
        ensures { (line : Line) → polynomial_on line ≡ None → OnOk result
            ((task : Task) (own : Option Var) (q : Summands)
            → self.old.due ≡ DueLine.Step task own q → self.new ≡ behind self.old line) }
    {
        let due = mem::replace(&mut self.due, DueLine::Nothing(Verdict::Proved));
        if let DueLine::Step { task, own, poly } = due {
            self.due = self.chain_left(task, own, poly)?;
        }
        Ok(())
    }

    /// What is due behind a chain with this end, which is kept where it is not zero.
    fn chain_left(&mut self, task: Task, own: Option<Var>, end: Poly) -> Result<DueLine, NoMemory>
        ensures { IfOk result
            (λ due. record self.new { due = due } ≡ behind_chain self.old task own end) }
    {
        match task {
            Task::Condition(k) => {
                if end.is_zero() {
                    return Ok(DueLine::Verdict(Verdict::Impossible(k)));
                }
                if let Some(v) = own {
                    self.known.items.push(v)?;
                }
                self.ends.items.push(end)?;
                Ok(condition_due(self.conditions, self.goals, k))
            }
            Task::Goal(k) => {
                if end.is_zero() {
                    return Ok(goal_due(self.goals, k));
                }
                self.ends.items.push(end)?;
                Ok(DueLine::Sample(Verdict::False(k)))
            }
        }
    }
}

/// What is due where so many conditions are worked.
fn condition_due(conditions: u32, goals: u32, worked: u32) -> DueLine
    ensures { result ≡ condition_due goals worked (conditions - worked) }
{
    if worked < conditions {
        DueLine::Header(Task::Condition(worked + 1))
    } else {
        goal_due(goals, 0)
    }
}

/// What is due where so many goals are worked.
fn goal_due(goals: u32, worked: u32) -> DueLine
    ensures { result ≡ goal_due worked (goals - worked) }
{
    if worked < goals {
        DueLine::Header(Task::Goal(worked + 1))
    } else {
        DueLine::Sample(Verdict::Proved)
    }
}

/// What is due behind the start of a chain.
fn start_entered(task: Task, line: Line) -> DueLine
    ensures { (w : Walk) → w.due ≡ DueLine.Start task
        → record w { due = result } ≡ behind_start w task (polynomial_on line) }
{
    match line.into_polynomial() {
        Some(poly) => DueLine::Step {
            task,
            own: only_variable(&poly),
            poly,
        },
        None => DueLine::Start(task),
    }
}
