//! The headers of chains, and what is due behind a chain.

ghost use Rattle.std.specs.Prelude.{◌≡◌, ◌<◌, ◌↔◌, ℕ, List, suc, IfErr, IfOk, IsTrue, Some, length};
ghost use Rattle.std.specs.Prelude.{slice_get};
ghost use Rattle.geo_logs.specs.Places.{before_line};
ghost use Rattle.geo_terms.specs.Constructions.{Construction};
ghost use Rattle.log_checker.specs.Checkers.{AreConditionsDue, AreGoalsDue, Head, IsDue};
ghost use Rattle.log_checker.specs.Checkers.{subject_of};
ghost use Rattle.log_checker.specs.Inner.Lines.{IsReady, LeadsOn, RefusesAt, RefusesWhere};
ghost use Rattle.log_checker.specs.declared.evidence.Evidence.{Evidence};
ghost use Rattle.proof_log.specs.declared.log.Line.{Line};

use crate::due::{Due, Task};
use crate::reasons::Reason;
use crate::stops::Stop;
use geo_base::Text;
use geo_conditions::{Item, Problem};
use proof_log::{Line, Verdict};

/// What is due where the conditions from this index on are still to be worked.
pub(crate) fn condition_due(problem: &Problem, index: usize) -> Due
    ensures { (head : Head) (steps : ℕ) (good : List Line) (e : Evidence)
        → AreConditionsDue (subject_of head problem.now) steps
        good e.known e.ends e.budget.left index
        → IsDue (subject_of head problem.now) steps e result good }
{
    if index < problem.conditions.items.len() {
        Due::Condition(index)
    } else {
        goal_due(problem, 0)
    }
}

/// What is due where the goals from this index on are still to be worked.
pub(crate) fn goal_due(problem: &Problem, index: usize) -> Due
    ensures { (head : Head) (steps : ℕ) (good : List Line) (e : Evidence)
        → AreGoalsDue (subject_of head problem.now) steps
        good e.known e.ends e.budget.left index
        → IsDue (subject_of head problem.now) steps e result good }
{
    if index < problem.goals.items.len() {
        Due::Goal(index)
    } else {
        Due::Sample(Verdict::Proved)
    }
}

/// What is due behind the line, where the header of the condition at this index is due.
pub(crate) fn after_condition_header(
    problem: &Problem,
    index: usize,
    line: &Line,
) -> Result<Due, Stop>
    requires ready { IsReady problem.now }
    requires index { index < length problem.now.conditions }
    ensures goes { (e : Evidence)
        → IfOk result (LeadsOn problem.now e (Due.Condition index) line.now e) }
    ensures refused { (e : Evidence)
        → IfErr result (RefusesWhere problem.now e (Due.Condition index) line.now) }
{
    let item = condition_at(problem, index);
    let task = condition_task(item, index, line)?;
    let term = item.term;
    Ok(Due::Start { task, term })
}

/// What is due behind the line, where the header of the goal at this index is due.
pub(crate) fn after_goal_header(problem: &Problem, index: usize, line: &Line) -> Result<Due, Stop>
    requires ready { IsReady problem.now }
    requires index { index < length problem.now.goals }
    ensures goes { (e : Evidence)
        → IfOk result (LeadsOn problem.now e (Due.Goal index) line.now e) }
    ensures refused { (e : Evidence)
        → IfErr result (RefusesWhere problem.now e (Due.Goal index) line.now) }
{
    let item = goal_at(problem, index);
    let task = goal_task(item, index, line)?;
    let term = item.term;
    Ok(Due::Start { task, term })
}

/// The condition at this index.
fn condition_at(problem: &Problem, index: usize) -> &Item
    requires { index < length problem.now.conditions }
    ensures { slice_get problem.now.conditions index ≡ Some result.now }
{
    &problem.conditions.items[index]
}

/// The goal at this index.
fn goal_at(problem: &Problem, index: usize) -> &Item
    requires { index < length problem.now.goals }
    ensures { slice_get problem.now.goals index ≡ Some result.now }
{
    &problem.goals.items[index]
}

/// The chain that begins with the line, where it is that of the condition at this index.
fn condition_task(item: &Item, index: usize, line: &Line) -> Result<Task, Stop>
    ensures task { IfOk result (λ t. t ≡ Task.Condition (suc index)) }
    ensures line { IfOk result (λ _. line.now ≡ Line.Condition (suc index) item.now.text) }
    ensures refused { (c : Construction) → IfErr result
        (RefusesAt c (before_line (Line.Condition (suc index) item.now.text)) line.now) }
{
    match line {
        Line::Condition { k, text } => {
            if !is_head(item, index, *k, text) {
                return Err(Stop::Rejected(Reason::WrongChain));
            }
            Ok(Task::Condition(*k))
        }
        Line::Goal { .. } => Err(Stop::Rejected(Reason::WrongChain)),
        _ => Err(Stop::Rejected(Reason::WrongLine)),
    }
}

/// The chain that begins with the line, where it is that of the goal at this index.
fn goal_task(item: &Item, index: usize, line: &Line) -> Result<Task, Stop>
    ensures task { IfOk result (λ t. t ≡ Task.Goal (suc index)) }
    ensures line { IfOk result (λ _. line.now ≡ Line.Goal (suc index) item.now.text) }
    ensures refused { (c : Construction) → IfErr result
        (RefusesAt c (before_line (Line.Goal (suc index) item.now.text)) line.now) }
{
    match line {
        Line::Goal { k, text } => {
            if !is_head(item, index, *k, text) {
                return Err(Stop::Rejected(Reason::WrongChain));
            }
            Ok(Task::Goal(*k))
        }
        Line::Condition { .. } => Err(Stop::Rejected(Reason::WrongChain)),
        _ => Err(Stop::Rejected(Reason::WrongLine)),
    }
}

/// Whether the number and the text are those of the item at this index.
fn is_head(item: &Item, index: usize, k: u32, text: &Text) -> bool
    ensures { IsTrue result ↔ ((k ≡ suc index) × (text.now ≡ item.now.text)) }
{
    k > 0 && k as u64 - 1 == index as u64 && text.bytes.as_slice() == item.text.bytes.as_slice()
}
