//! The lines of a chain behind its start.

ghost use Rattle.std.specs.Prelude.{◌≡◌, ◌≢◌, IfErr, IfOk};
ghost use Rattle.elim_apply.specs.Kept.{AreKnownRows};
ghost use Rattle.geo_logs.specs.Chains.{IsEnd};
ghost use Rattle.geo_logs.specs.Places.{in_chain};
ghost use Rattle.log_checker.specs.Inner.Lines.{IsNamedBy, IsReached, IsReady, IsStepLine, LeadsOn};
ghost use Rattle.log_checker.specs.Inner.Lines.{RefusesAt, RefusesWhere};
ghost use Rattle.log_checker.specs.declared.stops.Stop.TheVariants.{NoMemory as OutOfMemory};
ghost use Rattle.proof_log.specs.Writable.{IsWritable};

use crate::cutting::after_cut;
use crate::due::{Due, Task};
use crate::ending::is_end;
use crate::evidence::Evidence;
use crate::heading::{condition_due, goal_due};
use crate::moving::{after_move, ratio_move};
use crate::reasons::Reason;
use crate::stops::Stop;
use elim_apply::{KnownRows, Move};
use geo_base::Budget;
use geo_conditions::Problem;
use geo_points::NoMemory;
use geo_poly::lists::Vars;
use geo_poly::{Poly, Var};
use geo_terms::Steps;
use proof_log::{Line, Verdict};
use std::alloc::Global;

/// What is due behind the line, where one of a chain is due.
pub(crate) fn after_chain_line(
    alloc: Global,
    problem: &Problem,
    numbers: &mut KnownRows,
    evidence: &mut Evidence,
    task: Task,
    own: Option<Var>,
    before: Poly,
    line: Line,
) -> Result<Due, Stop>
    requires ready { IsReady problem.now }
    requires numbers { AreKnownRows problem.now.steps numbers.old }
    requires reached { IsReached problem.now evidence.old (Due.Step task own before) }
    requires writable { IsWritable line }
    ensures goes { IfOk result
        (LeadsOn problem.now evidence.old (Due.Step task own before) line evidence.new) }
    ensures refused { IfErr result
        (RefusesWhere problem.now evidence.old (Due.Step task own before) line) }
    ensures numbers { AreKnownRows problem.now.steps numbers.new }
{
    if let Line::End = line {
        return after_end(problem, evidence, task, own, before);
    }
    let Evidence { known, budget, .. } = evidence;
    let poly = after_step(alloc, &problem.steps, numbers, known, budget, &before, line)?;
    Ok(Due::Step { task, own, poly })
}

/// The polynomial after the line of a move or of a cut.
fn after_step(
    alloc: Global,
    steps: &Steps,
    numbers: &mut KnownRows,
    known: &Vars,
    budget: &mut Budget,
    before: &Poly,
    line: Line,
) -> Result<Poly, Stop>
    requires numbers { AreKnownRows steps.now numbers.old }
    requires named { IsNamedBy steps.now before.now }
    requires writable { IsWritable line }
    requires not_end { line ≢ Line.End }
    ensures step { IfOk result
        (IsStepLine steps.now known.now budget.old.left before.now line budget.new.left) }
    ensures refused { IfErr result
        (RefusesAt steps.now (in_chain known.now budget.old.left before.now) line) }
    ensures numbers { AreKnownRows steps.now numbers.new }
{
    match line {
        Line::Ratio {
            var,
            lemma,
            at,
            poly,
        } => {
            let mv = ratio_move(var, lemma, at);
            after_move(alloc, steps, numbers, before, &mv, &poly, budget)
        }
        Line::Point { at, poly } => {
            let mv = Move::Point(at);
            after_move(alloc, steps, numbers, before, &mv, &poly, budget)
        }
        Line::Coords(poly) => {
            let mv = Move::Coords;
            after_move(alloc, steps, numbers, before, &mv, &poly, budget)
        }
        Line::Cut { by, poly } => after_cut(alloc, known, before, &by, &poly),
        _ => Err(Stop::Rejected(Reason::WrongLine)),
    }
}

/// What is due behind the end of a chain.
fn after_end(
    problem: &Problem,
    evidence: &mut Evidence,
    task: Task,
    own: Option<Var>,
    last: Poly,
) -> Result<Due, Stop>
    ensures goes { IfOk result
        (LeadsOn problem.now evidence.old (Due.Step task own last) Line.End evidence.new) }
    ensures refused { IfErr result
        (RefusesWhere problem.now evidence.old (Due.Step task own last) Line.End) }
{
    if !is_end(&last) {
        return Err(Stop::Rejected(Reason::NotEnded));
    }
    match task {
        Task::Condition(k) => Ok(after_condition(problem, evidence, k, own, last)?),
        Task::Goal(k) => Ok(after_goal(problem, evidence, k, own, last)?),
    }
}

/// What is due behind the chain of a condition: the verdict where it ends in zero, else the next
/// chain.
fn after_condition(
    problem: &Problem,
    evidence: &mut Evidence,
    k: u32,
    own: Option<Var>,
    last: Poly,
) -> Result<Due, NoMemory>
    requires { IsEnd last }
    ensures { IfOk result (LeadsOn problem.now evidence.old
        (Due.Step (Task.Condition k) own last) Line.End evidence.new) }
{
    if last.is_zero() {
        return Ok(Due::Verdict(Verdict::Impossible(k)));
    }
    evidence.add(own, last)?;
    Ok(condition_due(problem, k as usize))
}

/// What is due behind the chain of a goal: the next chain where it ends in zero, else the sample.
fn after_goal(
    problem: &Problem,
    evidence: &mut Evidence,
    k: u32,
    own: Option<Var>,
    last: Poly,
) -> Result<Due, NoMemory>
    requires { IsEnd last }
    ensures { IfOk result (LeadsOn problem.now evidence.old
        (Due.Step (Task.Goal k) own last) Line.End evidence.new) }
{
    if last.is_zero() {
        return Ok(goal_due(problem, k as usize));
    }
    evidence.add(None, last)?;
    Ok(Due::Sample(Verdict::False(k)))
}
