//! The starts of chains.

ghost use Rattle.std.specs.Prelude.{◌≡◌, ◌-◌, ◌<◌, IfErr, IfOk, OnOk, length};
ghost use Rattle.geo_logs.specs.Places.{before_start};
ghost use Rattle.geo_logs.specs.Starts.{IsStarted, start_charge, start_of};
ghost use Rattle.geo_terms.specs.Stores.{tree_of};
ghost use Rattle.log_checker.specs.Inner.Lines.{IsReached, LeadsOn, RefusesAt, RefusesWhere};

use crate::due::{Due, Task};
use crate::ending::own_variable;
use crate::evidence::Evidence;
use crate::reasons::Reason;
use crate::stops::Stop;
use elim_apply::start_uncounted;
use geo_base::Budget;
use geo_conditions::Problem;
use geo_points::TermId;
use geo_poly::Poly;
use geo_terms::Steps;
use proof_log::Line;
use std::alloc::Global;

/// What is due behind the line, where the start of this task is due, the numerator of this term.
pub(crate) fn after_start_line(
    alloc: Global,
    problem: &Problem,
    evidence: &mut Evidence,
    task: Task,
    term: TermId,
    line: Line,
) -> Result<Due, Stop>
    requires { IsReached problem.now evidence.old (Due.Start task term) }
    ensures goes { IfOk result
        (LeadsOn problem.now evidence.old (Due.Start task term) line evidence.new) }
    ensures refused { IfErr result
        (RefusesWhere problem.now evidence.old (Due.Start task term) line) }
{
    let Line::Start(poly) = line else {
        return Err(Stop::Rejected(Reason::WrongLine));
    };
    let poly = right_start(alloc, &problem.steps, term, poly, &mut evidence.budget)?;
    let own = own_variable(&poly);
    Ok(Due::Step { task, own, poly })
}

/// The start of the term, where it is this polynomial.
fn right_start(
    alloc: Global,
    steps: &Steps,
    term: TermId,
    poly: Poly,
    budget: &mut Budget,
) -> Result<Poly, Stop>
    requires { term.0 < length steps.now.nodes }
    ensures result { IfOk result (λ q. q ≡ poly) }
    ensures started { IfOk result (λ q. IsStarted budget.old.left (tree_of steps.now.nodes term)
        × (q ≡ start_of (tree_of steps.now.nodes term))) }
    ensures paid { OnOk result (budget.new.left
        ≡ budget.old.left - start_charge (tree_of steps.now.nodes term)) }
    ensures refused { IfErr result (RefusesAt steps.now
        (before_start budget.old.left (tree_of steps.now.nodes term)) (Line.Start poly)) }
{
    let right = start_uncounted(alloc, steps, term, budget)?;
    if !right.same(&poly) {
        return Err(Stop::Rejected(Reason::WrongStart));
    }
    Ok(right)
}
