//! A log that goes on with a line which is judged by its text.

ghost use Rattle.std.specs.Prelude.{◌≡◌, ℕ, List, IfOk};
ghost use Rattle.log_checker.specs.Checkers.{IsAtWork};
ghost use Rattle.log_checker.specs.Inner.ByText.{StateGoesOn, StepGoesOn, WorkGoesOn};
ghost use Rattle.log_checker.specs.Inner.Judged.{IsReachedState};
ghost use Rattle.log_checker.specs.Inner.Lines.{IsNamedBy};
ghost use Rattle.proof_log.specs.Writable.{CanWritePolynomial, HasNoLineFeed};
ghost use Rattle.proof_log.specs.declared.log.Line.{Line};

use crate::by_text::{is_cut_of_zero, step_by_text};
use crate::due::Due;
use crate::evidence::Evidence;
use crate::known_problem::KnownProblem;
use crate::program_lines::{push_line, said};
use crate::state::State;
use crate::work::Work;
use geo_points::NoMemory;
use geo_poly::Poly;
use std::alloc::Global;

/// Whether the line with these bytes is one of the program, or that of a move or of a cut, which goes on. The state
/// is then the one behind it, else as it was.
pub(crate) fn state_passes(alloc: Global, state: &mut State, bytes: &[u8]) -> Result<bool, NoMemory>
    requires reached { (steps : ℕ) × IsReachedState steps state.old }
    requires one_line { HasNoLineFeed bytes.now }
    ensures { IfOk result (StateGoesOn state.old bytes.now state.new) }
{
    match state {
        State::Work(work) => work_passes(alloc, work, bytes),
        State::Program { text, .. } => match said(bytes) {
            Some(line) => {
                push_line(text, line)?;
                Ok(true)
            }
            None => Ok(false),
        },
        _ => Ok(false),
    }
}

/// The same of work behind the program.
fn work_passes(alloc: Global, work: &mut Work, bytes: &[u8]) -> Result<bool, NoMemory>
    requires { (steps : ℕ) × (good : List Line) × IsAtWork work.old steps good }
    ensures { IfOk result (WorkGoesOn work.old bytes.now work.new) }
{
    let Work {
        problem,
        evidence,
        due,
        ..
    } = work;
    match due {
        Due::Step { poly, .. } => step_passes(alloc, problem, evidence, poly, bytes),
        _ => Ok(false),
    }
}

/// The same of a chain: the polynomial is the one behind the line, and so are the steps left.
fn step_passes(
    alloc: Global,
    problem: &mut KnownProblem,
    evidence: &mut Evidence,
    poly: &mut Poly,
    bytes: &[u8],
) -> Result<bool, NoMemory>
    requires named { IsNamedBy problem.old.steps poly.old }
    requires written { CanWritePolynomial poly.old }
    ensures goes { IfOk result
        (StepGoesOn problem.old.steps bytes.now evidence.old poly.old evidence.new poly.new) }
    ensures problem { problem.new ≡ problem.old }
{
    if poly.is_zero() && bytes.starts_with(b"cut ") {
        return is_cut_of_zero(alloc, &evidence.known, bytes);
    }
    let left = evidence.budget.left;
    let KnownProblem { problem, numbers } = problem;
    let steps = &problem.steps;
    let found = step_by_text(alloc, steps, numbers, &evidence.known, left, poly, bytes)?;
    match found {
        Some((next, after)) => {
            *poly = next;
            evidence.budget.left = after;
            Ok(true)
        }
        None => Ok(false),
    }
}
