//! A log behind the lines of its program, judged line by line.

ghost use Rattle.std.specs.Prelude.{◌≡◌, ℕ, List, [], Some, ◌≤◌, IfErr, IfOk, length};
ghost use Rattle.elim_apply.specs.Kept.{AreKnownRows};
ghost use Rattle.geo_program.specs.CanonicalText.{canonical_text};
ghost use Rattle.geo_program.specs.Programs.{Spells, source_of};
ghost use Rattle.log_checker.specs.Checkers.{IsAtWork, head_of, subject_of};
ghost use Rattle.log_checker.specs.declared.evidence.Evidence.{Evidence};
ghost use Rattle.geo_conditions.specs.declared.problem.Problem.{Problem};
ghost use Rattle.proof_log.specs.declared.log.Line.{Line};
ghost use Rattle.log_checker.specs.Inner.Lines.{GoesOn, IsReached, IsReady, IsRefusedAfter};
ghost use Rattle.log_checker.specs.Inner.Lines.{LeadsOn, RefusesWhere, Tells, TellsNoProgram};
ghost use Rattle.proof_log.specs.Writable.{IsWritable};

use crate::chaining::after_chain_line;
use crate::due::Due;
use crate::evidence::Evidence;
use crate::heading::{after_condition_header, after_goal_header, condition_due};
use crate::known_problem::KnownProblem;
use crate::reasons::Reason;
use crate::sampling::test_sample;
use crate::starting::after_start_line;
use crate::stops::Stop;
use crate::versions::problem_by;
use elim_apply::KnownRows;
use geo_conditions::Problem;
use geo_lowering::Version;
use geo_parser::{ParseError, parse};
use geo_program::{Program, print};
use proof_log::{Line, Verdict};
use std::alloc::Global;

/// A program, with what the lines behind it leave.
#[derive(Drop)]
pub(crate) struct Work {
    /// The version of the log.
    pub version: Version,
    /// The program.
    pub program: Program,
    /// What is to be proved of it.
    pub problem: KnownProblem,
    /// What the chains leave.
    pub evidence: Evidence,
    /// What is due.
    pub due: Due,
}

/// The work by this version, of the program whose canonical text the bytes are.
pub(crate) fn begun_work(
    alloc: Global,
    version: Version,
    bytes: &[u8],
    steps: u64,
) -> Result<Work, Stop>
    requires { length bytes.now ≤ 67108864 }
    ensures version { IfOk result (λ w. w.version ≡ version) }
    ensures program { IfOk result (λ w. canonical_text (source_of w.program) ≡ bytes.now) }
    ensures begun { IfOk result (λ w. IsAtWork w steps []) }
    ensures refused { IfErr result (TellsNoProgram bytes.now) }
{
    let program = canonical_program(alloc, bytes)?;
    let problem = problem_by(alloc, version, &program)?;
    let evidence = Evidence::new(alloc, steps);
    let due = condition_due(&problem, 0);
    let numbers = KnownRows::new(alloc)?;
    Ok(Work {
        version,
        program,
        problem: KnownProblem { problem, numbers },
        evidence,
        due,
    })
}

/// The work behind the line.
pub(crate) fn work_after(alloc: Global, work: Work, line: Line) -> Result<Work, Stop>
    requires reached { (steps : ℕ) × (good : List Line) × IsAtWork work steps good }
    requires writable { IsWritable line }
    ensures goes { IfOk result (GoesOn work line) }
    ensures refused { (steps : ℕ) (good : List Line) → IsAtWork work steps good
        → IfErr result (Tells (IsRefusedAfter
        (subject_of (head_of work) work.problem)
        steps good (Some line))) }
{
    let Work {
        version,
        program,
        problem,
        mut evidence,
        due,
    } = work;
    let KnownProblem {
        problem,
        mut numbers,
    } = problem;
    let due = after_line(alloc, &problem, &mut numbers, &mut evidence, due, line)?;
    Ok(Work {
        version,
        program,
        problem: KnownProblem { problem, numbers },
        evidence,
        due,
    })
}

/// The program whose canonical text the bytes are.
fn canonical_program(alloc: Global, bytes: &[u8]) -> Result<Program, Stop>
    requires { length bytes.now ≤ 67108864 }
    ensures spelt { IfOk result (Spells bytes.now) }
    ensures program { IfOk result (λ p. canonical_text (source_of p) ≡ bytes.now) }
    ensures refused { IfErr result (TellsNoProgram bytes.now) }
{
    let program = match parse(alloc, bytes) {
        Ok(program) => program,
        Err(ParseError::Syntax(_)) => return Err(Stop::Rejected(Reason::WrongProgram)),
        Err(ParseError::NoMemory) => return Err(Stop::NoMemory),
    };
    let text = print(alloc, &program)?;
    if text.bytes.as_slice() != bytes {
        return Err(Stop::Rejected(Reason::WrongProgram));
    }
    Ok(program)
}

/// What is due behind the line.
fn after_line(
    alloc: Global,
    problem: &Problem,
    numbers: &mut KnownRows,
    evidence: &mut Evidence,
    due: Due,
    line: Line,
) -> Result<Due, Stop>
    requires ready { IsReady problem.now }
    requires numbers { AreKnownRows problem.now.steps numbers.old }
    requires reached { IsReached problem.now evidence.old due }
    requires writable { IsWritable line }
    ensures goes { IfOk result (LeadsOn problem.now evidence.old due line evidence.new) }
    ensures refused { IfErr result (RefusesWhere problem.now evidence.old due line) }
    ensures numbers { AreKnownRows problem.now.steps numbers.new }
{
    match due {
        Due::Condition(index) => after_condition_header(problem, index, &line),
        Due::Goal(index) => after_goal_header(problem, index, &line),
        Due::Start { task, term } => {
            after_start_line(alloc, problem, evidence, task, term, line)
        }
        Due::Step { task, own, poly } => {
            after_chain_line(alloc, problem, numbers, evidence, task, own, poly, line)
        }
        Due::Sample(verdict) => after_sample(alloc, problem, evidence, verdict, line),
        Due::Verdict(verdict) => after_verdict(verdict, line),
        Due::Nothing(_) => Err(Stop::Rejected(Reason::WrongLine)),
    }
}

/// What is due behind the line, where a sample is due before this verdict.
fn after_sample(
    alloc: Global,
    problem: &Problem,
    evidence: &mut Evidence,
    verdict: Verdict,
    line: Line,
) -> Result<Due, Stop>
    requires { IsWritable line }
    ensures goes { IfOk result
        (LeadsOn problem.now evidence.old (Due.Sample verdict) line evidence.new) }
    ensures refused { IfErr result
        (RefusesWhere problem.now evidence.old (Due.Sample verdict) line) }
{
    let Line::Sample(values) = line else {
        return Err(Stop::Rejected(Reason::WrongLine));
    };
    let Evidence { ends, budget, .. } = evidence;
    test_sample(alloc, &problem.steps, &values, ends, budget)?;
    Ok(Due::Verdict(verdict))
}

/// What is due behind the line, where this verdict is due.
fn after_verdict(due: Verdict, line: Line) -> Result<Due, Stop>
    ensures goes { (q : Problem) (e : Evidence)
        → IfOk result (LeadsOn q e (Due.Verdict due) line e) }
    ensures refused { (q : Problem) (e : Evidence)
        → IfErr result (RefusesWhere q e (Due.Verdict due) line) }
{
    let Line::Verdict(verdict) = line else {
        return Err(Stop::Rejected(Reason::WrongLine));
    };
    if verdict != due {
        return Err(Stop::Rejected(Reason::WrongVerdict));
    }
    Ok(Due::Nothing(due))
}
