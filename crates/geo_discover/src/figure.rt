//! What all candidates of a search have in common, worked once, before the first of them.

ghost use Rattle.std.specs.Prelude.{◌≡◌, ◌+◌, ◌≤◌, ℕ, [], IfOk, IfSome, length};
ghost use Rattle.elim_apply.specs.Kept.{AreKnownRows};
ghost use Rattle.geo_conditions.specs.Lists.{IsProblem};
ghost use Rattle.geo_conditions.specs.Problems.{form_of_problem};
ghost use Rattle.geo_lowering.specs.declared.version.Version.TheVariants.{Two};
ghost use Rattle.geo_program.specs.Programs.{program_text, source_of};
ghost use Rattle.geo_chain.specs.FirstLines.{program_lines};
ghost use Rattle.geo_chain.specs.Parts.{CanWrite, items_of};
ghost use Rattle.geo_chain.specs.Tasks.{HasReadyItems, conditions_from};
ghost use Rattle.geo_chain.specs.declared.frame.Frame.TheVariants.{Full};
ghost use Rattle.geo_discover.specs.Inner.Searching.{IsCandidate};
ghost use Rattle.geo_logs.specs.Ends.{text_length};
ghost use Rattle.geo_discover.specs.Inner.Sharing.{AreWorked, IsFigureOf};
ghost use Rattle.geo_discover.specs.Inner.Sharing.{stopped_by};

use elim_apply::KnownRows;
use geo_base::{Budget, SureSink};
use geo_chain::{Findings, Frame, LogWriter, ProveError, Size, work_conditions, write_first_lines};
use geo_conditions::Problem;
use geo_lowering::Version;
use geo_points::NoMemory;
use geo_program::{Program, Statement};
use log_checker::versions::problem_by;
use std::alloc::Global;

/// What all candidates have in common.
#[derive(Drop)]
pub(crate) struct Figure {
    /// The steps that each has.
    pub steps: u64,
    /// The lowered steps and the conditions. Its goals are those of one candidate.
    pub problem: Problem,
    /// The numbers of the steps, as far as they are known.
    pub numbers: KnownRows,
    /// What the chains of the conditions have shown.
    pub findings: Findings,
    /// What these chains came to.
    pub conditions: Worked,
    /// How many bytes the lines before the chains have at most, without the statement's text, if
    /// that is known.
    pub front: Option<u64>,
}

/// What the chains of the conditions came to.
#[derive(Drop)]
pub(crate) enum Worked {
    /// All are met: the text of their lines, how many lines these are, and the steps that are left.
    Met {
        text: SureSink,
        lines: u64,
        left: u64,
    },
    /// A stop, and how many bytes the text has up to it and with its line.
    Stopped {
        error: ProveError,
        bytes: u64,
    },
    /// Nothing that serves all candidates: one is never met, or a text is too long.
    Unshared,
}

/// What the candidates of a program have in common. This is one of them.
pub(crate) fn figure_of(
    alloc: Global,
    program: &Program,
    steps: u64,
    statement: Statement,
) -> Result<Figure, NoMemory>
    requires candidate { IsCandidate (source_of program.now) statement }
    requires short { length (program_text program.now) ≤ 67108864 }
    ensures figure { IfOk result (IsFigureOf (source_of program.now)) }
    ensures steps { IfOk result (λ figure. figure.steps ≡ steps) }
{
    let candidate = program.with_statement(alloc, statement)?;
    let problem = problem_by(alloc, Version::Two, &candidate)?;
    let mut numbers = KnownRows::new(alloc)?;
    let mut findings = Findings::new(alloc);
    let conditions = conditions_of(
        alloc,
        &candidate,
        &problem,
        steps,
        &mut findings,
        &mut numbers,
    );
    let front = front_bytes(alloc, &candidate);
    Ok(Figure {
        steps,
        problem,
        numbers,
        findings,
        conditions,
        front,
    })
}

/// How many bytes the lines before the chains of a candidate's log have, if it can have them.
fn front_bytes(alloc: Global, candidate: &Program) -> Option<u64>
    ensures { IfSome result (λ bytes.
        bytes ≡ text_length (program_lines (source_of candidate.now))) }
{
    let mut log = LogWriter::new();
    let mut text = SureSink::new(alloc);
    match write_first_lines(alloc, candidate, &mut log, &mut text) {
        Ok(()) => Some(text.bytes().len() as u64),
        Err(_) => None,
    }
}

/// What the chains of the conditions come to, behind the first lines of a candidate's log.
fn conditions_of(
    alloc: Global,
    candidate: &Program,
    problem: &Problem,
    steps: u64,
    findings: &mut Findings,
    numbers: &mut KnownRows,
) -> Worked
    requires problem { IsProblem Two (source_of candidate.now) (form_of_problem problem.now)
        problem.now.conditions problem.now.goals }
    requires numbers { AreKnownRows problem.now.steps numbers.old }
    requires known { findings.old.known ≡ [] }
    requires ends { findings.old.ends ≡ [] }
    ensures worked { AreWorked problem.now.steps
        (items_of problem.now.steps.nodes problem.now.conditions) steps
        (length candidate.now.commands + 2) findings.new.known findings.new.ends result }
    ensures numbers { AreKnownRows problem.now.steps numbers.new }
{
    let mut log = LogWriter::new();
    let mut front = SureSink::new(alloc);
    match write_first_lines(alloc, candidate, &mut log, &mut front) {
        Ok(()) => conditions_behind(alloc, problem, steps, findings, numbers, log),
        Err(_) => Worked::Unshared,
    }
}

/// The same, where these lines are written.
fn conditions_behind(
    alloc: Global,
    problem: &Problem,
    steps: u64,
    findings: &mut Findings,
    numbers: &mut KnownRows,
    mut log: LogWriter,
) -> Worked
    requires ready { HasReadyItems problem.now }
    requires writable { CanWrite Full problem.now.steps
        (conditions_from Full problem.now 0 [] [] steps) log.size }
    requires written { (bytes : ℕ) × (log.size ≡ Size.Written bytes) }
    requires numbers { AreKnownRows problem.now.steps numbers.old }
    requires known { findings.old.known ≡ [] }
    requires ends { findings.old.ends ≡ [] }
    ensures worked { AreWorked problem.now.steps
        (items_of problem.now.steps.nodes problem.now.conditions) steps log.lines
        findings.new.known findings.new.ends result }
    ensures numbers { AreKnownRows problem.now.steps numbers.new }
{
    let before = log.lines;
    let mut text = SureSink::new(alloc);
    let mut budget = Budget { left: steps };
    match work_conditions(
        alloc,
        Frame::Full,
        problem,
        findings,
        numbers,
        &mut budget,
        &mut log,
        &mut text,
    ) {
        Ok(None) => Worked::Met {
            text,
            lines: log.lines - before,
            left: budget.left,
        },
        Ok(Some(_)) => Worked::Unshared,
        Err(error) => shared_stop(error, text.bytes().len() as u64),
    }
}

/// What serves all candidates where a condition stops so, behind so many bytes.
fn shared_stop(error: ProveError, bytes: u64) -> Worked
    ensures { result ≡ stopped_by error bytes }
{
    match error {
        ProveError::Spent { .. } | ProveError::TooLarge { .. } => Worked::Stopped { error, bytes },
        ProveError::TooLong | ProveError::WriteFault | ProveError::NoMemory => Worked::Unshared,
    }
}
