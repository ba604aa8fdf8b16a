//! What the log of one candidate says of it.

ghost use Rattle.std.specs.Prelude.{◌≡◌, ◌≢◌, ◌+◌, ◌≤◌, ℕ, [], All, IfErr, IfOk, IfSome, IsSomeAnd, List};
ghost use Rattle.std.specs.Prelude.{OnOk, Some, length};
ghost use Rattle.elim_apply.specs.Kept.{AreKnownRows};
ghost use Rattle.geo_logs.specs.Ends.{text_length};
ghost use Rattle.geo_poly.specs.Specialise.{NoneZero};
ghost use Rattle.geo_program.specs.Programs.{program_text, source_of};
ghost use Rattle.geo_program.specs.Relations.{with_statement};
ghost use Rattle.geo_chain.specs.FirstLines.{program_lines};
ghost use Rattle.geo_chain.specs.Halting.{Finishes, Halts};
ghost use Rattle.geo_chain.specs.Parts.{CanWrite};
ghost use Rattle.geo_chain.specs.Sizes.{bytes_of};
ghost use Rattle.geo_chain.specs.Tasks.{HasReadyItems, IsItemReady, conditions_from, goals_from};
ghost use Rattle.geo_chain.specs.Written.{Writes, first_state, state};
ghost use Rattle.geo_chain.specs.declared.frame.Frame.TheVariants.{Full};
ghost use Rattle.geo_chain.specs.declared.size.Size.{Size};
ghost use Rattle.geo_discover.specs.Inner.Searching.{IsCandidate, IsJudged, judgement_by};
ghost use Rattle.geo_discover.specs.Inner.Searching.{unwritten_judgement};
ghost use Rattle.geo_discover.specs.Inner.Sharing.{IsFigureOf, IsGoalOf, IsSaid};

use crate::figure::{Figure, Worked};
use crate::fixing::lines_before;
use crate::goal::{Goal, goal_of};
use crate::texts::sum_within;
use elim_apply::KnownRows;
use geo_base::{Budget, SureSink};
use geo_chain::{Findings, Frame, LogWriter, ProveError, Size, work, work_rest, write_first_lines};
use geo_conditions::Problem;
use geo_lowering::Version;
use geo_points::NoMemory;
use geo_program::{Printer, Program, Statement};
use geo_terms::Steps;
use log_checker::versions::problem_by;
use proof_log::Verdict;
use std::alloc::Global;

/// What a log says of its candidate.
#[derive(Drop)]
pub(crate) enum Judgement {
    /// It is a relation. This is its log.
    Relation(SureSink),
    /// It is open: its log ends so.
    Open(ProveError),
    /// It fails somewhere.
    Fails,
    /// This condition is never met.
    Impossible(u32),
}

/// What its log says of a candidate, which takes the place of the program's statement.
pub(crate) fn judge(
    alloc: Global,
    program: &Program,
    printer: &Printer,
    figure: &mut Figure,
    statement: Statement,
) -> Result<Judgement, NoMemory>
    requires candidate { IsCandidate (source_of program.now) statement }
    requires short { length (program_text program.now) ≤ 67108864 }
    requires names { printer.now.names ≡ program.now.names }
    requires terms { printer.now.terms.now ≡ program.now.terms }
    requires figure { IsFigureOf (source_of program.now) figure.old }
    ensures judged { IfOk result
        (IsJudged (source_of program.now) figure.old.steps statement) }
    ensures figure { OnOk result (IsFigureOf (source_of program.now) figure.new) }
    ensures steps { figure.new.steps ≡ figure.old.steps }
{
    let goal = goal_of(alloc, program, printer, &figure.problem.points, statement)?;
    judge_goal(alloc, program, figure, statement, &goal)
}

/// The same, where its goal is made. A log that does not prove the goal is not written, where its
/// text is surely within the limit.
fn judge_goal(
    alloc: Global,
    program: &Program,
    figure: &mut Figure,
    statement: Statement,
    goal: &Goal,
) -> Result<Judgement, NoMemory>
    requires candidate { IsCandidate (source_of program.now) statement }
    requires short { length (program_text program.now) ≤ 67108864 }
    requires figure { IsFigureOf (source_of program.now) figure.old }
    requires goal { IsGoalOf (source_of program.now) statement goal.now }
    ensures judged { IfOk result
        (IsJudged (source_of program.now) figure.old.steps statement) }
    ensures figure { OnOk result (IsFigureOf (source_of program.now) figure.new) }
    ensures steps { figure.new.steps ≡ figure.old.steps }
{
    if let Some(judgement) = judge_by_lengths(alloc, program, figure, statement, goal) {
        return Ok(judgement);
    }
    match judge_shared(alloc, program, figure, statement, goal)? {
        Some(judgement) => Ok(judgement),
        None => judge_whole(alloc, program, figure.steps, statement),
    }
}

/// What is said by a log of whose text nothing is made, where that is enough and the text is surely
/// within the limit.
fn judge_by_lengths(
    alloc: Global,
    program: &Program,
    figure: &mut Figure,
    statement: Statement,
    goal: &Goal,
) -> Option<Judgement>
    requires candidate { IsCandidate (source_of program.now) statement }
    requires figure { IsFigureOf (source_of program.now) figure.old }
    requires goal { IsGoalOf (source_of program.now) statement goal.now }
    ensures judged { IfSome result
        (IsJudged (source_of program.now) figure.old.steps statement) }
    ensures figure { IsFigureOf (source_of program.now) figure.new }
    ensures steps { figure.new.steps ≡ figure.old.steps }
{
    match front_of(figure.front, goal.bytes) {
        Some(front) => judge_behind_front(alloc, program, figure, statement, goal, front),
        None => None,
    }
}

/// How many bytes the lines before the chains have at most, with a statement whose text has so
/// many, where that is known and within the limit.
fn front_of(front: Option<u64>, statement: u64) -> Option<u64>
    ensures { IfSome result (λ bytes. IsSomeAnd front (λ n. bytes ≡ n + statement)) }
{
    match front {
        Some(front) => sum_within(front, statement),
        None => None,
    }
}

/// The same, where the lines before the chains have so many bytes at most.
fn judge_behind_front(
    alloc: Global,
    program: &Program,
    figure: &mut Figure,
    statement: Statement,
    goal: &Goal,
    front: u64,
) -> Option<Judgement>
    requires candidate { IsCandidate (source_of program.now) statement }
    requires figure { IsFigureOf (source_of program.now) figure.old }
    requires goal { IsGoalOf (source_of program.now) statement goal.now }
    requires front { text_length
        (program_lines (with_statement (source_of program.now) statement)) ≤ front }
    ensures judged { IfSome result
        (IsJudged (source_of program.now) figure.old.steps statement) }
    ensures figure { IsFigureOf (source_of program.now) figure.new }
    ensures steps { figure.new.steps ≡ figure.old.steps }
{
    match &figure.conditions {
        Worked::Met { text, lines, left } => {
            let before = lines_before(program);
            let log = bounded_log(before, *lines, front, text.bytes().len() as u64)?;
            judge_unwritten(
                alloc,
                &figure.problem.steps,
                goal,
                *left,
                &mut figure.findings,
                &mut figure.numbers,
                log,
            )
        }
        Worked::Stopped { error, bytes } => match sum_within(front, *bytes) {
            Some(_) => Some(Judgement::Open(*error)),
            None => None,
        },
        Worked::Unshared => None,
    }
}

/// A log with so many lines, whose text has at most so many bytes, as sums of two, where that is
/// within the limits.
fn bounded_log(before: u64, lines: u64, front: u64, text: u64) -> Option<LogWriter>
    ensures lines { IfSome result (λ log. log.lines ≡ before + lines) }
    ensures size { IfSome result (λ log. log.size ≡ Size.Bounded (front + text)) }
{
    let bytes = sum_within(front, text)?;
    let lines = sum_within(before, lines)?;
    Some(LogWriter {
        lines,
        size: Size::Bounded(bytes),
    })
}

/// What is said by a log that is made from the beginning.
fn judge_whole(
    alloc: Global,
    program: &Program,
    steps: u64,
    statement: Statement,
) -> Result<Judgement, NoMemory>
    requires candidate { IsCandidate (source_of program.now) statement }
    requires short { length (program_text program.now) ≤ 67108864 }
    ensures { IfOk result (IsJudged (source_of program.now) steps statement) }
{
    let candidate = program.with_statement(alloc, statement)?;
    let problem = problem_by(alloc, Version::Two, &candidate)?;
    let mut log = LogWriter::new();
    let mut text = SureSink::new(alloc);
    match write_first_lines(alloc, &candidate, &mut log, &mut text) {
        Ok(()) => judge_chains(alloc, &problem, steps, log, text),
        Err(error) => opened(error),
    }
}

/// The same, where its first lines are written.
fn judge_chains(
    alloc: Global,
    problem: &Problem,
    steps: u64,
    mut log: LogWriter,
    mut text: SureSink,
) -> Result<Judgement, NoMemory>
    requires ready { HasReadyItems problem.now }
    requires writable { CanWrite Full problem.now.steps
        (conditions_from Full problem.now 0 [] [] steps) log.size }
    ensures { IfOk result (IsSaid problem.now.steps
        (conditions_from Full problem.now 0 [] [] steps) (state log (Some text) 0)) }
{
    let mut numbers = KnownRows::new(alloc)?;
    let mut budget = Budget { left: steps };
    match work(
        alloc,
        Frame::Full,
        problem,
        &mut numbers,
        &mut budget,
        &mut log,
        &mut text,
    ) {
        Ok(verdict) => Ok(judgement_of(verdict, text)),
        Err(error) => opened(error),
    }
}

/// What is said by a log that is put together from what the figure has, where that is enough and
/// within the limit of its text.
fn judge_shared(
    alloc: Global,
    program: &Program,
    figure: &mut Figure,
    statement: Statement,
    goal: &Goal,
) -> Result<Option<Judgement>, NoMemory>
    requires candidate { IsCandidate (source_of program.now) statement }
    requires short { length (program_text program.now) ≤ 67108864 }
    requires figure { IsFigureOf (source_of program.now) figure.old }
    requires goal { IsGoalOf (source_of program.now) statement goal.now }
    ensures judged { IfOk result (λ judgement. IfSome judgement
        (IsJudged (source_of program.now) figure.old.steps statement)) }
    ensures figure { OnOk result (IsFigureOf (source_of program.now) figure.new) }
    ensures steps { figure.new.steps ≡ figure.old.steps }
{
    let candidate = program.with_statement(alloc, statement)?;
    let mut log = LogWriter::new();
    let mut text = SureSink::new(alloc);
    match write_first_lines(alloc, &candidate, &mut log, &mut text) {
        Ok(()) => judge_behind(alloc, program, figure, statement, goal, log, text),
        Err(_) => Ok(None),
    }
}

/// The same, where its first lines are written.
fn judge_behind(
    alloc: Global,
    program: &Program,
    figure: &mut Figure,
    statement: Statement,
    goal: &Goal,
    mut log: LogWriter,
    mut text: SureSink,
) -> Result<Option<Judgement>, NoMemory>
    requires candidate { IsCandidate (source_of program.now) statement }
    requires figure { IsFigureOf (source_of program.now) figure.old }
    requires goal { IsGoalOf (source_of program.now) statement goal.now }
    requires first { Writes (program_lines (with_statement (source_of program.now) statement))
        (first_state (Some []) 0) (state log (Some text) 0) }
    ensures judged { IfOk result (λ judgement. IfSome judgement
        (IsJudged (source_of program.now) figure.old.steps statement)) }
    ensures figure { OnOk result (IsFigureOf (source_of program.now) figure.new) }
    ensures steps { figure.new.steps ≡ figure.old.steps }
{
    match &figure.conditions {
        Worked::Met {
            text: again,
            lines,
            left,
        } => match log.write_again(&mut text, *lines, again.bytes()) {
            Ok(()) => {
                let judgement = judge_written(
                    alloc,
                    &figure.problem.steps,
                    goal,
                    *left,
                    &mut figure.findings,
                    &mut figure.numbers,
                    log,
                    text,
                )?;
                Ok(Some(judgement))
            }
            Err(_) => Ok(None),
        },
        Worked::Stopped { error, bytes } if log.has_room(*bytes) => {
            Ok(Some(Judgement::Open(*error)))
        }
        _ => Ok(None),
    }
}

/// What is said of a goal by a log whose lines are not written, where so many steps are left, the
/// goal is not proved and the text is surely within the limit. What the chains of the conditions
/// have shown stays as it is.
fn judge_unwritten(
    alloc: Global,
    steps: &Steps,
    goal: &Goal,
    left: u64,
    findings: &mut Findings,
    numbers: &mut KnownRows,
    mut log: LogWriter,
) -> Option<Judgement>
    requires ready { All (IsItemReady steps.now goal.now.terms.nodes) goal.now.goals }
    requires numbers { AreKnownRows steps.now numbers.old }
    requires nonzero { NoneZero findings.old.ends }
    requires bounded { (bytes : ℕ) × (log.size ≡ Size.Bounded bytes) }
    ensures said { (size : Size) (held : List ℕ) (bytes : ℕ) → log.size ≡ Size.Bounded bytes
        → bytes_of size ≤ bytes → IfSome result (IsSaid steps.now (goals_from Full steps.now goal.now.terms.nodes
        goal.now.goals 0 findings.old.known findings.old.ends left)
        (record { lines = log.lines; size = size; held = Some held; faults = 0 })) }
    ensures numbers { AreKnownRows steps.now numbers.new }
    ensures known { findings.new.known ≡ findings.old.known }
    ensures ends { findings.new.ends ≡ findings.old.ends }
{
    let mut nothing = SureSink::new(alloc);
    let verdict = work_goal(
        alloc,
        steps,
        goal,
        left,
        findings,
        numbers,
        &mut log,
        &mut nothing,
    );
    unwritten_judgement(verdict)
}

/// What is said by a log that is not written, where that needs no text.
fn unwritten_judgement(verdict: Result<Verdict, ProveError>) -> Option<Judgement>
    ensures { result ≡ unwritten_judgement verdict }
{
    match verdict {
        Ok(Verdict::False(_)) => Some(Judgement::Fails),
        Err(ProveError::Spent { line }) => Some(Judgement::Open(ProveError::Spent { line })),
        Err(ProveError::TooLarge { line, which }) => {
            Some(Judgement::Open(ProveError::TooLarge { line, which }))
        }
        _ => None,
    }
}

/// The same by a log that is written behind the lines that it has.
fn judge_written(
    alloc: Global,
    steps: &Steps,
    goal: &Goal,
    left: u64,
    findings: &mut Findings,
    numbers: &mut KnownRows,
    mut log: LogWriter,
    mut text: SureSink,
) -> Result<Judgement, NoMemory>
    requires ready { All (IsItemReady steps.now goal.now.terms.nodes) goal.now.goals }
    requires numbers { AreKnownRows steps.now numbers.old }
    requires nonzero { NoneZero findings.old.ends }
    requires writable { CanWrite Full steps.now (goals_from Full steps.now goal.now.terms.nodes
        goal.now.goals 0 findings.old.known findings.old.ends left) log.size }
    ensures said { IfOk result (IsSaid steps.now (goals_from Full steps.now goal.now.terms.nodes
        goal.now.goals 0 findings.old.known findings.old.ends left)
        (state log (Some text) 0)) }
    ensures numbers { AreKnownRows steps.now numbers.new }
    ensures known { findings.new.known ≡ findings.old.known }
    ensures ends { findings.new.ends ≡ findings.old.ends }
{
    match work_goal(
        alloc, steps, goal, left, findings, numbers, &mut log, &mut text,
    ) {
        Ok(verdict) => Ok(judgement_of(verdict, text)),
        Err(error) => opened(error),
    }
}

/// Makes the log of a goal behind what it has, where so many steps are left. What the chains of the
/// conditions have shown stays as it is.
fn work_goal(
    alloc: Global,
    steps: &Steps,
    goal: &Goal,
    left: u64,
    findings: &mut Findings,
    numbers: &mut KnownRows,
    log: &mut LogWriter,
    text: &mut SureSink,
) -> Result<Verdict, ProveError>
    requires ready { All (IsItemReady steps.now goal.now.terms.nodes) goal.now.goals }
    requires numbers { AreKnownRows steps.now numbers.old }
    requires nonzero { NoneZero findings.old.ends }
    requires writable { CanWrite Full steps.now (goals_from Full steps.now goal.now.terms.nodes
        goal.now.goals 0 findings.old.known findings.old.ends left) log.old.size }
    ensures ok { IfOk result (λ verdict. (rest : ℕ) × Finishes
        (goals_from Full steps.now goal.now.terms.nodes goal.now.goals 0 findings.old.known findings.old.ends left)
        (state log.old (Some text.old) 0) (state log.new (Some text.new) 0) verdict rest) }
    ensures err { IfErr result (Halts Full steps.now
        (goals_from Full steps.now goal.now.terms.nodes goal.now.goals 0 findings.old.known findings.old.ends left)
        (state log.old (Some text.old) 0) (state log.new (Some text.new) 0)) }
    ensures numbers { AreKnownRows steps.now numbers.new }
    ensures known { findings.new.known ≡ findings.old.known }
    ensures ends { findings.new.ends ≡ findings.old.ends }
{
    let shown = findings.ends.items.len();
    let mut budget = Budget { left };
    let verdict = work_rest(
        alloc,
        Frame::Full,
        steps,
        &goal.terms,
        &goal.goals,
        findings,
        numbers,
        &mut budget,
        log,
        text,
    );
    findings.ends.items.truncate(shown);
    verdict
}

/// What is said by a log that ends with this verdict.
fn judgement_of(verdict: Verdict, log: SureSink) -> Judgement
    ensures { result ≡ judgement_by verdict log }
{
    match verdict {
        Verdict::Proved => Judgement::Relation(log),
        Verdict::False(_) => Judgement::Fails,
        Verdict::Impossible(k) => Judgement::Impossible(k),
    }
}

/// What is said by a log that ends so, if it is not for want of memory that it ends.
fn opened(error: ProveError) -> Result<Judgement, NoMemory>
    ensures { IfOk result (λ j. (j ≡ Judgement.Open error) × (error ≢ ProveError.NoMemory)) }
{
    match error {
        ProveError::NoMemory => Err(NoMemory),
        error => Ok(Judgement::Open(error)),
    }
}
