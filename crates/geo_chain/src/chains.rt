//! The chain of a condition or a goal.

ghost use Rattle.std.specs.Prelude.{◌≡◌, ◌≢◌, ◌+◌, ◌-◌, ◌<◌, ◌∷◌, [], IfErr, IfOk, OnOk, length};
ghost use Rattle.geo_chain.specs.NextLines.{HasLinePointsBelow};
ghost use Rattle.geo_logs.specs.Places.{before_start, in_chain};
ghost use Rattle.geo_logs.specs.Starts.{IsStarted, start_charge, start_of};
ghost use Rattle.proof_log.specs.declared.log.Line.TheVariants.{Start};
ghost use Rattle.elim_apply.specs.Kept.{AreKnownRows};
ghost use Rattle.fraction_poly.specs.TableRows.{HasPointsBelow};
ghost use Rattle.geo_poly.specs.PolynomialVariables.{AllVariables};
ghost use Rattle.geo_terms.specs.Constructions.{Construction};
ghost use Rattle.geo_terms.specs.Stores.{tree_of};
ghost use Rattle.geo_chain.specs.declared.frame.Frame.{Frame};
ghost use Rattle.geo_chain.specs.InFrame.{IsNextLineIn};
ghost use Rattle.geo_chain.specs.Sizes.{IsTakable};
ghost use Rattle.geo_chain.specs.Halting.{Halts, IsStopAnswered, WorksChain, WorksSteps};
ghost use Rattle.geo_chain.specs.Parts.{CanWrite, IsInside, chain_part};
ghost use Rattle.geo_chain.specs.Parts.{here_part, steps_part};
ghost use Rattle.geo_chain.specs.Written.{IsUnwritten, Writes, state};

use crate::errors::ProveError;
use crate::frame::Frame;
use crate::known::sole_variable;
use crate::lines::next_line_known;
use crate::log_writer::LogWriter;
use elim_apply::{ApplyError, KnownRows, start_uncounted};
use geo_base::{Budget, Sink};
use geo_points::{NoMemory, TermId};
use geo_poly::lists::Vars;
use geo_poly::{Poly, Var};
use geo_terms::Steps;
use proof_log::Line;
use std::alloc::Global;

/// The header of a chain, and the term that it is about.
#[derive(Drop)]
pub struct Task {
    /// The line of the condition or goal.
    pub header: Line,
    /// Its term.
    pub term: TermId,
}

/// The number of the item at place i. More items than a number can tell are answered by want of
/// memory.
pub fn item_number(i: usize) -> Result<u32, NoMemory>
    ensures { IfOk result (λ k. k ≡ i + 1) }
{
    if i >= u32::MAX as usize {
        return Err(NoMemory);
    }
    Ok(i as u32 + 1)
}

/// What a chain came to.
#[derive(Drop)]
pub struct WorkedChain {
    /// The polynomial at its end.
    pub end: Poly,
    /// The variable of which its start is a multiple by a number, if it is one.
    pub variable: Option<Var>,
}

/// Writes the chain of a term, which stands in the store of `terms`: the header, the start, a line
/// for each step, and the end. Only the polynomial of the line before and the numbers of steps are
/// kept.
pub fn work_chain<K: Sink>(
    alloc: Global,
    frame: Frame,
    steps: &Steps,
    terms: &Steps,
    known: &Vars,
    numbers: &mut KnownRows,
    task: &Task,
    budget: &mut Budget,
    log: &mut LogWriter,
    sink: &mut K,
) -> Result<WorkedChain, ProveError>
    requires stored { task.now.term.0 < length terms.now.nodes }
    requires inside { IsInside steps.now (tree_of terms.now.nodes task.now.term) }
    requires numbers { AreKnownRows steps.now numbers.old }
    requires writable { CanWrite frame steps.now (chain_part frame steps.now
        task.now.header known.now budget.old.left (tree_of terms.now.nodes task.now.term))
        log.old.size }
    ensures ok { IfOk result (λ chain. WorksChain frame steps.now task.now.header known.now
        budget.old.left (tree_of terms.now.nodes task.now.term) budget.new.left
        (state log.old (K.held sink.old) (K.faults sink.old))
        (state log.new (K.held sink.new) (K.faults sink.new)) chain.end chain.variable) }
    ensures err { IfErr result (Halts frame steps.now (chain_part frame steps.now
        task.now.header known.now budget.old.left (tree_of terms.now.nodes task.now.term))
        (state log.old (K.held sink.old) (K.faults sink.old))
        (state log.new (K.held sink.new) (K.faults sink.new))) }
    ensures numbers { AreKnownRows steps.now numbers.new }
{
    log.write(alloc, sink, &task.header)?;
    let first = first_polynomial(alloc, terms, task.term, budget, log, sink)?;
    let variable = sole_variable(&first);
    let first = write_start(alloc, first, log, sink)?;
    let end = work_steps(
        alloc, frame, steps, known, numbers, first, budget, log, sink,
    )?;
    Ok(WorkedChain { end, variable })
}

/// The polynomial at the start; the line of a stop is written.
fn first_polynomial<K: Sink>(
    alloc: Global,
    terms: &Steps,
    term: TermId,
    budget: &mut Budget,
    log: &LogWriter,
    sink: &mut K,
) -> Result<Poly, ProveError>
    requires { term.0 < length terms.now.nodes }
    ensures started { OnOk result
        (IsStarted budget.old.left (tree_of terms.now.nodes term)) }
    ensures start { IfOk result (λ q. q ≡ start_of (tree_of terms.now.nodes term)) }
    ensures paid { OnOk result
        (budget.new.left ≡ budget.old.left - start_charge (tree_of terms.now.nodes term)) }
    ensures kept { OnOk result (sink.new ≡ sink.old) }
    ensures err { (frame : Frame) (c : Construction) → IfErr result (Halts frame c
        (here_part (before_start budget.old.left (tree_of terms.now.nodes term)))
        (state log.now (K.held sink.old) (K.faults sink.old))
        (state log.now (K.held sink.new) (K.faults sink.new))) }
{
    match start_uncounted(alloc, terms, term, budget) {
        Ok(first) => Ok(first),
        Err(error) => Err(stopped(alloc, error, log, sink)),
    }
}

/// Writes the start, and gives it back.
fn write_start<K: Sink>(
    alloc: Global,
    first: Poly,
    log: &mut LogWriter,
    sink: &mut K,
) -> Result<Poly, ProveError>
    requires { IsTakable log.old.size (Start first) }
    ensures same { IfOk result (λ q. q ≡ first) }
    ensures ok { OnOk result (Writes (Start first ∷ [])
        (state log.old (K.held sink.old) (K.faults sink.old))
        (state log.new (K.held sink.new) (K.faults sink.new))) }
    ensures err { IfErr result (IsUnwritten (Start first)
        (state log.old (K.held sink.old) (K.faults sink.old))
        (state log.new (K.held sink.new) (K.faults sink.new))) }
{
    let line = Line::Start(first);
    log.write(alloc, sink, &line)?;
    match line.into_polynomial() {
        Some(first) => Ok(first),
        None => unreachable!(),
    }
}

/// Writes a line for each step from the polynomial on, and the end, and answers the last
/// polynomial.
fn work_steps<K: Sink>(
    alloc: Global,
    frame: Frame,
    steps: &Steps,
    known: &Vars,
    numbers: &mut KnownRows,
    first: Poly,
    budget: &mut Budget,
    log: &mut LogWriter,
    sink: &mut K,
) -> Result<Poly, ProveError>
    requires numbers { AreKnownRows steps.now numbers.old }
    requires points { AllVariables (HasPointsBelow (length steps.now.steps)) first }
    requires writable { CanWrite frame steps.now
        (steps_part frame steps.now known.now budget.old.left first) log.old.size }
    ensures ok { IfOk result (WorksSteps frame steps.now known.now budget.old.left first
        budget.new.left (state log.old (K.held sink.old) (K.faults sink.old))
        (state log.new (K.held sink.new) (K.faults sink.new))) }
    ensures err { IfErr result (Halts frame steps.now
        (steps_part frame steps.now known.now budget.old.left first)
        (state log.old (K.held sink.old) (K.faults sink.old))
        (state log.new (K.held sink.new) (K.faults sink.new))) }
    ensures numbers { AreKnownRows steps.now numbers.new }
{
    let mut last = first;
    loop {
        let line = line_after(
            alloc, frame, steps, known, numbers, &last, budget, log, sink,
        )?;
        log.write(alloc, sink, &line)?;
        match line.into_polynomial() {
            Some(poly) => last = poly,
            None => return Ok(last),
        }
    }
}

/// The line after a polynomial; the line of a stop is written.
fn line_after<K: Sink>(
    alloc: Global,
    frame: Frame,
    steps: &Steps,
    known: &Vars,
    numbers: &mut KnownRows,
    last: &Poly,
    budget: &mut Budget,
    log: &LogWriter,
    sink: &mut K,
) -> Result<Line, ProveError>
    requires numbers { AreKnownRows steps.now numbers.old }
    requires points { AllVariables (HasPointsBelow (length steps.now.steps)) last.now }
    ensures line { IfOk result (λ line. IsNextLineIn frame steps.now known.now
        budget.old.left last.now line budget.new.left) }
    ensures points { IfOk result (HasLinePointsBelow (length steps.now.steps)) }
    ensures kept { OnOk result (sink.new ≡ sink.old) }
    ensures err { IfErr result (Halts frame steps.now
        (here_part (in_chain known.now budget.old.left last.now))
        (state log.now (K.held sink.old) (K.faults sink.old))
        (state log.now (K.held sink.new) (K.faults sink.new))) }
    ensures numbers { AreKnownRows steps.now numbers.new }
{
    match next_line_known(alloc, steps, numbers, last, known, budget) {
        Ok(line) => Ok(frame.framed(alloc, line)?),
        Err(error) => Err(stopped(alloc, error, log, sink)),
    }
}

/// Writes the line of the stop, if it is one, and answers it.
fn stopped<K: Sink>(alloc: Global, error: ApplyError, log: &LogWriter, sink: &mut K) -> ProveError
    requires { error ≢ ApplyError.NoRow }
    ensures { IsStopAnswered error (state log.now (K.held sink.old) (K.faults sink.old))
        (state log.now (K.held sink.new) (K.faults sink.new)) result }
{
    match error {
        ApplyError::NoRow => unreachable!(),
        ApplyError::Spent => log.stop_spent(alloc, sink),
        ApplyError::TooLarge(which) => log.stop_too_large(alloc, sink, which),
        ApplyError::NoMemory => ProveError::NoMemory,
    }
}
