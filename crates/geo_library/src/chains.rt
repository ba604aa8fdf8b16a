//! Chains that are counted and not written.

ghost use Rattle.std.specs.Prelude.{◌≡◌, ◌≢◌, ◌+◌, ◌-◌, ◌<◌, IfErr, IfOk, OnOk, length};
ghost use Rattle.elim_apply.specs.declared.errors.ApplyError.TheVariants.{NoRow};
ghost use Rattle.elim_apply.specs.Kept.{AreKnownRows};
ghost use Rattle.fraction_poly.specs.TableRows.{HasPointsBelow};
ghost use Rattle.geo_chain.specs.NextLines.{HasLinePointsBelow, IsNextLine};
ghost use Rattle.geo_logs.specs.Places.{before_start, in_chain};
ghost use Rattle.geo_logs.specs.Starts.{IsStarted, start_charge, start_of};
ghost use Rattle.geo_poly.specs.PolynomialVariables.{AllVariables};
ghost use Rattle.geo_terms.specs.Stores.{tree_of};
ghost use Rattle.geo_terms.specs.TermBounds.{IsTermBelow};
ghost use Rattle.geo_library.specs.Inner.Counting.{AreStepsStopped, AreStepsWorked};
ghost use Rattle.geo_library.specs.Inner.Counting.{IsChainHalted, IsChainWorked, IsStopAt};
ghost use Rattle.geo_library.specs.Inner.Counting.{TellsStop, error_of_stop};

use crate::errors::CiteError;
use elim_apply::{ApplyError, KnownRows, start_uncounted};
use geo_base::Budget;
use geo_chain::next_line_known;
use geo_points::TermId;
use geo_poly::Poly;
use geo_poly::lists::Vars;
use geo_terms::Steps;
use proof_log::Line;
use std::alloc::Global;

/// How far a citation has come: so many lines are counted, and so many steps are left.
#[derive(Clone, Copy, Debug, PartialEq, Eq)]
pub struct Progress {
    /// The lines.
    pub lines: u64,
    /// The steps that are left.
    pub budget: Budget,
}

impl Progress {
    /// One line more. More lines than a number counts are answered by NoMemory.
    fn count(&mut self) -> Result<(), CiteError>
        ensures counted { OnOk result (self.new.lines ≡ self.old.lines + 1) }
        ensures few { OnOk result (self.old.lines < 18446744073709551615) }
        ensures kept { self.new.budget ≡ self.old.budget }
        ensures err { IfErr result (λ e. e ≡ CiteError.NoMemory) }
    {
        if self.lines == u64::MAX {
            return Err(CiteError::NoMemory);
        }
        self.lines += 1;
        Ok(())
    }
}

/// The polynomial at the end of the chain of a term. Its header, start, moves, cuts and end are
/// counted on.
pub fn work_chain(
    alloc: Global,
    steps: &Steps,
    known: &Vars,
    numbers: &mut KnownRows,
    term: TermId,
    now: &mut Progress,
) -> Result<Poly, CiteError>
    requires stored { term.0 < length steps.now.nodes }
    requires inside { IsTermBelow (length steps.now.steps) steps.now.params
        (tree_of steps.now.nodes term) }
    requires numbers { AreKnownRows steps.now numbers.old }
    ensures ok { IfOk result (IsChainWorked steps.now known.now now.old.lines
        now.old.budget.left (tree_of steps.now.nodes term) now.new.lines now.new.budget.left) }
    ensures err { IfErr result (TellsStop (IsChainHalted steps.now known.now now.old.lines
        now.old.budget.left (tree_of steps.now.nodes term))) }
    ensures numbers { AreKnownRows steps.now numbers.new }
{
    now.count()?;
    let first = first_polynomial(alloc, steps, term, now)?;
    work_steps(alloc, steps, known, numbers, first, now)
}

/// The polynomial at the start, whose line is counted.
fn first_polynomial(
    alloc: Global,
    steps: &Steps,
    term: TermId,
    now: &mut Progress,
) -> Result<Poly, CiteError>
    requires { term.0 < length steps.now.nodes }
    ensures started { OnOk result
        (IsStarted now.old.budget.left (tree_of steps.now.nodes term)) }
    ensures start { IfOk result (λ q. q ≡ start_of (tree_of steps.now.nodes term)) }
    ensures paid { OnOk result (now.new.budget.left
        ≡ now.old.budget.left - start_charge (tree_of steps.now.nodes term)) }
    ensures counted { OnOk result (now.new.lines ≡ now.old.lines + 1) }
    ensures err { IfErr result (TellsStop (IsStopAt steps.now
        (before_start now.old.budget.left (tree_of steps.now.nodes term)) (now.old.lines + 1))) }
{
    now.count()?;
    let line = now.lines;
    match start_uncounted(alloc, steps, term, &mut now.budget) {
        Ok(first) => Ok(first),
        Err(error) => Err(stopped(error, line)),
    }
}

/// The last polynomial of the steps from this one on.
fn work_steps(
    alloc: Global,
    steps: &Steps,
    known: &Vars,
    numbers: &mut KnownRows,
    first: Poly,
    now: &mut Progress,
) -> Result<Poly, CiteError>
    requires numbers { AreKnownRows steps.now numbers.old }
    requires points { AllVariables (HasPointsBelow (length steps.now.steps)) first }
    ensures ok { IfOk result (AreStepsWorked steps.now known.now now.old.lines
        now.old.budget.left first now.new.lines now.new.budget.left) }
    ensures err { IfErr result (TellsStop (AreStepsStopped steps.now known.now now.old.lines
        now.old.budget.left first)) }
    ensures numbers { AreKnownRows steps.now numbers.new }
{
    let mut last = first;
    loop {
        let line = line_after(alloc, steps, known, numbers, &last, now)?;
        match line.into_polynomial() {
            Some(poly) => last = poly,
            None => return Ok(last),
        }
    }
}

/// The line after a polynomial, which is counted.
fn line_after(
    alloc: Global,
    steps: &Steps,
    known: &Vars,
    numbers: &mut KnownRows,
    last: &Poly,
    now: &mut Progress,
) -> Result<Line, CiteError>
    requires numbers { AreKnownRows steps.now numbers.old }
    requires points { AllVariables (HasPointsBelow (length steps.now.steps)) last.now }
    ensures line { IfOk result (λ line. IsNextLine steps.now known.now now.old.budget.left
        last.now line now.new.budget.left) }
    ensures points { IfOk result (HasLinePointsBelow (length steps.now.steps)) }
    ensures counted { OnOk result (now.new.lines ≡ now.old.lines + 1) }
    ensures few { OnOk result (now.old.lines < 18446744073709551615) }
    ensures err { IfErr result (TellsStop (IsStopAt steps.now
        (in_chain known.now now.old.budget.left last.now) (now.old.lines + 1))) }
    ensures numbers { AreKnownRows steps.now numbers.new }
{
    now.count()?;
    let number = now.lines;
    match next_line_known(alloc, steps, numbers, last, known, &mut now.budget) {
        Ok(line) => Ok(line),
        Err(error) => Err(stopped(error, number)),
    }
}

/// The stop at the line of this number.
fn stopped(error: ApplyError, line: u64) -> CiteError
    requires { error ≢ NoRow }
    ensures { result ≡ error_of_stop error line }
{
    match error {
        ApplyError::NoRow => unreachable!(),
        ApplyError::Spent => CiteError::Spent { line },
        ApplyError::TooLarge(which) => CiteError::TooLarge { line, which },
        ApplyError::NoMemory => CiteError::NoMemory,
    }
}
