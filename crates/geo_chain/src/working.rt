//! The chains of a problem, and what follows them.

ghost use Rattle.std.specs.Prelude.{◌≡◌, [], ◌∷◌, All, IfErr, IfOk, length, take};
ghost use Rattle.elim_apply.specs.Kept.{AreKnownRows};
ghost use Rattle.geo_poly.specs.Specialise.{NoneZero};
ghost use Rattle.geo_chain.specs.Halting.{Finishes, Halts};
ghost use Rattle.geo_chain.specs.Parts.{CanWrite};
ghost use Rattle.geo_chain.specs.Sizes.{IsTakable};
ghost use Rattle.geo_chain.specs.Tasks.{IsItemReady, HasReadyItems, conditions_from, goals_from};
ghost use Rattle.geo_chain.specs.Written.{IsUnwritten, Writes, state};
ghost use Rattle.proof_log.specs.declared.log.Line.TheVariants.{Verdict as VerdictLine};
ghost use Rattle.proof_log.specs.declared.log.Verdict.TheVariants.{Impossible};

use crate::conditions::work_conditions;
use crate::ending::conclude;
use crate::errors::ProveError;
use crate::findings::Findings;
use crate::frame::Frame;
use crate::goals::work_goals;
use crate::log_writer::LogWriter;
use elim_apply::KnownRows;
use geo_base::{Budget, Sink};
use geo_conditions::{Goals, Problem};
use geo_terms::Steps;
use proof_log::{Line, Verdict};
use std::alloc::Global;

/// Writes the chains, and what follows them.
pub fn work<K: Sink>(
    alloc: Global,
    frame: Frame,
    problem: &Problem,
    numbers: &mut KnownRows,
    budget: &mut Budget,
    log: &mut LogWriter,
    sink: &mut K,
) -> Result<Verdict, ProveError>
    requires ready { HasReadyItems problem.now }
    requires numbers { AreKnownRows problem.now.steps numbers.old }
    requires writable { CanWrite frame problem.now.steps
        (conditions_from frame problem.now 0 [] [] budget.old.left) log.old.size }
    ensures ok { IfOk result (λ verdict. Finishes
        (conditions_from frame problem.now 0 [] [] budget.old.left)
        (state log.old (K.held sink.old) (K.faults sink.old))
        (state log.new (K.held sink.new) (K.faults sink.new)) verdict budget.new.left) }
    ensures err { IfErr result (Halts frame problem.now.steps
        (conditions_from frame problem.now 0 [] [] budget.old.left)
        (state log.old (K.held sink.old) (K.faults sink.old))
        (state log.new (K.held sink.new) (K.faults sink.new))) }
{
    let mut findings = Findings::new(alloc);
    if let Some(k) = work_conditions(
        alloc,
        frame,
        problem,
        &mut findings,
        numbers,
        budget,
        log,
        sink,
    )? {
        return write_impossible(alloc, k, log, sink);
    }
    work_rest(
        alloc,
        frame,
        &problem.steps,
        &problem.steps,
        &problem.goals,
        &mut findings,
        numbers,
        budget,
        log,
        sink,
    )
}

/// Writes the verdict that a condition is never met.
pub fn write_impossible<K: Sink>(
    alloc: Global,
    k: u32,
    log: &mut LogWriter,
    sink: &mut K,
) -> Result<Verdict, ProveError>
    requires { IsTakable log.old.size (VerdictLine (Impossible k)) }
    ensures ok { IfOk result (λ verdict. (verdict ≡ Impossible k)
        × Writes (VerdictLine (Impossible k) ∷ [])
        (state log.old (K.held sink.old) (K.faults sink.old))
        (state log.new (K.held sink.new) (K.faults sink.new))) }
    ensures err { IfErr result (IsUnwritten (VerdictLine (Impossible k))
        (state log.old (K.held sink.old) (K.faults sink.old))
        (state log.new (K.held sink.new) (K.faults sink.new))) }
{
    let verdict = Verdict::Impossible(k);
    log.write(alloc, sink, &Line::Verdict(verdict))?;
    Ok(verdict)
}

/// Writes the chains of the goals, the sample and the verdict, where all conditions are met.
pub fn work_rest<K: Sink>(
    alloc: Global,
    frame: Frame,
    steps: &Steps,
    terms: &Steps,
    goals: &Goals,
    findings: &mut Findings,
    numbers: &mut KnownRows,
    budget: &mut Budget,
    log: &mut LogWriter,
    sink: &mut K,
) -> Result<Verdict, ProveError>
    requires ready { All (IsItemReady steps.now terms.now.nodes) goals.now }
    requires numbers { AreKnownRows steps.now numbers.old }
    requires nonzero { NoneZero findings.old.ends }
    requires writable { CanWrite frame steps.now (goals_from frame steps.now terms.now.nodes goals.now 0
        findings.old.known findings.old.ends budget.old.left) log.old.size }
    ensures ok { IfOk result (λ verdict. Finishes (goals_from frame steps.now terms.now.nodes goals.now 0
        findings.old.known findings.old.ends budget.old.left)
        (state log.old (K.held sink.old) (K.faults sink.old))
        (state log.new (K.held sink.new) (K.faults sink.new)) verdict budget.new.left) }
    ensures err { IfErr result (Halts frame steps.now (goals_from frame steps.now terms.now.nodes goals.now 0
        findings.old.known findings.old.ends budget.old.left)
        (state log.old (K.held sink.old) (K.faults sink.old))
        (state log.new (K.held sink.new) (K.faults sink.new))) }
    ensures numbers { AreKnownRows steps.now numbers.new }
    ensures known { findings.new.known ≡ findings.old.known }
    ensures ends { take (length findings.old.ends) findings.new.ends ≡ findings.old.ends }
{
    let verdict = work_goals(
        alloc, frame, steps, terms, goals, findings, numbers, budget, log, sink,
    )?;
    conclude(
        alloc,
        frame,
        steps,
        &findings.ends,
        verdict,
        budget,
        log,
        sink,
    )?;
    Ok(verdict)
}
