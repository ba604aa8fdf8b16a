//! The chains of the goals.

ghost use Rattle.std.specs.Prelude.{◌≡◌, ◌≢◌, ◌+◌, ◌^◌, ◌<◌, ◌∷◌, ◌++◌, [], All, length, take};
ghost use Rattle.std.specs.Prelude.{IfErr, IfOk, OnOk};
ghost use Rattle.proof_log.specs.declared.log.Verdict.TheVariants.{False};
ghost use Rattle.elim_apply.specs.Kept.{AreKnownRows};
ghost use Rattle.geo_poly.specs.Specialise.{NoneZero};
ghost use Rattle.geo_chain.specs.Halting.{Halts, Passes};
ghost use Rattle.geo_chain.specs.Parts.{CanWrite, end_part};
ghost use Rattle.geo_chain.specs.Tasks.{IsGoalTask, IsItemReady, goals_from};
ghost use Rattle.geo_chain.specs.Written.{state};

use crate::chains::{Task, WorkedChain, item_number, work_chain};
use crate::conditions::copied;
use crate::errors::ProveError;
use crate::findings::Findings;
use crate::frame::Frame;
use crate::log_writer::LogWriter;
use elim_apply::KnownRows;
use geo_base::{Budget, Sink};
use geo_conditions::Goals;
use geo_points::NoMemory;
use geo_terms::Steps;
use proof_log::{Line, Verdict};
use std::alloc::Global;

/// Writes the chains of the goals, whose terms stand in the store of `terms`, in order, up to and
/// with the first that does not end in 0, and answers the verdict. The end that is not 0 is among
/// the findings then.
pub fn work_goals<K: Sink>(
    alloc: Global,
    frame: Frame,
    steps: &Steps,
    terms: &Steps,
    goals: &Goals,
    findings: &mut Findings,
    numbers: &mut KnownRows,
    budget: &mut Budget,
    log: &mut LogWriter,
    sink: &mut K,
) -> Result<Verdict, ProveError>
    requires ready { All (IsItemReady steps.now terms.now.nodes) goals.now }
    requires numbers { AreKnownRows steps.now numbers.old }
    requires nonzero { NoneZero findings.old.ends }
    requires writable { CanWrite frame steps.now (goals_from frame steps.now terms.now.nodes goals.now 0
        findings.old.known findings.old.ends budget.old.left) log.old.size }
    ensures ok { IfOk result (λ verdict. Passes
        (goals_from frame steps.now terms.now.nodes goals.now 0 findings.old.known findings.old.ends budget.old.left)
        (end_part frame steps.now findings.new.ends verdict budget.new.left)
        (state log.old (K.held sink.old) (K.faults sink.old))
        (state log.new (K.held sink.new) (K.faults sink.new))) }
    ensures nonzero { OnOk result (NoneZero findings.new.ends) }
    ensures known { findings.new.known ≡ findings.old.known }
    ensures ends { take (length findings.old.ends) findings.new.ends ≡ findings.old.ends }
    ensures err { IfErr result (Halts frame steps.now
        (goals_from frame steps.now terms.now.nodes goals.now 0 findings.old.known findings.old.ends budget.old.left)
        (state log.old (K.held sink.old) (K.faults sink.old))
        (state log.new (K.held sink.new) (K.faults sink.new))) }
    ensures numbers { AreKnownRows steps.now numbers.new }
{
    for i in 0..goals.items.len() {
        let chain = work_goal(
            alloc, frame, steps, terms, goals, i, findings, numbers, budget, log, sink,
        )?;
        if !chain.end.is_zero() {
            findings.add_end(chain.end)?;
            return Ok(Verdict::False(i as u32 + 1));
        }
    }
    Ok(Verdict::Proved)
}

/// Writes the chain of the goal at place i.
fn work_goal<K: Sink>(
    alloc: Global,
    frame: Frame,
    steps: &Steps,
    terms: &Steps,
    goals: &Goals,
    i: usize,
    findings: &Findings,
    numbers: &mut KnownRows,
    budget: &mut Budget,
    log: &mut LogWriter,
    sink: &mut K,
) -> Result<WorkedChain, ProveError>
    requires ready { All (IsItemReady steps.now terms.now.nodes) goals.now }
    requires numbers { AreKnownRows steps.now numbers.old }
    requires place { i < length goals.now }
    requires writable { CanWrite frame steps.now (goals_from frame steps.now terms.now.nodes goals.now i
        findings.now.known findings.now.ends budget.old.left) log.old.size }
    ensures passes { IfOk result (λ chain. chain.end ≡ [] → Passes
        (goals_from frame steps.now terms.now.nodes goals.now i findings.now.known findings.now.ends budget.old.left)
        (goals_from frame steps.now terms.now.nodes goals.now (i + 1) findings.now.known findings.now.ends budget.new.left)
        (state log.old (K.held sink.old) (K.faults sink.old))
        (state log.new (K.held sink.new) (K.faults sink.new))) }
    ensures fails { IfOk result (λ chain. chain.end ≢ [] → Passes
        (goals_from frame steps.now terms.now.nodes goals.now i findings.now.known findings.now.ends budget.old.left)
        (end_part frame steps.now (findings.now.ends ++ chain.end ∷ []) (False (i + 1))
        budget.new.left)
        (state log.old (K.held sink.old) (K.faults sink.old))
        (state log.new (K.held sink.new) (K.faults sink.new))) }
    ensures small { OnOk result (i + 1 < 2 ^ 32) }
    ensures err { IfErr result (Halts frame steps.now
        (goals_from frame steps.now terms.now.nodes goals.now i findings.now.known findings.now.ends budget.old.left)
        (state log.old (K.held sink.old) (K.faults sink.old))
        (state log.new (K.held sink.new) (K.faults sink.new))) }
    ensures numbers { AreKnownRows steps.now numbers.new }
{
    let task = goal_task(alloc, goals, i)?;
    work_chain(
        alloc,
        frame,
        steps,
        terms,
        &findings.known,
        numbers,
        &task,
        budget,
        log,
        sink,
    )
}

/// The chain that is due for the goal at place i.
fn goal_task(alloc: Global, goals: &Goals, i: usize) -> Result<Task, NoMemory>
    requires place { i < length goals.now }
    ensures { IfOk result (λ task. IsGoalTask goals.now i task.header task.term) }
{
    let item = &goals.items[i];
    let header = Line::Goal {
        k: item_number(i)?,
        text: copied(alloc, &item.text)?,
    };
    Ok(Task {
        header,
        term: item.term,
    })
}
