//! The chains of the conditions.

ghost use Rattle.std.specs.Prelude.{◌≡◌, ◌≢◌, ◌+◌, ◌^◌, ◌<◌, ◌∷◌, ◌++◌, [], List, length};
ghost use Rattle.std.specs.Prelude.{IfErr, IfNone, IfOk, IfSome, OnOk};
ghost use Rattle.std.specs.List.{cons_option};
ghost use Rattle.elim_apply.specs.Kept.{AreKnownRows};
ghost use Rattle.geo_poly.specs.Specialise.{NoneZero};
ghost use Rattle.geo_chain.specs.Halting.{Halts, IsImpossibleAt, Passes};
ghost use Rattle.geo_logs.specs.Logs.{Item as LogItem};
ghost use Rattle.geo_chain.specs.Parts.{CanWrite, goals_part};
ghost use Rattle.geo_chain.specs.Tasks.{IsConditionTask, HasReadyItems};
ghost use Rattle.geo_chain.specs.Tasks.{conditions_before, conditions_from};
ghost use Rattle.geo_chain.specs.Written.{state};

use crate::chains::{Task, WorkedChain, item_number, work_chain};
use crate::errors::ProveError;
use crate::findings::Findings;
use crate::frame::Frame;
use crate::log_writer::LogWriter;
use elim_apply::KnownRows;
use geo_base::{Budget, Sink, Text};
use geo_conditions::Problem;
use geo_points::NoMemory;
use proof_log::Line;
use std::alloc::Global;

/// Writes the chains of the conditions in order, up to and with the first that ends in 0, and
/// answers its number, if there is one.
pub fn work_conditions<K: Sink>(
    alloc: Global,
    frame: Frame,
    problem: &Problem,
    findings: &mut Findings,
    numbers: &mut KnownRows,
    budget: &mut Budget,
    log: &mut LogWriter,
    sink: &mut K,
) -> Result<Option<u32>, ProveError>
    requires ready { HasReadyItems problem.now }
    requires numbers { AreKnownRows problem.now.steps numbers.old }
    requires nonzero { NoneZero findings.old.ends }
    requires writable { CanWrite frame problem.now.steps (conditions_from frame problem.now 0
        findings.old.known findings.old.ends budget.old.left) log.old.size }
    ensures met { (goals : List LogItem) → IfOk result (λ found. IfNone found (Passes
        (conditions_before frame problem.now.steps problem.now.steps.nodes
        problem.now.conditions goals 0
        findings.old.known findings.old.ends budget.old.left)
        (goals_part frame problem.now.steps findings.new.known findings.new.ends 1
        budget.new.left goals)
        (state log.old (K.held sink.old) (K.faults sink.old))
        (state log.new (K.held sink.new) (K.faults sink.new)))) }
    ensures impossible { (goals : List LogItem) → IfOk result (λ found. IfSome found
        (IsImpossibleAt (conditions_before frame problem.now.steps problem.now.steps.nodes
        problem.now.conditions goals 0
        findings.old.known findings.old.ends budget.old.left)
        budget.new.left (state log.old (K.held sink.old) (K.faults sink.old))
        (state log.new (K.held sink.new) (K.faults sink.new)))) }
    ensures nonzero { OnOk result (NoneZero findings.new.ends) }
    ensures err { (goals : List LogItem) → IfErr result (Halts frame problem.now.steps
        (conditions_before frame problem.now.steps problem.now.steps.nodes
        problem.now.conditions goals 0
        findings.old.known findings.old.ends budget.old.left)
        (state log.old (K.held sink.old) (K.faults sink.old))
        (state log.new (K.held sink.new) (K.faults sink.new))) }
    ensures numbers { AreKnownRows problem.now.steps numbers.new }
{
    for i in 0..problem.conditions.items.len() {
        let chain = work_condition(
            alloc, frame, problem, i, findings, numbers, budget, log, sink,
        )?;
        if chain.end.is_zero() {
            return Ok(Some(i as u32 + 1));
        }
        findings.add(chain)?;
    }
    Ok(None)
}

/// Writes the chain of the condition at place i.
fn work_condition<K: Sink>(
    alloc: Global,
    frame: Frame,
    problem: &Problem,
    i: usize,
    findings: &Findings,
    numbers: &mut KnownRows,
    budget: &mut Budget,
    log: &mut LogWriter,
    sink: &mut K,
) -> Result<WorkedChain, ProveError>
    requires ready { HasReadyItems problem.now }
    requires numbers { AreKnownRows problem.now.steps numbers.old }
    requires place { i < length problem.now.conditions }
    requires writable { CanWrite frame problem.now.steps (conditions_from frame problem.now i
        findings.now.known findings.now.ends budget.old.left) log.old.size }
    ensures passes { (goals : List LogItem) → IfOk result (λ chain. chain.end ≢ [] → Passes
        (conditions_before frame problem.now.steps problem.now.steps.nodes
        problem.now.conditions goals i
        findings.now.known findings.now.ends budget.old.left)
        (conditions_before frame problem.now.steps problem.now.steps.nodes
        problem.now.conditions goals (i + 1)
        (findings.now.known ++ cons_option chain.variable [])
        (findings.now.ends ++ chain.end ∷ []) budget.new.left)
        (state log.old (K.held sink.old) (K.faults sink.old))
        (state log.new (K.held sink.new) (K.faults sink.new))) }
    ensures impossible { (goals : List LogItem) → IfOk result (λ chain. chain.end ≡ []
        → IsImpossibleAt (conditions_before frame problem.now.steps problem.now.steps.nodes
        problem.now.conditions goals i
        findings.now.known findings.now.ends budget.old.left)
        budget.new.left (state log.old (K.held sink.old) (K.faults sink.old))
        (state log.new (K.held sink.new) (K.faults sink.new)) (i + 1)) }
    ensures small { OnOk result (i + 1 < 2 ^ 32) }
    ensures err { (goals : List LogItem) → IfErr result (Halts frame problem.now.steps
        (conditions_before frame problem.now.steps problem.now.steps.nodes
        problem.now.conditions goals i
        findings.now.known findings.now.ends budget.old.left)
        (state log.old (K.held sink.old) (K.faults sink.old))
        (state log.new (K.held sink.new) (K.faults sink.new))) }
    ensures numbers { AreKnownRows problem.now.steps numbers.new }
{
    let task = condition_task(alloc, problem, i)?;
    work_chain(
        alloc,
        frame,
        &problem.steps,
        &problem.steps,
        &findings.known,
        numbers,
        &task,
        budget,
        log,
        sink,
    )
}

/// The chain that is due for the condition at place i.
fn condition_task(alloc: Global, problem: &Problem, i: usize) -> Result<Task, NoMemory>
    requires place { i < length problem.now.conditions }
    ensures { IfOk result (λ task.
        IsConditionTask problem.now.conditions i task.header task.term) }
{
    let item = &problem.conditions.items[i];
    let header = Line::Condition {
        k: item_number(i)?,
        text: copied(alloc, &item.text)?,
    };
    Ok(Task {
        header,
        term: item.term,
    })
}

/// The same text.
pub fn copied(alloc: Global, text: &Text) -> Result<Text, NoMemory>
    ensures { IfOk result (λ copy. copy ≡ text.now) }
{
    Ok(Text {
        bytes: Vec::from_slice(alloc, &text.bytes)?,
    })
}
