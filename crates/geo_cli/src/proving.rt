//! The command `prove`: the log of a program is written.
ghost use Rattle.std.specs.Prelude.{◌≡◌, ◌≢◌, ◌≤◌, ℕ, List};
ghost use Rattle.proof_printer.specs.Due.{SpellsNone};
ghost use Rattle.geo_cli.specs.Due.{IsRefusalDue, due_for};
ghost use Rattle.geo_cli.specs.Inner.Answering.{AnswersDue};
ghost use Rattle.geo_cli.specs.declared.order.Command.TheVariants.{Prove};
ghost use Rattle.geo_program.specs.Programs.{Spells};

use crate::answers::{answer, syntax_line};
use geo_base::Sink;
use geo_lexer::Fault;
use geo_program::Program;
use geo_prover::{ProveError, prove};
use proof_printer::Status;
use std::alloc::Global;

/// Tells why bytes spell no program.
pub fn refuse<K: Sink>(alloc: Global, fault: Fault, sink: &mut K) -> Status
    ensures answers { (bytes : List ℕ) → SpellsNone bytes fault
        → AnswersDue (IsRefusalDue bytes) (K.faults sink.old) (K.faults sink.new)
        (K.held sink.old) (K.held sink.new) result }
    ensures reads { result ≢ Status.ReadFault }
    ensures faults { K.faults sink.old ≤ K.faults sink.new }
    ensures heard { result ≢ Status.WriteFault
        → K.faults sink.new ≡ K.faults sink.old }
{
    let Ok(line) = syntax_line(alloc, fault) else {
        return Status::NoMemory;
    };
    let (refusal, place) = (fault.refusal, fault.place);
    answer(sink, &line.bytes, Status::Syntax { refusal, place })
}

/// Proves a program with so many steps, and writes its log, up to its verdict or to the line of a
/// stop.
pub fn prove_program<K: Sink>(alloc: Global, program: &Program, steps: u64, sink: &mut K) -> Status
    ensures answers { (bytes : List ℕ) → Spells bytes program.now
        → AnswersDue (due_for Prove steps bytes) (K.faults sink.old) (K.faults sink.new)
        (K.held sink.old) (K.held sink.new) result }
    ensures reads { result ≢ Status.ReadFault }
    ensures faults { K.faults sink.old ≤ K.faults sink.new }
    ensures heard { result ≢ Status.WriteFault
        → K.faults sink.new ≡ K.faults sink.old }
{
    match prove(alloc, program, steps, sink) {
        Ok(summary) => Status::of_verdict(summary.verdict),
        Err(ProveError::TooLarge { line, which }) => Status::TooLarge { line, which },
        Err(ProveError::Spent { line }) => Status::Spent { line },
        Err(ProveError::TooLong) => Status::TooLong,
        Err(ProveError::WriteFault) => Status::WriteFault,
        Err(ProveError::NoMemory) => Status::NoMemory,
    }
}
