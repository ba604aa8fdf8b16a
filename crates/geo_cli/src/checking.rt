//! The command `check`: a log is read, and told to be accepted or refused.
ghost use Rattle.std.specs.Prelude.{◌≡◌, ◌≢◌, ◌≤◌, ℕ, List};
ghost use Rattle.geo_cli.specs.Due.{due_for};
ghost use Rattle.geo_cli.specs.Inner.Answering.{AnswersDue, AnswersInput};
ghost use Rattle.geo_cli.specs.Inner.Judgements.{IsJudgement};
ghost use Rattle.geo_cli.specs.Input.{Takes, log_limit};
ghost use Rattle.geo_cli.specs.declared.order.Command.TheVariants.{Check};
ghost use Rattle.geo_program.specs.Programs.{source_of};
ghost use Rattle.log_checker.specs.Accepted.{Accepts};

use crate::answers::{TOO_LONG, answer};
use crate::judging::judge_input;
use crate::refusing::refuse;
use geo_base::{ReadError, Sink, Source};
use geo_program::Program;
use log_checker::{Accepted, CheckError};
use proof_log::Verdict;
use proof_printer::{Status, accepted_text};
use std::alloc::Global;

/// Reads a log to its end, judges it with so many steps, and tells its program, its conditions and
/// its verdict, or the line at which it is refused.
pub fn run_check<S: Source, K: Sink>(
    alloc: Global,
    steps: u64,
    source: &mut S,
    sink: &mut K,
) -> Status
    ensures answers { AnswersInput log_limit (due_for Check steps)
        (S.left source.old) (S.left source.new) (S.faults source.old) (S.faults source.new)
        (K.faults sink.old) (K.faults sink.new) (K.held sink.old) (K.held sink.new) result }
    ensures unwritten { result ≡ Status.ReadFault → sink.new ≡ sink.old }
    ensures taken { Takes log_limit (S.left source.old) (S.left source.new) }
    ensures source_faults { S.faults source.old ≤ S.faults source.new }
    ensures sink_faults { K.faults sink.old ≤ K.faults sink.new }
    ensures source_heard { result ≢ Status.ReadFault
        → S.faults source.new ≡ S.faults source.old }
    ensures sink_heard { result ≢ Status.WriteFault
        → K.faults sink.new ≡ K.faults sink.old }
{
    match judge_input(alloc, steps, source) {
        Ok(judged) => report(alloc, judged, sink),
        Err(ReadError::TooLong) => answer(sink, TOO_LONG, Status::TooLong),
        Err(ReadError::ReadFault) => Status::ReadFault,
        Err(ReadError::NoMemory) => Status::NoMemory,
    }
}

/// Tells what became of a log.
fn report<K: Sink>(alloc: Global, judged: Result<Accepted, CheckError>, sink: &mut K) -> Status
    ensures answers { (steps : ℕ) (bytes : List ℕ) → IsJudgement bytes steps judged
        → AnswersDue (due_for Check steps bytes) (K.faults sink.old) (K.faults sink.new)
        (K.held sink.old) (K.held sink.new) result }
    ensures reads { result ≢ Status.ReadFault }
    ensures faults { K.faults sink.old ≤ K.faults sink.new }
    ensures heard { result ≢ Status.WriteFault
        → K.faults sink.new ≡ K.faults sink.old }
{
    match judged {
        Ok(accepted) => report_accepted(alloc, &accepted.program, accepted.verdict, sink),
        Err(error) => refuse(alloc, error, sink),
    }
}

/// Tells an accepted log.
fn report_accepted<K: Sink>(
    alloc: Global,
    program: &Program,
    verdict: Verdict,
    sink: &mut K,
) -> Status
    ensures answers { (steps : ℕ) (bytes : List ℕ)
        → Accepts bytes steps (source_of program.now) verdict
        → AnswersDue (due_for Check steps bytes) (K.faults sink.old) (K.faults sink.new)
        (K.held sink.old) (K.held sink.new) result }
    ensures reads { result ≢ Status.ReadFault }
    ensures faults { K.faults sink.old ≤ K.faults sink.new }
    ensures heard { result ≢ Status.WriteFault
        → K.faults sink.new ≡ K.faults sink.old }
{
    let Ok(text) = accepted_text(alloc, program, verdict) else {
        return Status::NoMemory;
    };
    answer(sink, &text.bytes, Status::of_verdict(verdict))
}
