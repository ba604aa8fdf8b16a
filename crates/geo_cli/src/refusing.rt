//! Logs that are refused.
ghost use Rattle.std.specs.Prelude.{◌≡◌, ◌≢◌, ◌≤◌, ℕ, List, IfOk};
ghost use Rattle.geo_cli.specs.Due.{IsRejectionDue};
ghost use Rattle.geo_cli.specs.Inner.Answering.{AnswersDue};
ghost use Rattle.geo_cli.specs.Inner.Judgements.{IsRefusal, error_line};
ghost use Rattle.log_checker.specs.Checked.{TellsStop};
ghost use Rattle.log_checker.specs.Judged.{Refuses};

use crate::answers::{answer, rejected_line};
use geo_base::{Sink, Text};
use geo_points::NoMemory;
use log_checker::CheckError;
use proof_log::{Line, write_line};
use proof_printer::Status;
use std::alloc::Global;

/// Tells why a log is refused.
pub fn refuse<K: Sink>(alloc: Global, error: CheckError, sink: &mut K) -> Status
    ensures answers { (steps : ℕ) (bytes : List ℕ) → TellsStop (Refuses bytes steps) error
        → AnswersDue (IsRejectionDue steps bytes) (K.faults sink.old) (K.faults sink.new)
        (K.held sink.old) (K.held sink.new) result }
    ensures reads { result ≢ Status.ReadFault }
    ensures faults { K.faults sink.old ≤ K.faults sink.new }
    ensures heard { result ≢ Status.WriteFault
        → K.faults sink.new ≡ K.faults sink.old }
{
    let Ok(line) = refusal_line(alloc, error) else {
        return Status::NoMemory;
    };
    answer(sink, &line.bytes, Status::of_error(error))
}

/// The line that tells why a log is refused.
fn refusal_line(alloc: Global, error: CheckError) -> Result<Text, NoMemory>
    ensures text { IfOk result (λ line. line ≡ error_line error) }
    ensures refusal { IfOk result (λ _. IsRefusal error) }
{
    match error {
        CheckError::Rejected { line, reason } => rejected_line(alloc, line, reason),
        CheckError::TooLarge { line, which } => {
            write_line(alloc, &Line::StopTooLarge { line, which })
        }
        CheckError::Spent { line } => write_line(alloc, &Line::StopSpent { line }),
        CheckError::NoMemory => Err(NoMemory),
    }
}
