//! The command `fixed`: how a program's log in the fixed frame ends is told.
ghost use Rattle.std.specs.Prelude.{◌≡◌, ◌≢◌, ◌≤◌, IfOk};
ghost use Rattle.geo_cli.specs.Due.{TellsFixed, fixed_line};
ghost use Rattle.geo_cli.specs.Inner.Answering.{AnswersDue};
ghost use Rattle.geo_cli.specs.Inner.Telling.{due_of};
ghost use Rattle.proof_printer.specs.Status.{verdict_status};
ghost use Rattle.geo_program.specs.Programs.{source_of};

use crate::answers::answer;
use crate::reports::{Report, report_stop};
use geo_base::{Sink, Text};
use geo_discover::{FixedError, fixed};
use geo_points::NoMemory;
use geo_program::Program;
use proof_log::{Line, Verdict};
use proof_printer::{Status, push_verdict};
use std::alloc::Global;

/// Writes the verdict of the program's log in that frame, with so many steps, or the line of its
/// stop.
pub fn fix_program<K: Sink>(alloc: Global, program: &Program, steps: u64, sink: &mut K) -> Status
    ensures answers { AnswersDue (TellsFixed (source_of program.now) steps) (K.faults sink.old)
        (K.faults sink.new) (K.held sink.old) (K.held sink.new) result }
    ensures reads { result ≢ Status.ReadFault }
    ensures faults { K.faults sink.old ≤ K.faults sink.new }
    ensures heard { result ≢ Status.WriteFault
        → K.faults sink.new ≡ K.faults sink.old }
{
    let Ok(report) = report_program(alloc, program, steps) else {
        return Status::NoMemory;
    };
    answer(sink, &report.text.bytes, report.status)
}

/// What is to be written for a program.
fn report_program(alloc: Global, program: &Program, steps: u64) -> Result<Report, NoMemory>
    ensures { IfOk result (λ r. TellsFixed (source_of program.now) steps (due_of r)) }
{
    match fixed(alloc, program, steps) {
        Ok(verdict) => report_verdict(alloc, verdict),
        Err(FixedError::TooLarge { line, which }) => {
            let stop = Line::StopTooLarge { line, which };
            report_stop(alloc, &stop, Status::TooLarge { line, which })
        }
        Err(FixedError::Spent { line }) => {
            report_stop(alloc, &Line::StopSpent { line }, Status::Spent { line })
        }
        Err(FixedError::NoMemory) => Err(NoMemory),
    }
}

/// What is to be written for a verdict.
fn report_verdict(alloc: Global, verdict: Verdict) -> Result<Report, NoMemory>
    ensures { IfOk result (λ r.
        due_of r ≡ record { text = fixed_line verdict; status = verdict_status verdict }) }
{
    let mut bytes = Vec::from_slice(alloc, b"fixed ")?;
    push_verdict(alloc, &mut bytes, verdict)?;
    Ok(Report {
        text: Text { bytes },
        status: Status::of_verdict(verdict),
    })
}
