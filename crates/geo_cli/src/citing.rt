//! The command `cite`: the statement that a log, names and a program cite is written.
ghost use Rattle.std.specs.Prelude.{◌≡◌, ◌≢◌, ◌≤◌, IfOk, length};
ghost use Rattle.geo_cli.specs.Due.{TellsUncited, cited_line, due_for, no_instance_line};
ghost use Rattle.geo_cli.specs.Inner.Answering.{AnswersDue};
ghost use Rattle.geo_cli.specs.Inner.Telling.{due_of};
ghost use Rattle.geo_cli.specs.declared.order.Command.TheVariants.{Cite};

use crate::answers::{answer, rejected_line};
use crate::reports::{Report, report_fault, report_stop};
use geo_base::{Sink, Text};
use geo_library::{CiteError, cite};
use geo_points::NoMemory;
use proof_log::Line;
use proof_printer::{Status, push_numbered};
use std::alloc::Global;

/// Writes the statement that the bytes cite with so many steps, or tells why they cite none.
pub fn cite_bytes<K: Sink>(alloc: Global, bytes: &[u8], steps: u64, sink: &mut K) -> Status
    requires { length bytes.now ≤ 67108864 }
    ensures answers { AnswersDue (due_for Cite steps bytes.now) (K.faults sink.old)
        (K.faults sink.new) (K.held sink.old) (K.held sink.new) result }
    ensures reads { result ≢ Status.ReadFault }
    ensures faults { K.faults sink.old ≤ K.faults sink.new }
    ensures heard { result ≢ Status.WriteFault
        → K.faults sink.new ≡ K.faults sink.old }
{
    let Ok(report) = report_bytes(alloc, bytes, steps) else {
        return Status::NoMemory;
    };
    answer(sink, &report.text.bytes, report.status)
}

/// What is to be written for the bytes.
fn report_bytes(alloc: Global, bytes: &[u8], steps: u64) -> Result<Report, NoMemory>
    requires { length bytes.now ≤ 67108864 }
    ensures { IfOk result (λ r. due_for Cite steps bytes.now (due_of r)) }
{
    match cite(alloc, bytes, steps) {
        Ok(text) => report_cited(alloc, &text),
        Err(error) => report_uncited(alloc, error),
    }
}

/// What is to be written for a statement that is cited.
fn report_cited(alloc: Global, text: &Text) -> Result<Report, NoMemory>
    ensures { IfOk result (λ r.
        due_of r ≡ record { text = cited_line text.now; status = Status.Done }) }
{
    let mut bytes = Vec::from_slice(alloc, b"cited ")?;
    bytes.extend_from_slice(&text.bytes)?;
    bytes.push(b'\n')?;
    Ok(Report {
        text: Text { bytes },
        status: Status::Done,
    })
}

/// What is to be written where nothing is cited.
fn report_uncited(alloc: Global, error: CiteError) -> Result<Report, NoMemory>
    ensures { IfOk result (λ r. TellsUncited error (due_of r)) }
{
    match error {
        CiteError::Rejected { line, reason } => Ok(Report {
            text: rejected_line(alloc, line, reason)?,
            status: Status::Rejected { line, reason },
        }),
        CiteError::Syntax(fault) => report_fault(alloc, fault.refusal, fault.place),
        CiteError::NotInstance { line } => report_no_instance(alloc, line),
        CiteError::TooLarge { line, which } => {
            let stop = Line::StopTooLarge { line, which };
            report_stop(alloc, &stop, Status::TooLarge { line, which })
        }
        CiteError::Spent { line } => {
            report_stop(alloc, &Line::StopSpent { line }, Status::Spent { line })
        }
        CiteError::NoMemory => Err(NoMemory),
    }
}

/// What is to be written where this line of the cited program asks what is not so.
fn report_no_instance(alloc: Global, line: u64) -> Result<Report, NoMemory>
    ensures { IfOk result (λ r.
        due_of r ≡ record { text = no_instance_line line; status = Status.NotInstance line }) }
{
    let mut bytes = Vec::new(alloc);
    push_numbered(alloc, &mut bytes, b"no instance ", line)?;
    bytes.push(b'\n')?;
    Ok(Report {
        text: Text { bytes },
        status: Status::NotInstance { line },
    })
}
