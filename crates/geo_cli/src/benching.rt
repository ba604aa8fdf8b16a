//! The command `bench`: a generated program is proved, and told how its log ends.
ghost use Rattle.std.specs.Prelude.{◌≡◌, ◌≢◌, ◌≤◌, IfOk};
ghost use Rattle.geo_cli.specs.Due.{IsBenchDue};
ghost use Rattle.geo_cli.specs.Inner.Answering.{AnswersDue};
ghost use Rattle.geo_cli.specs.Inner.Telling.{TellsEnding, summary_report};
ghost use Rattle.geo_program.specs.Programs.{source_of};

use crate::answers::{answer, push_count};
use crate::reports::{Report, report_stop};
use geo_base::{Sink, SureSink, Text};
use geo_lowering::lower;
use geo_points::NoMemory;
use geo_program::Program;
use geo_prover::{ProveError, Summary, bench_program, prove};
use proof_log::Line;
use proof_printer::{Status, push_verdict};
use std::alloc::Global;

/// Proves the generated program of this number with so many steps, and writes its number, its
/// points and how its log ends. It reads nothing, and the log is not written.
pub fn run_bench<K: Sink>(alloc: Global, number: u32, steps: u64, sink: &mut K) -> Status
    requires first { 1 ≤ number }
    requires last { number ≤ 60 }
    ensures answers { AnswersDue (IsBenchDue number steps) (K.faults sink.old) (K.faults sink.new)
        (K.held sink.old) (K.held sink.new) result }
    ensures reads { result ≢ Status.ReadFault }
    ensures faults { K.faults sink.old ≤ K.faults sink.new }
    ensures heard { result ≢ Status.WriteFault
        → K.faults sink.new ≡ K.faults sink.old }
{
    let Ok(report) = bench_report(alloc, number, steps) else {
        return Status::NoMemory;
    };
    answer(sink, &report.text.bytes, report.status)
}

/// What is to be written for the number.
fn bench_report(alloc: Global, number: u32, steps: u64) -> Result<Report, NoMemory>
    requires first { 1 ≤ number }
    requires last { number ≤ 60 }
    ensures { IfOk result (λ report. IsBenchDue number steps
        (record { text = report.text; status = report.status })) }
{
    let program = bench_program(alloc, number)?;
    let points = lower(alloc, &program)?.steps.count();
    let Report { text, status } = tell_ending(alloc, &program, steps)?;
    let mut bytes = Vec::new(alloc);
    push_count(alloc, &mut bytes, b"bench", number as u64)?;
    push_count(alloc, &mut bytes, b"points", points as u64)?;
    bytes.extend_from_slice(&text.bytes)?;
    Ok(Report {
        text: Text { bytes },
        status,
    })
}

/// How the log of the program ends. The log is written to memory and dropped.
fn tell_ending(alloc: Global, program: &Program, steps: u64) -> Result<Report, NoMemory>
    ensures { IfOk result (TellsEnding (source_of program.now) steps) }
{
    let mut log = SureSink::new(alloc);
    match prove(alloc, program, steps, &mut log) {
        Ok(summary) => tell_summary(alloc, summary),
        Err(ProveError::TooLarge { line, which }) => {
            let stop = Line::StopTooLarge { line, which };
            report_stop(alloc, &stop, Status::TooLarge { line, which })
        }
        Err(ProveError::Spent { line }) => {
            report_stop(alloc, &Line::StopSpent { line }, Status::Spent { line })
        }
        Err(ProveError::TooLong) => Ok(Report {
            text: Text {
                bytes: Vec::new(alloc),
            },
            status: Status::TooLong,
        }),
        // Writing to memory has no fault.
        Err(ProveError::WriteFault | ProveError::NoMemory) => Err(NoMemory),
    }
}

/// How a log ends with a verdict: its lines, its charge and the verdict.
fn tell_summary(alloc: Global, summary: Summary) -> Result<Report, NoMemory>
    ensures { IfOk result (λ report. report ≡ summary_report summary) }
{
    let mut bytes = Vec::new(alloc);
    push_count(alloc, &mut bytes, b"lines", summary.lines)?;
    push_count(alloc, &mut bytes, b"charge", summary.charge)?;
    push_verdict(alloc, &mut bytes, summary.verdict)?;
    Ok(Report {
        text: Text { bytes },
        status: Status::of_verdict(summary.verdict),
    })
}
