//! The commands `place` and `figure`: the points of a program at values are written.
ghost use Rattle.std.specs.Prelude.{◌≡◌, ◌≢◌, ◌+◌, ◌≤◌, ◌<◌, ◌^◌, All, IfOk, length, true};
ghost use Rattle.std.specs.Prelude.{unsigned_abs};
ghost use Rattle.geo_cli.specs.Due.{IsDueForValues, IsRestDue, IsValuesDue, TellsPoints};
ghost use Rattle.geo_cli.specs.Due.{large_due, unmet_line};
ghost use Rattle.geo_cli.specs.Inner.Answering.{AnswersDue};
ghost use Rattle.geo_cli.specs.Inner.Telling.{due_of};
ghost use Rattle.geo_cli.specs.Values.{values_line};
ghost use Rattle.geo_place.specs.Placing.{IsDrawable};

use crate::answers::answer;
use crate::reports::{Report, report_fault};
use crate::values::split_values;
use geo_base::{Sink, Text};
use geo_figure::{DrawError, draw};
use geo_parser::{ParseError, parse};
use geo_place::{Ints, PlaceError, Placed, place, placed_text, wanted};
use geo_points::NoMemory;
use geo_poly::Which;
use geo_program::Program;
use proof_log::{Line, write_line};
use proof_printer::{Status, push_numbered};
use std::alloc::Global;

/// Writes the points of a program at the values before it, as text or drawn, or tells why there are
/// none.
pub fn place_bytes<K: Sink>(alloc: Global, bytes: &[u8], drawn: bool, sink: &mut K) -> Status
    requires { length bytes.now ≤ 1048576 }
    ensures answers { AnswersDue (IsDueForValues drawn bytes.now) (K.faults sink.old)
        (K.faults sink.new) (K.held sink.old) (K.held sink.new) result }
    ensures reads { result ≢ Status.ReadFault }
    ensures faults { K.faults sink.old ≤ K.faults sink.new }
    ensures heard { result ≢ Status.WriteFault
        → K.faults sink.new ≡ K.faults sink.old }
{
    let Ok(report) = report_bytes(alloc, bytes, drawn) else {
        return Status::NoMemory;
    };
    answer(sink, &report.text.bytes, report.status)
}

/// What is to be written for the bytes.
fn report_bytes(alloc: Global, bytes: &[u8], drawn: bool) -> Result<Report, NoMemory>
    requires { length bytes.now ≤ 1048576 }
    ensures { IfOk result (λ r. IsDueForValues drawn bytes.now (due_of r)) }
{
    match split_values(alloc, bytes)? {
        Some((values, rest)) => {
            let before = bytes.len() - rest.len();
            report_rest(alloc, &values, before as u64, rest, drawn)
        }
        None => report_fault(alloc, 13, 0),
    }
}

/// What is to be written for values and the bytes behind them, where so many bytes stand before.
fn report_rest(
    alloc: Global,
    values: &Ints,
    before: u64,
    rest: &[u8],
    drawn: bool,
) -> Result<Report, NoMemory>
    requires before { before ≡ length (values_line values.now) }
    requires few { before + length rest.now ≤ 1048576 }
    requires short { All (λ z. unsigned_abs z < 2 ^ 127) values.now }
    ensures { IfOk result (λ r. IsRestDue drawn values.now rest.now (due_of r)) }
{
    match parse(alloc, rest) {
        Ok(program) => report_program(alloc, &program, values, drawn),
        Err(ParseError::Syntax(fault)) => report_fault(alloc, fault.refusal, before + fault.place),
        Err(ParseError::NoMemory) => Err(NoMemory),
    }
}

/// What is to be written for values and a program.
fn report_program(
    alloc: Global,
    program: &Program,
    values: &Ints,
    drawn: bool,
) -> Result<Report, NoMemory>
    requires { All (λ z. unsigned_abs z < 2 ^ 127) values.now }
    ensures { IfOk result (λ r. IsValuesDue drawn program.now values.now (due_of r)) }
{
    if values.items.len() as u64 != wanted(program) {
        return report_fault(alloc, 14, 0);
    }
    match place(alloc, program, values) {
        Ok(placed) => report_points(alloc, &placed, drawn),
        Err(PlaceError::Unmet(number)) => report_unmet(alloc, number),
        Err(PlaceError::TooLarge { line }) => report_large(alloc, line),
        Err(PlaceError::NoMemory) => Err(NoMemory),
    }
}

/// What is to be written for placed points.
fn report_points(alloc: Global, placed: &Placed, drawn: bool) -> Result<Report, NoMemory>
    requires { All IsDrawable placed.now.points }
    ensures { IfOk result (λ r. TellsPoints drawn placed.now (due_of r)) }
{
    if drawn {
        return report_drawing(alloc, placed);
    }
    Ok(Report {
        text: placed_text(alloc, placed)?,
        status: Status::Done,
    })
}

/// What is to be written for a drawing of placed points.
fn report_drawing(alloc: Global, placed: &Placed) -> Result<Report, NoMemory>
    requires { All IsDrawable placed.now.points }
    ensures { IfOk result (λ r. TellsPoints true placed.now (due_of r)) }
{
    match draw(alloc, placed) {
        Ok(text) => Ok(Report {
            text,
            status: Status::Done,
        }),
        Err(DrawError::TooLarge { line }) => report_large(alloc, line),
        Err(DrawError::NoMemory) => Err(NoMemory),
    }
}

/// What is to be written for the condition of this number, which is not met.
fn report_unmet(alloc: Global, number: u32) -> Result<Report, NoMemory>
    ensures { IfOk result (λ r.
        due_of r ≡ record { text = unmet_line number; status = Status.Unmet number }) }
{
    let mut bytes = Vec::new(alloc);
    push_numbered(alloc, &mut bytes, b"unmet ", number as u64)?;
    bytes.push(b'\n')?;
    Ok(Report {
        text: Text { bytes },
        status: Status::Unmet(number),
    })
}

/// What is to be written for a number that is too large, at this line.
fn report_large(alloc: Global, line: u64) -> Result<Report, NoMemory>
    ensures { IfOk result (λ r. due_of r ≡ large_due line) }
{
    let which = Which::Norm;
    Ok(Report {
        text: write_line(alloc, &Line::StopTooLarge { line, which })?,
        status: Status::TooLarge { line, which },
    })
}
