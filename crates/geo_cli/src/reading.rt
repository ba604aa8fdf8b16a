//! The commands that read their input whole, and then work on it.
ghost use Rattle.std.specs.Prelude.{◌≡◌, ◌≢◌, ◌≤◌, ℕ, List, length};
ghost use Rattle.geo_cli.specs.Due.{due_for};
ghost use Rattle.geo_cli.specs.Inner.Answering.{AnswersDue, AnswersInput, ReadsProgram, ReadsWhole};
ghost use Rattle.geo_cli.specs.Input.{Takes, limit_of};
ghost use Rattle.geo_program.specs.Programs.{Spells, program_text};

use crate::answers::{TOO_LONG, answer};
use crate::citing::cite_bytes;
use crate::discovering::discover_program;
use crate::fixing::fix_program;
use crate::judging::LOG_LIMIT;
use crate::order::Command;
use crate::placing::place_bytes;
use crate::printing::print_bytes;
use crate::proving::{prove_program, refuse};
use geo_base::{ReadError, Sink, Source, read_all};
use geo_parser::{ParseError, parse};
use geo_program::Program;
use proof_printer::Status;
use std::alloc::Global;

/// The most bytes of a program, with the line of its values.
const PROGRAM_LIMIT: u64 = 1_048_576;

/// Reads the input to its end, and writes what the command with so many steps makes of it.
pub fn run_reading<S: Source, K: Sink>(
    alloc: Global,
    command: Command,
    steps: u64,
    source: &mut S,
    sink: &mut K,
) -> Status
    requires { ReadsWhole command }
    ensures answers { AnswersInput (limit_of command) (due_for command steps)
        (S.left source.old) (S.left source.new) (S.faults source.old) (S.faults source.new)
        (K.faults sink.old) (K.faults sink.new) (K.held sink.old) (K.held sink.new) result }
    ensures unwritten { result ≡ Status.ReadFault → sink.new ≡ sink.old }
    ensures taken { Takes (limit_of command) (S.left source.old) (S.left source.new) }
    ensures source_faults { S.faults source.old ≤ S.faults source.new }
    ensures sink_faults { K.faults sink.old ≤ K.faults sink.new }
    ensures source_heard { result ≢ Status.ReadFault
        → S.faults source.new ≡ S.faults source.old }
    ensures sink_heard { result ≢ Status.WriteFault
        → K.faults sink.new ≡ K.faults sink.old }
{
    match read_all(alloc, source, limit_of(command)) {
        Ok(bytes) => answer_bytes(alloc, command, steps, &bytes, sink),
        Err(ReadError::TooLong) => answer(sink, TOO_LONG, Status::TooLong),
        Err(ReadError::ReadFault) => Status::ReadFault,
        Err(ReadError::NoMemory) => Status::NoMemory,
    }
}

/// The most bytes that the command reads.
fn limit_of(command: Command) -> u64
    requires { ReadsWhole command }
    ensures limit { result ≡ limit_of command }
    ensures most { result ≤ 67108864 }
{
    match command {
        Command::Text => LOG_LIMIT,
        Command::Cite => LOG_LIMIT,
        _ => PROGRAM_LIMIT,
    }
}

/// Writes what the command makes of the bytes.
fn answer_bytes<K: Sink>(
    alloc: Global,
    command: Command,
    steps: u64,
    bytes: &[u8],
    sink: &mut K,
) -> Status
    requires whole { ReadsWhole command }
    requires short { length bytes.now ≤ limit_of command }
    ensures answers { AnswersDue (due_for command steps bytes.now) (K.faults sink.old)
        (K.faults sink.new) (K.held sink.old) (K.held sink.new) result }
    ensures reads { result ≢ Status.ReadFault }
    ensures faults { K.faults sink.old ≤ K.faults sink.new }
    ensures heard { result ≢ Status.WriteFault
        → K.faults sink.new ≡ K.faults sink.old }
{
    match command {
        Command::Text => print_bytes(alloc, bytes, steps, sink),
        Command::Cite => cite_bytes(alloc, bytes, steps, sink),
        Command::Place => place_bytes(alloc, bytes, false, sink),
        Command::Figure => place_bytes(alloc, bytes, true, sink),
        _ => answer_program(alloc, command, steps, bytes, sink),
    }
}

/// Writes what the command makes of the program that the bytes spell, or tells why they spell none.
fn answer_program<K: Sink>(
    alloc: Global,
    command: Command,
    steps: u64,
    bytes: &[u8],
    sink: &mut K,
) -> Status
    requires program { ReadsProgram command }
    requires short { length bytes.now ≤ 1048576 }
    ensures answers { AnswersDue (due_for command steps bytes.now) (K.faults sink.old)
        (K.faults sink.new) (K.held sink.old) (K.held sink.new) result }
    ensures reads { result ≢ Status.ReadFault }
    ensures faults { K.faults sink.old ≤ K.faults sink.new }
    ensures heard { result ≢ Status.WriteFault
        → K.faults sink.new ≡ K.faults sink.old }
{
    match parse(alloc, bytes) {
        Ok(program) => work_program(alloc, command, steps, &program, sink),
        Err(ParseError::Syntax(fault)) => refuse(alloc, fault, sink),
        Err(ParseError::NoMemory) => Status::NoMemory,
    }
}

/// Writes what the command makes of the program.
fn work_program<K: Sink>(
    alloc: Global,
    command: Command,
    steps: u64,
    program: &Program,
    sink: &mut K,
) -> Status
    requires program { ReadsProgram command }
    requires short { length (program_text program.now) ≤ 67108864 }
    ensures answers { (bytes : List ℕ) → Spells bytes program.now
        → AnswersDue (due_for command steps bytes) (K.faults sink.old) (K.faults sink.new)
        (K.held sink.old) (K.held sink.new) result }
    ensures reads { result ≢ Status.ReadFault }
    ensures faults { K.faults sink.old ≤ K.faults sink.new }
    ensures heard { result ≢ Status.WriteFault
        → K.faults sink.new ≡ K.faults sink.old }
{
    match command {
        Command::Prove => prove_program(alloc, program, steps, sink),
        Command::Fixed => fix_program(alloc, program, steps, sink),
        Command::Discover => discover_program(alloc, program, steps, sink),
        _ => unreachable!(),
    }
}
