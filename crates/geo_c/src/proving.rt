//! The call that proves a program.
ghost use Rattle.std.specs.Prelude.{◌≡◌, ◌≢◌, ◌⊎◌, [], ℕ, List, length};
ghost use Rattle.proof_printer.specs.Due.{Due, IsLogDue};
ghost use Rattle.geo_c.specs.Answers.{AnswersCall, TellsDue, TellsVerdict};
ghost use Rattle.geo_c.specs.Due.{IsProofDue};
ghost use Rattle.geo_c.specs.Calls.{ProvesBytes};
ghost use Rattle.geo_program.specs.Programs.{Spells};
ghost use Rattle.proof_log.specs.declared.log.Verdict.{Verdict};

use crate::answers::{Answer, tell};
use geo_base::SureSink;
use geo_parser::{ParseError, parse};
use geo_program::Program;
use geo_prover::{ProveError, prove};
use proof_printer::Status;
use std::alloc::Global;

/// The most bytes of a program.
const PROGRAM_LIMIT: usize = 1_048_576;

/// Proves the program that the text spells, with so many steps, and writes its log into the buffer.
///
/// The statuses are those of `prove` of the program, but for the ends that a call cannot have: 3, 8
/// and 9. Where the text spells no program, or is longer than 1,048,576 bytes, and where memory runs
/// out, no text is due.
#[unsafe(no_mangle)]
pub extern "C" fn geo_prove(
    alloc: Global,
    text: &[u8],
    steps: u64,
    log: &mut [u8],
    answer: &mut Answer,
) -> u32
    ensures decides { (verdict : Verdict) → TellsVerdict verdict answer.new result
        → ProvesBytes text.now steps log.old log.new answer.new verdict }
    ensures complete { (due : Due) → IsProofDue text.now steps due
        → (result ≡ 10) ⊎ TellsDue due log.old log.new answer.new result }
    ensures answers { AnswersCall (IsProofDue text.now steps) log.old log.new answer.new result }
{
    prove_text(alloc, text, steps, log, answer)
}

/// Proves the program that a text spells, and tells what became of it.
fn prove_text(alloc: Global, text: &[u8], steps: u64, log: &mut [u8], answer: &mut Answer) -> u32
    ensures { AnswersCall (IsProofDue text.now steps) log.old log.new answer.new result }
{
    let mut sink = SureSink::new(alloc);
    match write_log(alloc, text, steps, &mut sink) {
        Status::NoMemory => tell(&[], Status::NoMemory, log, answer),
        status => tell(sink.bytes(), status, log, answer),
    }
}

/// Writes the log of the program that a text spells.
fn write_log(alloc: Global, text: &[u8], steps: u64, sink: &mut SureSink) -> Status
    requires { sink.old ≡ [] }
    ensures { result ≢ Status.NoMemory
        → IsProofDue text.now steps (record { text = sink.new; status = result }) }
{
    if text.len() > PROGRAM_LIMIT {
        return Status::TooLong;
    }
    match parse(alloc, text) {
        Ok(program) => prove_parsed(alloc, &program, steps, sink),
        Err(ParseError::Syntax(fault)) => Status::of_fault(fault),
        Err(ParseError::NoMemory) => Status::NoMemory,
    }
}

/// Proves a program, and writes its log. A write into memory fails only where memory runs out.
fn prove_parsed(alloc: Global, program: &Program, steps: u64, sink: &mut SureSink) -> Status
    requires { sink.old ≡ [] }
    ensures { result ≢ Status.NoMemory → (text : List ℕ) → Spells text program.now
        → IsLogDue steps text (record { text = sink.new; status = result }) }
{
    match prove(alloc, program, steps, sink) {
        Ok(summary) => Status::of_verdict(summary.verdict),
        Err(ProveError::TooLarge { line, which }) => Status::TooLarge { line, which },
        Err(ProveError::Spent { line }) => Status::Spent { line },
        Err(ProveError::TooLong) => Status::TooLong,
        Err(ProveError::WriteFault | ProveError::NoMemory) => Status::NoMemory,
    }
}
