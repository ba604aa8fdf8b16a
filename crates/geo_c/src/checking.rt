//! The call that checks a log.
ghost use Rattle.std.specs.Prelude.{◌≡◌, ◌≤◌, ◌⊎◌, ℕ, List, length};
ghost use Rattle.proof_printer.specs.Due.{Due};
ghost use Rattle.geo_c.specs.Answers.{AnswersCall, TellsDue, TellsVerdict};
ghost use Rattle.geo_c.specs.Due.{IsCheckDue};
ghost use Rattle.geo_c.specs.Calls.{ChecksBytes};
ghost use Rattle.geo_program.specs.Programs.{source_of};
ghost use Rattle.log_checker.specs.Accepted.{Accepts};
ghost use Rattle.proof_log.specs.declared.log.Verdict.{Verdict};

use crate::answers::{Answer, tell};
use geo_program::Program;
use log_checker::check;
use proof_log::Verdict;
use proof_printer::{Status, accepted_text};
use std::alloc::Global;

/// The most bytes of a log.
pub(crate) const LOG_LIMIT: usize = 67_108_864;

/// Checks a log with so many steps, whoever wrote it. Where it is accepted, the buffer gets its
/// program, the conditions of the program, and the verdict.
///
/// The statuses are those of `check` of the program, but for the ends that a call cannot have: 3, 8
/// and 9. Where the log is refused, or is longer than 67,108,864 bytes, and where memory runs out, no
/// text is due.
#[unsafe(no_mangle)]
pub extern "C" fn geo_check(
    alloc: Global,
    log: &[u8],
    steps: u64,
    told: &mut [u8],
    answer: &mut Answer,
) -> u32
    ensures decides { (verdict : Verdict) → TellsVerdict verdict answer.new result
        → ChecksBytes log.now steps told.old told.new answer.new verdict }
    ensures complete { (due : Due) → IsCheckDue log.now steps due
        → (result ≡ 10) ⊎ TellsDue due told.old told.new answer.new result }
    ensures answers { AnswersCall (IsCheckDue log.now steps) told.old told.new answer.new result }
{
    check_log(alloc, log, steps, told, answer)
}

/// Checks a log, and tells what became of it.
fn check_log(alloc: Global, log: &[u8], steps: u64, told: &mut [u8], answer: &mut Answer) -> u32
    ensures { AnswersCall (IsCheckDue log.now steps) told.old told.new answer.new result }
{
    if log.len() > LOG_LIMIT {
        return tell(&[], Status::TooLong, told, answer);
    }
    match check(alloc, log, steps) {
        Ok(accepted) => accept(alloc, &accepted.program, accepted.verdict, told, answer),
        Err(error) => tell(&[], Status::of_error(error), told, answer),
    }
}

/// Tells an accepted log.
fn accept(
    alloc: Global,
    program: &Program,
    verdict: Verdict,
    told: &mut [u8],
    answer: &mut Answer,
) -> u32
    ensures { (bytes : List ℕ) (steps : ℕ) → length bytes ≤ 67108864
        → Accepts bytes steps (source_of program.now) verdict
        → AnswersCall (IsCheckDue bytes steps) told.old told.new answer.new result }
{
    match accepted_text(alloc, program, verdict) {
        Ok(text) => tell(&text.bytes, Status::of_verdict(verdict), told, answer),
        Err(_) => tell(&[], Status::NoMemory, told, answer),
    }
}
