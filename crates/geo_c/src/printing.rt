//! The call that writes a log as a proof that a person reads.
ghost use Rattle.std.specs.Prelude.{◌≡◌, ◌⊎◌};
ghost use Rattle.proof_printer.specs.Due.{Due};
ghost use Rattle.geo_c.specs.Answers.{AnswersCall, TellsDue};
ghost use Rattle.geo_c.specs.Due.{IsTextDue};
ghost use Rattle.geo_c.specs.Calls.{PrintsBytes};

use crate::answers::{Answer, tell};
use crate::checking::LOG_LIMIT;
use proof_printer::{Status, text};
use std::alloc::Global;

/// Checks a log with so many steps, and writes it into the buffer as a proof that a person reads,
/// where it is accepted: the status is 13 then, whatever its verdict.
///
/// The other statuses are those of `text` of the program, but for the ends that a call cannot have:
/// 3, 8 and 9. Where the log is refused, or is longer than 67,108,864 bytes, and where memory runs
/// out, no text is due.
#[unsafe(no_mangle)]
pub extern "C" fn geo_text(
    alloc: Global,
    log: &[u8],
    steps: u64,
    proof: &mut [u8],
    answer: &mut Answer,
) -> u32
    ensures prints { result ≡ 13 → PrintsBytes log.now steps proof.old proof.new answer.new }
    ensures complete { (due : Due) → IsTextDue log.now steps due
        → (result ≡ 10) ⊎ TellsDue due proof.old proof.new answer.new result }
    ensures answers { AnswersCall (IsTextDue log.now steps) proof.old proof.new answer.new result }
{
    print_log(alloc, log, steps, proof, answer)
}

/// Writes the readable proof of a log, or tells why there is none.
fn print_log(alloc: Global, log: &[u8], steps: u64, proof: &mut [u8], answer: &mut Answer) -> u32
    ensures { AnswersCall (IsTextDue log.now steps) proof.old proof.new answer.new result }
{
    if log.len() > LOG_LIMIT {
        return tell(&[], Status::TooLong, proof, answer);
    }
    match text(alloc, log, steps) {
        Ok(readable) => tell(&readable.bytes, Status::Done, proof, answer),
        Err(error) => tell(&[], Status::of_error(error), proof, answer),
    }
}
