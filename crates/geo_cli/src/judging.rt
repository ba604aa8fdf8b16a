//! A log that is read and judged line by line.
ghost use Rattle.std.specs.Prelude.{◌≡◌, ◌≤◌, IfOk, IsErrOf, OnErr};
ghost use Rattle.geo_base.specs.Devices.{HasRisen};
ghost use Rattle.geo_cli.specs.Inner.Judgements.{IsJudgedInput};
ghost use Rattle.geo_cli.specs.Input.{IsLong, Takes, log_limit};

use geo_base::{LineReader, NextLine, ReadError, Source};
use log_checker::{Accepted, CheckError, Checker};
use std::alloc::Global;

/// The most bytes of a log.
pub const LOG_LIMIT: u64 = 67_108_864;

/// Reads a log to its end, and judges it. Behind a refusal it reads on, for an input that fails or
/// is too long is no log.
pub fn judge_input<S: Source>(
    alloc: Global,
    steps: u64,
    source: &mut S,
) -> Result<Result<Accepted, CheckError>, ReadError>
    ensures judged { IfOk result (IsJudgedInput steps (S.left source.old) (S.left source.new)) }
    ensures too_long { IsErrOf result ReadError.TooLong
        → IsLong log_limit (S.left source.old) (S.left source.new) }
    ensures lost { OnErr result (Takes log_limit (S.left source.old) (S.left source.new)) }
    ensures fault { IsErrOf result ReadError.ReadFault
        → HasRisen (S.faults source.old) (S.faults source.new) }
    ensures faults { S.faults source.old ≤ S.faults source.new }
    ensures heard { ¬ IsErrOf result ReadError.ReadFault
        → S.faults source.new ≡ S.faults source.old }
{
    let Ok(mut reader) = LineReader::new(alloc, LOG_LIMIT) else {
        return Err(ReadError::NoMemory);
    };
    let Ok(mut checker) = Checker::new(alloc, steps) else {
        return Err(ReadError::NoMemory);
    };
    loop {
        match reader.next(source)? {
            // After an error the checker answers the same, at the end too.
            NextLine::Line(line) => {
                let _ = checker.take(&line.bytes);
            }
            NextLine::Rest(rest) => return Ok(checker.finish(&rest.bytes)),
        }
    }
}
