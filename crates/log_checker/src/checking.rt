//! A whole log.

ghost use Rattle.std.specs.Prelude.{◌≡◌, ◌==◌, ◌≤◌, IfErr, IfOk, length, position};
ghost use Rattle.geo_program.specs.Programs.{source_of};
ghost use Rattle.log_checker.specs.Accepted.{BytesMean};
ghost use Rattle.log_checker.specs.Checked.{IsAnswer, TellsStop};
ghost use Rattle.log_checker.specs.Judged.{Refuses};

use crate::accepted::Accepted;
use crate::checker::Checker;
use crate::errors::CheckError;
use std::alloc::Global;

/// Judges a log: accepted with its program and its verdict, or refused at its first bad line. The
/// charges of its lines may add up to so many steps.
pub fn check(alloc: Global, bytes: &[u8], steps: u64) -> Result<Accepted, CheckError>
    requires { length bytes.now ≤ 67108864 }
    ensures accepted { IfOk result (IsAnswer bytes.now steps) }
    ensures means { IfOk result (λ a. BytesMean bytes.now (source_of a.program) a.verdict) }
    ensures refused { IfErr result (TellsStop (Refuses bytes.now steps)) }
{
    let mut checker = Checker::new(alloc, steps)?;
    let mut rest = bytes;
    while let Some(at) = line_feed_at(rest) {
        checker.take(&rest[..at])?;
        rest = &rest[at + 1..];
    }
    checker.finish(rest)
}

/// Where the first line feed stands.
fn line_feed_at(bytes: &[u8]) -> Option<usize>
    ensures { result ≡ position (λ b. b == 10) bytes.now }
{
    bytes.iter().position(|b| *b == b'\n')
}
