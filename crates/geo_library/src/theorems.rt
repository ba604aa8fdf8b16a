//! The theorem that an input begins with: an accepted log with Proved, of a program without lines.

ghost use Rattle.std.specs.Prelude.{◌≡◌, ◌≤◌, ◌<◌, ℕ, false, true, All, IfErr, IfNone, IfOk, IfSome, List};
ghost use Rattle.std.specs.Prelude.{length, slice_index_or, take};
ghost use Rattle.geo_program.specs.Programs.{source_of};
ghost use Rattle.geo_program.specs.declared.commands.Command.TheVariants.{Point};
ghost use Rattle.log_checker.specs.Checked.{IsAnswer};
ghost use Rattle.proof_log.specs.declared.log.Verdict.TheVariants.{Proved};
ghost use Rattle.geo_library.specs.CitedGoals.{has_lines};
ghost use Rattle.geo_library.specs.Citations.{HasNoLines};
ghost use Rattle.geo_library.specs.Inputs.{BeginsWithLog};
ghost use Rattle.geo_library.specs.Told.{TellsRefusal};

use crate::errors::CiteError;
use crate::goals::has_lines;
use geo_program::Command;
use log_checker::{Accepted, check};
use proof_log::Verdict;
use std::alloc::Global;

/// The accepted log, where its verdict is Proved and its program has no lines.
pub fn theorem_of(alloc: Global, log: &[u8], steps: u64) -> Result<Accepted, CiteError>
    requires { length log.now ≤ 67108864 }
    ensures accepted { IfOk result (IsAnswer log.now steps) }
    ensures proved { IfOk result (λ a. a.verdict ≡ Proved) }
    ensures no_lines { IfOk result (λ a. HasNoLines (source_of a.program)) }
    ensures refused { (bytes rest : List ℕ) → BeginsWithLog bytes log.now rest
        → IfErr result (TellsRefusal bytes steps) }
{
    let accepted = check(alloc, log, steps)?;
    if accepted.verdict != Verdict::Proved {
        return Err(CiteError::Rejected {
            line: accepted.lines,
            reason: 33,
        });
    }
    if let Some(place) = first_with_lines(accepted.program.commands.as_slice()) {
        return Err(CiteError::Rejected {
            line: place as u64 + 2,
            reason: 34,
        });
    }
    Ok(accepted)
}

/// The place of the first command that has lines.
fn first_with_lines(commands: &[Command]) -> Option<usize>
    ensures within { IfSome result (λ k. k < length commands.now) }
    ensures lines { IfSome result (λ k.
        has_lines (slice_index_or commands.now k Point) ≡ true) }
    ensures first { IfSome result (λ k.
        All (λ c. has_lines c ≡ false) (take k commands.now)) }
    ensures none { IfNone result (All (λ c. has_lines c ≡ false) commands.now) }
{
    for (k, command) in commands.iter().enumerate() {
        if has_lines(*command) {
            return Some(k);
        }
    }
    None
}
