//! The verdict in the frame in which the first point is the origin.

ghost use Rattle.std.specs.Prelude.{◌≡◌, ◌+◌, ◌^◌, ◌<◌, ℕ, Err, IfErr, IfOk, length};
ghost use Rattle.geo_discover.specs.FixedEnds.{EndsWithVerdict, StopsAtLine};
ghost use Rattle.geo_discover.specs.Inner.Fixing.{IsFixedStop};
ghost use Rattle.geo_logs.specs.Moves.{spent, too_large};
ghost use Rattle.geo_poly.specs.declared.limits.Which.{Which};
ghost use Rattle.geo_program.specs.Programs.{source_of};
ghost use Rattle.log_checker.specs.Laws.{IsDecided};

use crate::errors::FixedError;
use elim_apply::KnownRows;
use geo_base::{Budget, SureSink};
use geo_chain::{Frame, LogWriter, work};
use geo_lowering::Version;
use geo_program::Program;
use log_checker::versions::problem_by;
use proof_log::Verdict;
use std::alloc::Global;

/// The verdict of the program's log in the frame in which the first point is the origin. Its lines
/// are counted, and not written.
pub fn fixed(alloc: Global, program: &Program, steps: u64) -> Result<Verdict, FixedError>
    ensures verdict { IfOk result (EndsWithVerdict (source_of program.now) steps) }
    ensures decides { IfOk result (IsDecided (source_of program.now)) }
    ensures spent { (line : ℕ) → result ≡ Err (FixedError.Spent line)
        → StopsAtLine (source_of program.now) steps spent line }
    ensures too_large { (line : ℕ) (which : Which)
        → result ≡ Err (FixedError.TooLarge line which)
        → StopsAtLine (source_of program.now) steps (too_large which) line }
{
    fixed_all(alloc, program, steps)
}

/// The same, with all errors in one clause.
fn fixed_all(alloc: Global, program: &Program, steps: u64) -> Result<Verdict, FixedError>
    ensures verdict { IfOk result (EndsWithVerdict (source_of program.now) steps) }
    ensures decides { IfOk result (IsDecided (source_of program.now)) }
    ensures err { IfErr result (IsFixedStop (source_of program.now) steps) }
{
    let problem = problem_by(alloc, Version::Two, program)?;
    let mut numbers = KnownRows::new(alloc)?;
    let mut budget = Budget { left: steps };
    let mut log = LogWriter::counting(lines_before(program));
    let mut sink = SureSink::new(alloc);
    let verdict = work(
        alloc,
        Frame::Fixed,
        &problem,
        &mut numbers,
        &mut budget,
        &mut log,
        &mut sink,
    )?;
    Ok(verdict)
}

/// The lines of a log before its chains: the header, the commands, the statement.
pub(crate) fn lines_before(program: &Program) -> u64
    ensures count { result ≡ length program.now.commands + 2 }
    ensures small { result + 1 < 2 ^ 64 }
{
    program.commands.as_slice().len() as u64 + 2
}
