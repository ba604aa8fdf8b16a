//! The log of a program.

ghost use Rattle.std.specs.Prelude.{◌≡◌, ◌≤◌, ℕ, IfErr, IfOk, IsErrOf, OnOk};
ghost use Rattle.geo_base.specs.Devices.{HasRisen};
ghost use Rattle.geo_logs.specs.Ends.{too_long};
ghost use Rattle.geo_logs.specs.Moves.{spent, too_large};
ghost use Rattle.geo_poly.specs.declared.limits.Which.{Which};
ghost use Rattle.geo_program.specs.Programs.{source_of};
ghost use Rattle.geo_chain.specs.Written.{first_state};
ghost use Rattle.geo_prover.specs.Inner.Answers.{IsAnswerOf};
ghost use Rattle.geo_prover.specs.Proving.{Concludes, WritesToStop, WritesLog, WritesPart};

use crate::summary::Summary;
use elim_apply::KnownRows;
use geo_base::{Budget, Sink};
use geo_chain::{Frame, LogWriter, ProveError, work, write_first_lines};
use geo_lowering::Version;
use geo_program::Program;
use log_checker::versions::problem_by;
use std::alloc::Global;

/// Writes the defined log of the program, each line as soon as it is made: the header, the program,
/// the chains of its conditions and goals, the sample and the verdict.
pub fn prove<K: Sink>(
    alloc: Global,
    program: &Program,
    steps: u64,
    sink: &mut K,
) -> Result<Summary, ProveError>
    ensures verdict { IfOk result (Concludes (source_of program.now) steps
        (K.held sink.old) (K.held sink.new)) }

    // The last line is that of the stop.
    ensures spent { (line : ℕ) → result ≡ Err (ProveError.Spent line)
        → WritesToStop (source_of program.now) steps (K.held sink.old) (K.held sink.new) spent line }
    ensures too_large { (line : ℕ) (which : Which) → result ≡ Err (ProveError.TooLarge line which)
        → WritesToStop (source_of program.now) steps (K.held sink.old) (K.held sink.new)
        (too_large which) line }

    // The next line is left out.
    ensures too_long { IsErrOf result ProveError.TooLong
        → WritesLog (source_of program.now) steps (K.held sink.old) (K.held sink.new) too_long }

    // After both the log was written in part.
    ensures write_fault { IsErrOf result ProveError.WriteFault
        → HasRisen (K.faults sink.old) (K.faults sink.new)
        × WritesPart (source_of program.now) steps (K.held sink.old) (K.held sink.new) }
    ensures memory { IsErrOf result ProveError.NoMemory
        → WritesPart (source_of program.now) steps (K.held sink.old) (K.held sink.new) }
    ensures faults { K.faults sink.old ≤ K.faults sink.new }
    ensures heard { ¬ IsErrOf result ProveError.WriteFault
        → K.faults sink.new ≡ K.faults sink.old }
{
    prove_all(alloc, program, steps, sink)
}

/// The same, with all errors in one clause.
fn prove_all<K: Sink>(
    alloc: Global,
    program: &Program,
    steps: u64,
    sink: &mut K,
) -> Result<Summary, ProveError>
    ensures ok { IfOk result (Concludes (source_of program.now) steps
        (K.held sink.old) (K.held sink.new)) }
    ensures err { IfErr result (IsAnswerOf (source_of program.now) steps
        (first_state (K.held sink.old) (K.faults sink.old))
        (first_state (K.held sink.new) (K.faults sink.new))) }
    ensures faults { OnOk result (K.faults sink.new ≡ K.faults sink.old) }
{
    let problem = problem_by(alloc, Version::Two, program)?;
    let mut numbers = KnownRows::new(alloc)?;
    let mut budget = Budget { left: steps };
    let mut log = LogWriter::new();
    write_first_lines(alloc, program, &mut log, sink)?;
    let verdict = work(
        alloc,
        Frame::Full,
        &problem,
        &mut numbers,
        &mut budget,
        &mut log,
        sink,
    )?;
    Ok(Summary {
        verdict,
        lines: log.lines,
        charge: steps - budget.left,
    })
}
