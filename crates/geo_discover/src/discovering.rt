//! All relations of the stated kinds between the points of a figure.

ghost use Rattle.std.specs.Prelude.{◌≡◌, ◌≤◌, ℕ, Err, IfErr, IfOk, IsErrOf, OnOk, length};
ghost use Rattle.std.specs.List.{AllByRecursion};
ghost use Rattle.geo_base.specs.Devices.{HasRisen};
ghost use Rattle.geo_discover.specs.FoundTexts.{WritesFound, WritesFoundPart, WritesTooLong};
ghost use Rattle.geo_discover.specs.FoundTexts.{found, impossible, open_by};
ghost use Rattle.geo_discover.specs.Candidates.{candidates};
ghost use Rattle.geo_discover.specs.Inner.Searching.{BreaksSearch, Examines, IsAnswer, IsCandidate};
ghost use Rattle.geo_discover.specs.Inner.Searching.{progress};
ghost use Rattle.geo_discover.specs.Inner.Sharing.{IsFigureOf};
ghost use Rattle.geo_discover.specs.Inner.Walks.{candidates_left};
ghost use Rattle.geo_logs.specs.Ends.{ends_by};
ghost use Rattle.geo_logs.specs.Moves.{spent, too_large};
ghost use Rattle.geo_poly.specs.declared.limits.Which.{Which};
ghost use Rattle.geo_program.specs.Programs.{program_text, source_of};

use crate::candidates::Candidates;
use crate::errors::DiscoverError;
use crate::figure::{Figure, figure_of};
use crate::point_counts::point_count;
use crate::search::{Found, Search};
use geo_base::Sink;
use geo_points::NoMemory;
use geo_program::{Printer, Program};
use std::alloc::Global;

/// Writes each relation between the points of the program, each with its log; the candidates that
/// are open with so many steps for each; and how many of both there are. The statement of the
/// program is not looked at.
pub fn discover<K: Sink>(
    alloc: Global,
    program: &Program,
    steps: u64,
    sink: &mut K,
) -> Result<Found, DiscoverError>
    requires short { length (program_text program.now) ≤ 67108864 }
    ensures found { IfOk result (λ f. WritesFound (source_of program.now) steps
        (K.held sink.old) (K.held sink.new) (found f.relations)) }
    ensures impossible { (k : ℕ) → result ≡ Err (DiscoverError.Impossible k)
        → WritesFound (source_of program.now) steps (K.held sink.old) (K.held sink.new)
        (impossible k) }

    // The end of the first open candidate's log, where all is written.
    ensures spent { (line : ℕ) → result ≡ Err (DiscoverError.Spent line)
        → WritesFound (source_of program.now) steps (K.held sink.old) (K.held sink.new)
        (open_by (ends_by spent) line) }
    ensures too_large { (line : ℕ) (which : Which)
        → result ≡ Err (DiscoverError.TooLarge line which)
        → WritesFound (source_of program.now) steps (K.held sink.old) (K.held sink.new)
        (open_by (ends_by (too_large which)) line) }
    ensures too_long { IsErrOf result DiscoverError.TooLong
        → WritesTooLong (source_of program.now) steps (K.held sink.old) (K.held sink.new) }

    // After both the text was written in part.
    ensures write_fault { IsErrOf result DiscoverError.WriteFault
        → HasRisen (K.faults sink.old) (K.faults sink.new)
        × WritesFoundPart (source_of program.now) steps (K.held sink.old) (K.held sink.new) }
    ensures memory { IsErrOf result DiscoverError.NoMemory
        → WritesFoundPart (source_of program.now) steps (K.held sink.old) (K.held sink.new) }
    ensures faults { K.faults sink.old ≤ K.faults sink.new }
    ensures heard { ¬ IsErrOf result DiscoverError.WriteFault
        → K.faults sink.new ≡ K.faults sink.old }
{
    discover_all(alloc, program, steps, sink)
}

/// The same, with all errors in one clause.
fn discover_all<K: Sink>(
    alloc: Global,
    program: &Program,
    steps: u64,
    sink: &mut K,
) -> Result<Found, DiscoverError>
    requires short { length (program_text program.now) ≤ 67108864 }
    ensures ok { IfOk result (λ f. WritesFound (source_of program.now) steps
        (K.held sink.old) (K.held sink.new) (found f.relations)) }
    ensures err { IfErr result (IsAnswer (source_of program.now) steps
        (K.held sink.old) (K.held sink.new) (K.faults sink.old) (K.faults sink.new)) }
    ensures faults { K.faults sink.old ≤ K.faults sink.new }
    ensures heard { ¬ IsErrOf result DiscoverError.WriteFault
        → K.faults sink.new ≡ K.faults sink.old }
{
    let all = candidates_of(program)?;
    let mut search = Search::new();
    examine_all(alloc, program, steps, all, &mut search, sink)?;
    search.conclude(alloc, sink)
}

/// The candidates of the program.
fn candidates_of(program: &Program) -> Result<Candidates, NoMemory>
    ensures { IfOk result (λ all. candidates_left all ≡ candidates (source_of program.now)) }
{
    let points = point_count(program.names.as_slice())?;
    Ok(Candidates::over(points))
}

/// Examines the candidates in order.
fn examine_all<K: Sink>(
    alloc: Global,
    program: &Program,
    steps: u64,
    all: Candidates,
    search: &mut Search,
    sink: &mut K,
) -> Result<(), DiscoverError>
    requires short { length (program_text program.now) ≤ 67108864 }
    requires candidates { AllByRecursion (IsCandidate (source_of program.now))
        (candidates_left all) }
    ensures ok { OnOk result (Examines (source_of program.now) steps (candidates_left all)
        (progress search.old (K.held sink.old)) (progress search.new (K.held sink.new))) }
    ensures err { IfErr result (BreaksSearch (source_of program.now) steps (candidates_left all)
        (progress search.old (K.held sink.old)) (K.held sink.new)
        (K.faults sink.old) (K.faults sink.new)) }
    ensures faults { K.faults sink.old ≤ K.faults sink.new }
    ensures heard { ¬ IsErrOf result DiscoverError.WriteFault
        → K.faults sink.new ≡ K.faults sink.old }
{
    let mut ahead = all;
    let Some(first) = ahead.next() else {
        return Ok(());
    };
    let mut figure = figure_of(alloc, program, steps, first)?;
    let printer = Printer::new(alloc, program)?;
    examine_each(alloc, program, &printer, &mut figure, all, search, sink)
}

/// The same, with what they have in common.
fn examine_each<K: Sink>(
    alloc: Global,
    program: &Program,
    printer: &Printer,
    figure: &mut Figure,
    all: Candidates,
    search: &mut Search,
    sink: &mut K,
) -> Result<(), DiscoverError>
    requires short { length (program_text program.now) ≤ 67108864 }
    requires names { printer.now.names ≡ program.now.names }
    requires terms { printer.now.terms.now ≡ program.now.terms }
    requires figure { IsFigureOf (source_of program.now) figure.old }
    requires candidates { AllByRecursion (IsCandidate (source_of program.now))
        (candidates_left all) }
    ensures ok { OnOk result (Examines (source_of program.now) figure.old.steps
        (candidates_left all)
        (progress search.old (K.held sink.old)) (progress search.new (K.held sink.new))) }
    ensures err { IfErr result (BreaksSearch (source_of program.now) figure.old.steps
        (candidates_left all)
        (progress search.old (K.held sink.old)) (K.held sink.new)
        (K.faults sink.old) (K.faults sink.new)) }
    ensures faults { K.faults sink.old ≤ K.faults sink.new }
    ensures heard { ¬ IsErrOf result DiscoverError.WriteFault
        → K.faults sink.new ≡ K.faults sink.old }
{
    let mut left = all;
    while let Some(statement) = left.next() {
        search.examine(alloc, program, printer, figure, statement, sink)?;
    }
    Ok(())
}
