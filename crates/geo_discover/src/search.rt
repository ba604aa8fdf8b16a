//! A search: each candidate in order, what it is found to be, and what is written of it.

ghost use Rattle.std.specs.Prelude.{◌+◌, ◌≤◌};

use crate::answers::answer_to;
use crate::errors::DiscoverError;
use crate::examining::{Judgement, judge};
use crate::figure::Figure;
use crate::found_lines::{put_candidate, put_counts, put_impossible};
use crate::found_text::FoundText;
use geo_base::{Sink, SureSink};
use geo_chain::ProveError;
use geo_program::{Printer, Program, Statement};
use std::alloc::Global;

/// What a search found.
#[derive(Clone, Copy, Debug, PartialEq, Eq)]
pub struct Found {
    /// How many candidates are relations.
    pub relations: u64,
}

/// A search under way.
#[derive(Drop)]
pub(crate) struct Search {
    /// The text so far.
    pub text: FoundText,
    /// How many candidates were examined.
    pub examined: u64,
    /// How many of them are relations.
    pub relations: u64,
    /// How many are open.
    pub open_ones: u64,
    /// How the log of the first open one ends.
    pub first_open: Option<ProveError>,
    ghost few: { relations + open_ones ≤ examined },
}

impl Search {
    ghost use Rattle.std.specs.Prelude.{◌≡◌, ◌≢◌, ◌+◌, ◌^◌, ◌<◌, ◌≤◌, ◌∷◌, [], ℕ, IfErr, IfOk, IsErrOf, IsOk, List, None, OnOk, Option, length, map};
    ghost use Rattle.std.specs.List.{AllByRecursion};
    ghost use Rattle.geo_program.specs.Programs.{program_text, source_of};
    ghost use Rattle.proof_log.specs.declared.log.Line.{Line};
    ghost use Rattle.proof_log.specs.Lines.{line_text, log_text};
    ghost use Rattle.proof_log.specs.Writable.{HasNoLineFeed};
    ghost use Rattle.geo_discover.specs.FoundTexts.{candidate_lines, nothing, open_still, relation, candidate_text};
    ghost use Rattle.geo_discover.specs.Inner.Puts.{BreaksOff, PutsLines};
    ghost use Rattle.geo_discover.specs.Inner.Searching.{Adds, BreaksSearch, Examines, IsCandidate, IsNeverMet, IsUnsettled};
    ghost use Rattle.geo_discover.specs.Inner.Sharing.{IsFigureOf};
    ghost use Rattle.geo_discover.specs.Inner.Searching.{counts_line, first_of, progress};

    /// Nothing is examined yet.
    pub fn new() -> Search
        ensures examined { result.examined ≡ 0 }
        ensures relations { result.relations ≡ 0 }
        ensures open_ones { result.open_ones ≡ 0 }
        ensures first { result.first_open ≡ None }
        ensures bytes { result.text.bytes ≡ 0 }
    {
        Search {
            text: FoundText::new(),
            examined: 0,
            relations: 0,
            open_ones: 0,
            first_open: None,
        }
    }

    /// Examines the next candidate, and writes what it is found to be.
    pub fn examine<K: Sink>(
        &mut self,
        alloc: Global,
        program: &Program,
        printer: &Printer,
        figure: &mut Figure,
        statement: Statement,
        sink: &mut K,
    ) -> Result<(), DiscoverError>
        requires candidate { IsCandidate (source_of program.now) statement }
        requires short { length (program_text program.now) ≤ 67108864 }
        requires names { printer.now.names ≡ program.now.names }
        requires terms { printer.now.terms.now ≡ program.now.terms }
        requires figure { IsFigureOf (source_of program.now) figure.old }
        ensures ok { OnOk result (Examines (source_of program.now) figure.old.steps
            (statement ∷ [])
            (progress self.old (K.held sink.old)) (progress self.new (K.held sink.new))) }
        ensures err { IfErr result (BreaksSearch (source_of program.now) figure.old.steps
            (statement ∷ []) (progress self.old (K.held sink.old)) (K.held sink.new)
            (K.faults sink.old) (K.faults sink.new)) }
        ensures figure { OnOk result (IsFigureOf (source_of program.now) figure.new) }
        ensures steps { figure.new.steps ≡ figure.old.steps }
        ensures faults { K.faults sink.old ≤ K.faults sink.new }
        ensures heard { ¬ IsErrOf result DiscoverError.WriteFault
            → K.faults sink.new ≡ K.faults sink.old }
    {
        // More candidates than a number can tell are answered by want of memory.
        if self.examined == u64::MAX {
            return Err(DiscoverError::NoMemory);
        }
        let judgement = judge(alloc, program, printer, figure, statement)?;
        match judgement {
            Judgement::Relation(log) => {
                self.add_relation(alloc, program, printer, statement, &log, sink)
            }
            Judgement::Open(error) => {
                self.add_open(alloc, program, printer, statement, error, sink)
            }
            Judgement::Fails => self.add_nothing(),
            Judgement::Impossible(k) => self.add_impossible(alloc, k, sink),
        }
    }

    /// Writes the line of a relation, and its log.
    fn add_relation<K: Sink>(
        &mut self,
        alloc: Global,
        program: &Program,
        printer: &Printer,
        statement: Statement,
        log: &SureSink,
        sink: &mut K,
    ) -> Result<(), DiscoverError>
        requires candidate { IsCandidate (source_of program.now) statement }
        requires names { printer.now.names ≡ program.now.names }
        requires terms { printer.now.terms.now ≡ program.now.terms }
        requires few { self.old.examined + 1 < 2 ^ 64 }
        ensures ok { OnOk result ((lines : List Line) → log.now ≡ log_text lines
            → AllByRecursion HasNoLineFeed (map line_text lines)
            → Adds relation
            (candidate_lines relation (candidate_text (source_of program.now) statement) lines)
            self.old.first_open
            (progress self.old (K.held sink.old)) (progress self.new (K.held sink.new))) }
        ensures err { IfErr result (λ e. (lines : List Line) → log.now ≡ log_text lines
            → AllByRecursion HasNoLineFeed (map line_text lines)
            → BreaksOff
            (candidate_lines relation (candidate_text (source_of program.now) statement) lines)
            self.old.text.bytes (K.held sink.old) (K.held sink.new)
            (K.faults sink.old) (K.faults sink.new) e) }
        ensures faults { K.faults sink.old ≤ K.faults sink.new }
        ensures heard { ¬ IsErrOf result DiscoverError.WriteFault
            → K.faults sink.new ≡ K.faults sink.old }
    {
        put_candidate(
            alloc,
            &mut self.text,
            program,
            printer,
            b"relation ",
            statement,
            sink,
        )?;
        self.text.put_lines(sink, log.bytes())?;
        self.examined += 1;
        self.relations += 1;
        Ok(())
    }

    /// Writes the line of an open candidate.
    fn add_open<K: Sink>(
        &mut self,
        alloc: Global,
        program: &Program,
        printer: &Printer,
        statement: Statement,
        error: ProveError,
        sink: &mut K,
    ) -> Result<(), DiscoverError>
        requires candidate { IsCandidate (source_of program.now) statement }
        requires names { printer.now.names ≡ program.now.names }
        requires terms { printer.now.terms.now ≡ program.now.terms }
        requires few { self.old.examined + 1 < 2 ^ 64 }
        ensures ok { OnOk result ((lines : List Line) → Adds open_still
            (candidate_lines open_still (candidate_text (source_of program.now) statement) lines)
            (first_of self.old.first_open error)
            (progress self.old (K.held sink.old)) (progress self.new (K.held sink.new))) }
        ensures err { IfErr result (λ e. (lines : List Line) → BreaksOff
            (candidate_lines open_still (candidate_text (source_of program.now) statement) lines)
            self.old.text.bytes (K.held sink.old) (K.held sink.new)
            (K.faults sink.old) (K.faults sink.new) e) }
        ensures faults { K.faults sink.old ≤ K.faults sink.new }
        ensures heard { ¬ IsErrOf result DiscoverError.WriteFault
            → K.faults sink.new ≡ K.faults sink.old }
    {
        put_candidate(
            alloc,
            &mut self.text,
            program,
            printer,
            b"open ",
            statement,
            sink,
        )?;
        self.examined += 1;
        self.open_ones += 1;
        if self.first_open.is_none() {
            self.first_open = Some(error);
        }
        Ok(())
    }

    /// Counts a candidate of which nothing is written.
    fn add_nothing(&mut self) -> Result<(), DiscoverError>
        requires few { self.old.examined + 1 < 2 ^ 64 }
        ensures ok { IsOk result }
        ensures added { (held : Option (List ℕ)) → Adds nothing [] self.old.first_open
            (progress self.old held) (progress self.new held) }
    {
        self.examined += 1;
        Ok(())
    }

    /// Writes that a condition is never met, where the first candidate says so.
    fn add_impossible<K: Sink>(
        &mut self,
        alloc: Global,
        k: u32,
        sink: &mut K,
    ) -> Result<(), DiscoverError>
        requires few { self.old.examined + 1 < 2 ^ 64 }
        ensures ok { OnOk result (self.old.examined ≢ 0 × Adds nothing [] self.old.first_open
            (progress self.old (K.held sink.old)) (progress self.new (K.held sink.new))) }
        ensures err { IfErr result (IsNeverMet k (progress self.old (K.held sink.old))
            (K.held sink.new) (K.faults sink.old) (K.faults sink.new)) }
        ensures faults { K.faults sink.old ≤ K.faults sink.new }
        ensures heard { ¬ IsErrOf result DiscoverError.WriteFault
            → K.faults sink.new ≡ K.faults sink.old }
    {
        if self.examined > 0 {
            return self.add_nothing();
        }
        put_impossible(alloc, &mut self.text, k, sink)?;
        Err(DiscoverError::Impossible(k))
    }

    /// Writes how many candidates are relations and how many are open, behind all of them.
    pub fn conclude<K: Sink>(mut self, alloc: Global, sink: &mut K) -> Result<Found, DiscoverError>
        ensures ok { IfOk result (λ found. (self.first_open ≡ None)
            × (found.relations ≡ self.relations) × (after : ℕ)
            × PutsLines (counts_line self.relations self.open_ones ∷ [])
            self.text.bytes after (K.held sink.old) (K.held sink.new)) }
        ensures err { IfErr result (IsUnsettled (progress self (K.held sink.old))
            (K.held sink.new) (K.faults sink.old) (K.faults sink.new)) }
        ensures faults { K.faults sink.old ≤ K.faults sink.new }
        ensures heard { ¬ IsErrOf result DiscoverError.WriteFault
            → K.faults sink.new ≡ K.faults sink.old }
    {
        let relations = self.relations;
        let open_ones = self.open_ones;
        put_counts(alloc, &mut self.text, relations, open_ones, sink)?;
        match self.first_open {
            None => Ok(Found { relations }),
            Some(error) => Err(answer_to(error)),
        }
    }
}
