//! The header and the lines of the program.

ghost use Rattle.std.specs.Prelude.{◌≡◌, ◌==◌, ◌∷◌, List, ℕ, IfErr, OnOk, map};
ghost use Rattle.std.specs.List.{AllByRecursion, position};
ghost use Rattle.geo_program.specs.Programs.{source_of};
ghost use Rattle.proof_log.specs.declared.log.Line.TheVariants.{Program as ProgramLine};
ghost use Rattle.proof_log.specs.Writable.{HasNoLineFeed};
ghost use Rattle.geo_chain.specs.FirstLines.{HasNoLineFeeds, IsBrokenOffAmong, program_lines};
ghost use Rattle.geo_chain.specs.Inner.Texts.{with_ends};
ghost use Rattle.geo_chain.specs.Written.{Writes, state};

use crate::errors::ProveError;
use crate::log_writer::LogWriter;
use geo_base::{Sink, Text};
use geo_program::{Program, print};
use proof_log::Line;
use std::alloc::Global;

/// Writes the header of version 2, and the canonical text of the program line by line.
pub fn write_first_lines<K: Sink>(
    alloc: Global,
    program: &Program,
    log: &mut LogWriter,
    sink: &mut K,
) -> Result<(), ProveError>
    ensures ok { OnOk result (HasNoLineFeeds (source_of program.now)
        → Writes (program_lines (source_of program.now))
        (state log.old (K.held sink.old) (K.faults sink.old))
        (state log.new (K.held sink.new) (K.faults sink.new))) }
    ensures err { IfErr result (λ e. HasNoLineFeeds (source_of program.now)
        → IsBrokenOffAmong (program_lines (source_of program.now))
        (state log.old (K.held sink.old) (K.faults sink.old))
        (state log.new (K.held sink.new) (K.faults sink.new)) e) }
{
    let text = print(alloc, program)?;
    log.write(alloc, sink, &Line::Header { version: 2 })?;
    write_pieces(alloc, &text.bytes, log, sink)
}

/// Writes a line of the program for each piece of the text that ends with a line feed.
fn write_pieces<K: Sink>(
    alloc: Global,
    text: &[u8],
    log: &mut LogWriter,
    sink: &mut K,
) -> Result<(), ProveError>
    ensures ok { OnOk result ((lines : List (List ℕ)) → text.now ≡ with_ends lines
        → AllByRecursion HasNoLineFeed lines
        → Writes (map ProgramLine lines)
        (state log.old (K.held sink.old) (K.faults sink.old))
        (state log.new (K.held sink.new) (K.faults sink.new))) }
    ensures err { IfErr result (λ e. (lines : List (List ℕ)) → text.now ≡ with_ends lines
        → AllByRecursion HasNoLineFeed lines
        → IsBrokenOffAmong (map ProgramLine lines)
        (state log.old (K.held sink.old) (K.faults sink.old))
        (state log.new (K.held sink.new) (K.faults sink.new)) e) }
{
    let mut rest = text;
    while let Some(end) = first_line_feed(rest) {
        let bytes = Vec::from_slice(alloc, &rest[..end])?;
        log.write(alloc, sink, &Line::Program(Text { bytes }))?;
        rest = &rest[end + 1..];
    }
    Ok(())
}

/// The place of the first line feed.
fn first_line_feed(text: &[u8]) -> Option<usize>
    ensures { result ≡ position (λ b. b == 10) text.now }
{
    text.iter().position(|b| *b == b'\n')
}
