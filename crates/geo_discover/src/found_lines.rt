//! The lines of the text of a search that are not lines of a log.

ghost use Rattle.std.specs.Prelude.{◌≡◌, ◌≤◌, ◌∷◌, ◌++◌, IfErr, IfOk, IsErrOf, OnOk, [], decimal};
ghost use Rattle.geo_program.specs.Programs.{source_of};
ghost use Rattle.geo_discover.specs.FoundTexts.{candidate_text};
ghost use Rattle.geo_discover.specs.Inner.Puts.{BreaksOff, PutsLines};
ghost use Rattle.geo_discover.specs.Inner.Searching.{IsCandidate, counts_line, impossible_line};

use crate::errors::DiscoverError;
use crate::found_text::FoundText;
use geo_base::{Sink, Text, push_decimal};
use geo_points::NoMemory;
use geo_program::{Printer, Program, Statement};
use std::alloc::Global;

/// Writes the line of a candidate behind a word.
pub(crate) fn put_candidate<K: Sink>(
    alloc: Global,
    text: &mut FoundText,
    program: &Program,
    printer: &Printer,
    word: &[u8],
    statement: Statement,
    sink: &mut K,
) -> Result<(), DiscoverError>
    requires candidate { IsCandidate (source_of program.now) statement }
    requires names { printer.now.names ≡ program.now.names }
    requires terms { printer.now.terms.now ≡ program.now.terms }
    ensures ok { OnOk result (PutsLines
        ((word.now ++ candidate_text (source_of program.now) statement) ∷ [])
        text.old.bytes text.new.bytes (K.held sink.old) (K.held sink.new)) }
    ensures err { IfErr result (BreaksOff
        ((word.now ++ candidate_text (source_of program.now) statement) ∷ [])
        text.old.bytes (K.held sink.old) (K.held sink.new)
        (K.faults sink.old) (K.faults sink.new)) }
    ensures faults { K.faults sink.old ≤ K.faults sink.new }
    ensures heard { ¬ IsErrOf result DiscoverError.WriteFault
        → K.faults sink.new ≡ K.faults sink.old }
{
    let line = candidate_line(alloc, program, printer, word, statement)?;
    text.put(sink, &line.bytes)
}

/// The line of a candidate behind a word.
fn candidate_line(
    alloc: Global,
    program: &Program,
    printer: &Printer,
    word: &[u8],
    statement: Statement,
) -> Result<Text, NoMemory>
    requires candidate { IsCandidate (source_of program.now) statement }
    requires names { printer.now.names ≡ program.now.names }
    requires terms { printer.now.terms.now ≡ program.now.terms }
    ensures { IfOk result (λ line. line
        ≡ (word.now ++ candidate_text (source_of program.now) statement) ++ 10 ∷ []) }
{
    // `len` also says that the store is valid.
    let _ = program.terms.len();
    let text = printer.statement_text(alloc, statement)?;
    let mut bytes = Vec::from_slice(alloc, word)?;
    bytes.extend_from_slice(&text.bytes)?;
    bytes.push(b'\n')?;
    Ok(Text { bytes })
}

/// Writes that a condition is never met.
pub(crate) fn put_impossible<K: Sink>(
    alloc: Global,
    text: &mut FoundText,
    k: u32,
    sink: &mut K,
) -> Result<(), DiscoverError>
    ensures ok { OnOk result (PutsLines (impossible_line k ∷ [])
        text.old.bytes text.new.bytes (K.held sink.old) (K.held sink.new)) }
    ensures err { IfErr result (BreaksOff (impossible_line k ∷ [])
        text.old.bytes (K.held sink.old) (K.held sink.new)
        (K.faults sink.old) (K.faults sink.new)) }
    ensures faults { K.faults sink.old ≤ K.faults sink.new }
    ensures heard { ¬ IsErrOf result DiscoverError.WriteFault
        → K.faults sink.new ≡ K.faults sink.old }
{
    let bytes = impossible_bytes(alloc, k)?;
    text.put(sink, &bytes)
}

/// The line that says that a condition is never met.
fn impossible_bytes(alloc: Global, k: u32) -> Result<Vec<u8>, NoMemory>
    ensures { IfOk result (λ line. line.items ≡ impossible_line k ++ 10 ∷ []) }
{
    let mut bytes = Vec::from_slice(alloc, b"impossible ")?;
    push_number(alloc, &mut bytes, k as u64)?;
    bytes.push(b'\n')?;
    Ok(bytes)
}

/// Writes how many candidates are relations, and how many are open.
pub(crate) fn put_counts<K: Sink>(
    alloc: Global,
    text: &mut FoundText,
    relations: u64,
    open_ones: u64,
    sink: &mut K,
) -> Result<(), DiscoverError>
    ensures ok { OnOk result (PutsLines (counts_line relations open_ones ∷ [])
        text.old.bytes text.new.bytes (K.held sink.old) (K.held sink.new)) }
    ensures err { IfErr result (BreaksOff (counts_line relations open_ones ∷ [])
        text.old.bytes (K.held sink.old) (K.held sink.new)
        (K.faults sink.old) (K.faults sink.new)) }
    ensures faults { K.faults sink.old ≤ K.faults sink.new }
    ensures heard { ¬ IsErrOf result DiscoverError.WriteFault
        → K.faults sink.new ≡ K.faults sink.old }
{
    let bytes = counts_bytes(alloc, relations, open_ones)?;
    text.put(sink, &bytes)
}

/// The line of the counts.
fn counts_bytes(alloc: Global, relations: u64, open_ones: u64) -> Result<Vec<u8>, NoMemory>
    ensures { IfOk result (λ line. line.items
        ≡ counts_line relations open_ones ++ 10 ∷ []) }
{
    let mut bytes = Vec::from_slice(alloc, b"relations ")?;
    push_number(alloc, &mut bytes, relations)?;
    bytes.extend_from_slice(b" open ")?;
    push_number(alloc, &mut bytes, open_ones)?;
    bytes.push(b'\n')?;
    Ok(bytes)
}

/// Appends a number.
fn push_number(alloc: Global, out: &mut Vec<u8>, number: u64) -> Result<(), NoMemory>
    ensures { OnOk result (out.new.items ≡ out.old.items ++ decimal number) }
{
    push_decimal(alloc, out, number as i128).map_err(|_| NoMemory)
}
