//! The text of a search, written line by line within its limit.

ghost use Rattle.std.specs.Prelude.{◌≤◌};

use crate::errors::DiscoverError;
use crate::texts::{bytes_with, first_line_feed, write_text};
use geo_base::Sink;

/// How much of the text has been written.
#[derive(Drop)]
pub(crate) struct FoundText {
    /// How many bytes.
    pub bytes: u64,
    ghost within: { bytes ≤ 67108864 },
}

impl FoundText {
    ghost use Rattle.std.specs.Prelude.{◌≡◌, ◌≤◌, ◌∷◌, ◌++◌, ℕ, List, [], IfErr, IsErrOf, OnOk};
    ghost use Rattle.std.specs.List.{AllByRecursion};
    ghost use Rattle.proof_log.specs.Writable.{HasNoLineFeed};
    ghost use Rattle.geo_discover.specs.Inner.Puts.{BreaksOff, PutsLines};
    ghost use Rattle.log_checker.specs.Checkers.{with_feeds};

    /// Nothing has been written.
    pub fn new() -> FoundText
        ensures { result.bytes ≡ 0 }
    {
        FoundText { bytes: 0 }
    }

    /// Writes a line, which ends with its line feed, where it is within the limit.
    pub fn put<K: Sink>(&mut self, sink: &mut K, line: &[u8]) -> Result<(), DiscoverError>
        ensures ok { OnOk result ((l : List ℕ) → line.now ≡ l ++ 10 ∷ []
            → PutsLines (l ∷ []) self.old.bytes self.new.bytes
            (K.held sink.old) (K.held sink.new)) }
        ensures err { IfErr result (λ e. (l : List ℕ) → line.now ≡ l ++ 10 ∷ []
            → BreaksOff (l ∷ []) self.old.bytes (K.held sink.old) (K.held sink.new)
            (K.faults sink.old) (K.faults sink.new) e) }
        ensures faults { K.faults sink.old ≤ K.faults sink.new }
        ensures heard { ¬ IsErrOf result DiscoverError.WriteFault
            → K.faults sink.new ≡ K.faults sink.old }
    {
        let after = bytes_with(self.bytes, line)?;
        write_text(sink, line)?;
        self.bytes = after;
        Ok(())
    }

    /// Writes the lines of a text, one after another.
    pub fn put_lines<K: Sink>(&mut self, sink: &mut K, text: &[u8]) -> Result<(), DiscoverError>
        ensures ok { OnOk result ((lines : List (List ℕ)) → text.now ≡ with_feeds lines
            → AllByRecursion HasNoLineFeed lines
            → PutsLines lines self.old.bytes self.new.bytes (K.held sink.old) (K.held sink.new)) }
        ensures err { IfErr result (λ e. (lines : List (List ℕ)) → text.now ≡ with_feeds lines
            → AllByRecursion HasNoLineFeed lines
            → BreaksOff lines self.old.bytes (K.held sink.old) (K.held sink.new)
            (K.faults sink.old) (K.faults sink.new) e) }
        ensures faults { K.faults sink.old ≤ K.faults sink.new }
        ensures heard { ¬ IsErrOf result DiscoverError.WriteFault
            → K.faults sink.new ≡ K.faults sink.old }
    {
        let mut rest = text;
        while let Some(end) = first_line_feed(rest) {
            self.put(sink, &rest[..end + 1])?;
            rest = &rest[end + 1..];
        }
        Ok(())
    }
}
