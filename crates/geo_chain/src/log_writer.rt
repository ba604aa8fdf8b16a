//! Writes a log line by line, within the limit of its text; or counts its lines, or bounds its text.

ghost use Rattle.std.specs.Prelude.{◌≡◌, ◌↔◌, ◌+◌, ◌*◌, ◌^◌, ◌<◌, [], ◌∷◌, IfErr, IsTrue, List, OnOk, length};
ghost use Rattle.geo_logs.specs.Moves.{spent, too_large};
ghost use Rattle.geo_chain.specs.Sizes.{Fits, IsTakable, bytes_of, with_text};
ghost use Rattle.proof_log.specs.declared.log.Line.{Line};
ghost use Rattle.proof_log.specs.Lines.{log_text};

use crate::errors::ProveError;
use crate::putting::{has_room, put_again, put_line, put_within};
use crate::size::{Size, bytes_of, is_written};
use geo_base::Sink;
use geo_poly::Which;
use proof_log::Line;
use std::alloc::Global;

/// How much of a log has been written.
#[derive(Drop)]
pub struct LogWriter {
    /// How many lines.
    pub lines: u64,
    /// What is done with them, and the size of the text.
    pub size: Size,
    ghost few: { lines + 1 < 2 ^ 64 },
    ghost within: { Fits size },
}

impl LogWriter {
    ghost use Rattle.geo_chain.specs.Written.{HasStopped, IsTextUnwritten, IsUnwritten, Writes, state};

    /// Nothing has been written.
    pub fn new() -> LogWriter
        ensures lines { result.lines ≡ 0 }
        ensures size { result.size ≡ Size.Written 0 }
    {
        LogWriter {
            lines: 0,
            size: Size::Written(0),
        }
    }

    /// So many lines are counted, and those to come will be.
    pub fn counting(lines: u64) -> LogWriter
        requires { lines + 1 < 2 ^ 64 }
        ensures lines { result.lines ≡ lines }
        ensures size { result.size ≡ Size.Counted }
    {
        LogWriter {
            lines,
            size: Size::Counted,
        }
    }

    /// A log with the same lines and text so far, whose lines to come are not written.
    pub fn bounding(&self) -> LogWriter
        ensures lines { result.lines ≡ self.now.lines }
        ensures size { result.size ≡ Size.Bounded (bytes_of self.now.size) }
    {
        LogWriter {
            lines: self.lines,
            size: Size::Bounded(bytes_of(self.size)),
        }
    }

    /// Writes a line behind those before, where it is within the limit.
    pub fn write<K: Sink>(
        &mut self,
        alloc: Global,
        sink: &mut K,
        line: &Line,
    ) -> Result<(), ProveError>
        requires { IsTakable self.old.size line.now }
        ensures ok { OnOk result (Writes (line.now ∷ [])
            (state self.old (K.held sink.old) (K.faults sink.old))
            (state self.new (K.held sink.new) (K.faults sink.new))) }
        ensures err { IfErr result (IsUnwritten line.now
            (state self.old (K.held sink.old) (K.faults sink.old))
            (state self.new (K.held sink.new) (K.faults sink.new))) }
    {
        // More lines than a number can tell are answered by want of memory.
        if self.lines >= u64::MAX - 2 {
            return Err(ProveError::NoMemory);
        }
        let size = put_within(alloc, sink, self.size, line)?;
        self.size = size;
        self.lines += 1;
        Ok(())
    }

    /// Writes so many lines by their text, where it is within the limit. It may be that of lines
    /// of another log.
    #[tactic(auto, using(crate::proofs::Again::written_again, crate::proofs::Again::none_again))]
    pub fn write_again<K: Sink>(
        &mut self,
        sink: &mut K,
        lines: u64,
        text: &[u8],
    ) -> Result<(), ProveError>
        ensures ok { (again : List Line) → text.now ≡ log_text again → lines ≡ length again
            → OnOk result (Writes again
            (state self.old (K.held sink.old) (K.faults sink.old))
            (state self.new (K.held sink.new) (K.faults sink.new))) }
        ensures err { IfErr result (IsTextUnwritten text.now
            (state self.old (K.held sink.old) (K.faults sink.old))
            (state self.new (K.held sink.new) (K.faults sink.new))) }
    {
        // More lines than a number can tell are answered by want of memory.
        if lines >= u64::MAX - 1 - self.lines {
            return Err(ProveError::NoMemory);
        }
        let size = put_again(sink, self.size, text)?;
        self.size = size;
        self.lines += lines;
        Ok(())
    }

    /// Whether so many more bytes of text are within the limit.
    pub fn has_room(&self, bytes: u64) -> bool
        ensures { IsTrue result ↔ Fits (with_text self.now.size bytes) }
    {
        has_room(self.size, bytes)
    }

    /// Writes the line of a stop whose charge is not paid, and answers the stop.
    pub fn stop_spent<K: Sink>(&self, alloc: Global, sink: &mut K) -> ProveError
        ensures { HasStopped spent (state self.now (K.held sink.old) (K.faults sink.old))
            (state self.now (K.held sink.new) (K.faults sink.new)) result }
    {
        let line = self.lines + 1;
        if !is_written(self.size) {
            return ProveError::Spent { line };
        }
        match put_line(alloc, sink, &Line::StopSpent { line }) {
            Ok(()) => ProveError::Spent { line },
            Err(error) => error,
        }
    }

    /// Writes the line of a stop whose size passes its limit, and answers the stop.
    pub fn stop_too_large<K: Sink>(&self, alloc: Global, sink: &mut K, which: Which) -> ProveError
        ensures { HasStopped (too_large which)
            (state self.now (K.held sink.old) (K.faults sink.old))
            (state self.now (K.held sink.new) (K.faults sink.new)) result }
    {
        let line = self.lines + 1;
        if !is_written(self.size) {
            return ProveError::TooLarge { line, which };
        }
        match put_line(alloc, sink, &Line::StopTooLarge { line, which }) {
            Ok(()) => ProveError::TooLarge { line, which },
            Err(error) => error,
        }
    }
}
